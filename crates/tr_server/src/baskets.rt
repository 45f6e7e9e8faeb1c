ghost use Rattle.std.specs.Prelude.{◌≡◌, length};
ghost use Rattle.tr_levels.specs.Levels.{HaveLevels};

use crate::drawings::{Drawn, drawn_of};
use crate::sessions::Session;
use std::marker::Model;
use std::sync::ledger::Share;
use tr_book::Book;
use tr_client::Client;

/// The data protected by a window's lock: the book, the part of the ledger that counts the commands handed
/// over, and a drawing of the commands that wait, if there is one. The model is the book.
#[derive(Drop)]
pub(crate) struct Basket<C: Client, L: Session<C::Cmd>> {
    pub(crate) book: Book<C>,
    pub(crate) share: Share<L>,
    pub(crate) drawn: Option<Drawn<C>>,
}

impl<C: Client, L: Session<C::Cmd>> Model for Basket<C, L> {
    ghost use Rattle.std.specs.Prelude.{◌≡◌, IfSome};
    ghost use Rattle.tr_book.specs.Books.{BookView};
    ghost use Rattle.tr_server.specs.Drawings.{IsDrawnOf};

    ghost Value = { BookView C C.Cmd };

    ghost view = { λ b. b.book };

    ghost invariant = { λ b. (b.share.parts ≡ 1) × (b.share.amount ≡ b.book.handed)
        × IfSome b.drawn (λ d. IsDrawnOf C.Client b.book.prepared d.sketch)
        × (b.book.prepared.font ≡ L.font) };
}

impl<C: Client, L: Session<C::Cmd>> Basket<C, L> {
    /// A book for the session's font, from which no command was handed over.
    pub(crate) fn new(book: Book<C>, share: Share<L>) -> Basket<C, L>
        requires share { (share.parts ≡ 1) × (share.amount ≡ 0) }
        requires book { book.handed ≡ 0 }
        requires font { book.prepared.font ≡ L.font }
        ensures { result ≡ book }
    {
        Basket {
            book,
            share,
            drawn: None,
        }
    }

    /// Draws the waiting commands, as a hint.
    pub(crate) fn draw(&mut self)
        ensures { self.new ≡ self.old }
    {
        self.drawn = drawn_of(self.book.prepared());
    }

    /// Tells the invariant of baskets. Nothing runs.
    pub(crate) fn invariant(&self)
        ensures { HaveLevels self.now.prepared.commands self.now.levels }
    {
        let _count = self.waiting();
    }

    /// The number of waiting commands.
    pub(crate) fn waiting(&self) -> usize
        ensures waiting { result ≡ length self.now.prepared.commands }
        ensures invariant { HaveLevels self.now.prepared.commands self.now.levels }
    {
        self.book.waiting()
    }
}
