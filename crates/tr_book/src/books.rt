ghost use Rattle.std.specs.Prelude.{◌≡◌, ◌<◌, ◌+◌, ◌^◌, ◌++◌, ◌∷◌, [], length, IfOk, OnOk, OnErr};
ghost use Rattle.tr_client.specs.Laws.{IsWindowSize};
ghost use Rattle.tr_client.specs.Runs.{content_after};
ghost use Rattle.tr_levels.specs.Levels.{HaveLevels, HoldsNoLeaf};
ghost use Rattle.tr_book.specs.Books.{view_of};

use std::alloc::Global;
use std::marker::Model;
use std::mem;
use tr_base::{Font, Kind, NoMemory, Size};
use tr_client::{Client, Prepared};
use tr_levels::Held;

/// The commands of one window that wait to be handed over, in their order, prepared over a content.
/// Each has its level: the levels that its caller held below the window's lock, never a share or a
/// window. A book has no limit.
#[derive(Drop)]
pub struct Book<C: Client> {
    prepared: Prepared<C>,
    levels: Vec<Held>,
    handed: u64,
}

impl<C: Client> Model for Book<C> {
    ghost use Rattle.tr_levels.specs.Levels.{HaveLevels};
    ghost use Rattle.tr_book.specs.Books.{BookView, view_of};

    ghost Value = { BookView C C.Cmd };

    ghost view = { λ b. record {
      prepared = view_of b.prepared;
      levels = b.levels.items;
      handed = b.handed;
    } };

    ghost invariant = { λ b. HaveLevels b.prepared.commands.items b.levels.items };
}

impl<C: Client> Book<C> {
    /// No command waits, and none was handed over.
    pub fn fresh(
        alloc: Global,
        content: C,
        font: &Font,
        size: Size,
        kind: Kind,
    ) -> Result<Book<C>, NoMemory>
        requires { IsWindowSize size }
        ensures from { IfOk result (λ b. b.prepared.from ≡ content) }
        ensures font { IfOk result (λ b. b.prepared.font ≡ font.now) }
        ensures size { IfOk result (λ b. b.prepared.size ≡ size) }
        ensures kind { IfOk result (λ b. b.prepared.kind ≡ kind) }
        ensures commands { IfOk result (λ b. b.prepared.commands ≡ []) }
        ensures levels { IfOk result (λ b. b.levels ≡ []) }
        ensures handed { IfOk result (λ b. b.handed ≡ 0) }
    {
        Ok(Book {
            prepared: Prepared::fresh(alloc, content, font, size, kind)?,
            levels: Vec::new(alloc),
            handed: 0,
        })
    }

    /// Adds a command after those that wait. If memory runs out, the command is dropped, and the book is
    /// as before. The level holds no share and no window, as `Held::parts` shows.
    pub fn post(&mut self, level: Held, cmd: C::Cmd) -> Result<(), NoMemory>
        requires { HoldsNoLeaf level }
        ensures ok_prepared { OnOk result (self.new.prepared ≡
            record self.old.prepared { commands = self.old.prepared.commands ++ cmd ∷ [] }) }
        ensures ok_levels { OnOk result (self.new.levels ≡ self.old.levels ++ level ∷ []) }
        ensures handed { self.new.handed ≡ self.old.handed }
        ensures err { OnErr result (self.new ≡ self.old) }
    {
        self.levels.reserve(1)?;
        self.prepared.add(cmd)?;
        self.levels.push(level)?;
        Ok(())
    }

    /// Prepares the waiting commands anew from another content, for another font, size and kind.
    pub fn refit(&mut self, content: C, font: &Font, size: Size, kind: Kind) -> Result<(), NoMemory>
        requires { IsWindowSize size }
        ensures commands { self.new.prepared.commands ≡ self.old.prepared.commands }
        ensures levels { self.new.levels ≡ self.old.levels }
        ensures handed { self.new.handed ≡ self.old.handed }
        ensures from { OnOk result (self.new.prepared.from ≡ content) }
        ensures font { OnOk result (self.new.prepared.font ≡ font.now) }
        ensures size { OnOk result (self.new.prepared.size ≡ size) }
        ensures kind { OnOk result (self.new.prepared.kind ≡ kind) }
        ensures err { OnErr result (self.new ≡ self.old) }
    {
        self.prepared.refit(content, font, size, kind)?;
        Ok(())
    }

    /// The waiting commands were handed over: they are counted, and the next ones are prepared over
    /// the content, font, size and kind of `fresh`.
    pub fn renew(&mut self, fresh: Prepared<C>)
        requires fresh { fresh.commands.items ≡ [] }
        requires count { self.old.handed + length self.old.prepared.commands < 2 ^ 64 }
        ensures prepared { self.new.prepared ≡ view_of fresh }
        ensures levels { self.new.levels ≡ [] }
        ensures handed { self.new.handed ≡ self.old.handed + length self.old.prepared.commands }
    {
        self.handed += self.waiting() as u64;
        self.levels.clear();
        self.prepared = fresh;
    }

    /// The waiting commands were handed over: they are counted, and the next ones are prepared over a
    /// copy `from` of the content that they left. The lists keep their memory, and the font stays.
    pub fn restart(&mut self, from: C)
        requires from { from ≡
            content_after C.Client self.old.prepared.from self.old.prepared.commands }
        requires count { self.old.handed + length self.old.prepared.commands < 2 ^ 64 }
        ensures prepared { self.new.prepared ≡
            record self.old.prepared { from = from; commands = [] } }
        ensures levels { self.new.levels ≡ [] }
        ensures handed { self.new.handed ≡ self.old.handed + length self.old.prepared.commands }
    {
        let more = self.waiting() as u64;
        start_over(&mut self.prepared, &mut self.levels, from);
        self.handed += more;
    }

    /// Gives the waiting commands away, as they are prepared, with their levels. The next commands are
    /// prepared over the content, font, size and kind of `fresh`. `count` counts the given commands once they
    /// are handed over; if that fails, `take_back` lets them wait again.
    pub fn give(&mut self, fresh: Prepared<C>) -> (Prepared<C>, Vec<Held>)
        requires { fresh.commands.items ≡ [] }
        ensures prepared { self.new.prepared ≡ view_of fresh }
        ensures levels { self.new.levels ≡ [] }
        ensures handed { self.new.handed ≡ self.old.handed }
        ensures given { view_of result.0 ≡ self.old.prepared }
        ensures given_levels { result.1.items ≡ self.old.levels }
        ensures invariant { HaveLevels result.0.commands.items result.1.items }
    {
        let alloc = *self.levels.allocator();
        let prepared = mem::replace(&mut self.prepared, fresh);
        let levels = mem::replace(&mut self.levels, Vec::new(alloc));
        (prepared, levels)
    }

    /// Puts commands that were given away in place of those that wait now.
    pub fn take_back(&mut self, prepared: Prepared<C>, levels: Vec<Held>)
        requires { HaveLevels prepared.commands.items levels.items }
        ensures prepared { self.new.prepared ≡ view_of prepared }
        ensures levels { self.new.levels ≡ levels.items }
        ensures handed { self.new.handed ≡ self.old.handed }
    {
        self.prepared = prepared;
        self.levels = levels;
    }

    /// Counts `number` of the commands that were given away as handed over.
    pub fn count(&mut self, number: u64)
        requires { self.old.handed + number < 2 ^ 64 }
        ensures prepared { self.new.prepared ≡ self.old.prepared }
        ensures levels { self.new.levels ≡ self.old.levels }
        ensures handed { self.new.handed ≡ self.old.handed + number }
    {
        self.handed += number;
    }

    /// Tells the invariant of books. Nothing runs.
    pub fn invariant(&self)
        ensures { HaveLevels self.now.prepared.commands self.now.levels }
    {
        let _count = self.waiting();
    }

    /// The number of commands that wait.
    pub fn waiting(&self) -> usize
        ensures waiting { result ≡ length self.now.prepared.commands }
        ensures invariant { HaveLevels self.now.prepared.commands self.now.levels }
    {
        self.prepared.commands.len()
    }

    /// The number of commands that were handed over.
    pub fn handed(&self) -> u64
        ensures { result ≡ self.now.handed }
    {
        self.handed
    }

    /// The waiting commands, as they are prepared.
    pub fn prepared(&self) -> &Prepared<C>
        ensures { view_of result.now ≡ self.now.prepared }
    {
        &self.prepared
    }

    /// The levels of the waiting commands, in their order.
    pub fn levels(&self) -> &[Held]
        ensures { result.now ≡ self.now.levels }
    {
        &self.levels
    }
}

/// Removes all waiting commands, and prepares the next ones over `from`, a copy of the content that they
/// left.
fn start_over<C: Client>(prepared: &mut Prepared<C>, levels: &mut Vec<Held>, from: C)
    requires { from ≡ prepared.old.to }
    ensures prepared { view_of prepared.new ≡
        record (view_of prepared.old) { from = from; commands = [] } }
    ensures levels { levels.new.items ≡ [] }
{
    levels.clear();
    prepared.from = from;
    prepared.commands.clear();
    prepared.batch.clear();
}
