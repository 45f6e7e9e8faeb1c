//! Books of commands that wait.
use super::ends::made;
use std::process::Abort;
use std::test::Fail;
use tr_base::{Font, Kind, Size};
use tr_book::Book;
use tr_client::Prepared;
use tr_levels::{Held, Level};
use w_plain::{Solid, SolidCmd};

const SMALL: Size = Size { wide: 3, high: 2 };

const OTHER: Size = Size { wide: 1, high: 4 };

/// A book over a window of this colour.
fn book(rt: &(impl Abort + AllocGlobal), tint: u8) -> Book<Solid> {
    let font = made(rt, Font::empty(rt.alloc()));
    made(
        rt,
        Book::fresh(rt.alloc(), Solid::new(tint), &font, SMALL, Kind::Map8),
    )
}

/// Whether a book has these levels, and was handed over so many commands.
fn has(book: &Book<Solid>, levels: &[Held], handed: u64) -> bool {
    book.waiting() == levels.len() && book.levels() == levels && book.handed() == handed
}

/// Whether a book leads from one colour to another one by these commands.
fn leads(book: &Book<Solid>, from: u8, to: u8, commands: &[SolidCmd]) -> bool {
    let prepared = book.prepared();
    let is_prepared = prepared.from.tint() == from && prepared.to.tint() == to;
    is_prepared && prepared.commands.as_slice() == commands
}

/// Whether commands wait in their order, also once they are fitted anew.
fn keeps_its_commands(rt: &(impl Abort + AllocGlobal)) -> bool {
    let mut book = book(rt, 5);
    let is_fresh = has(&book, &[], 0) && leads(&book, 5, 5, &[]);
    let mu = Held::none().with(Level::Mu);
    made(rt, book.post(mu, SolidCmd::Tint(7)));
    made(rt, book.post(Held::none(), SolidCmd::Tint(8)));
    let commands = [SolidCmd::Tint(7), SolidCmd::Tint(8)];
    let is_posted = has(&book, &[mu, Held::none()], 0) && leads(&book, 5, 8, &commands);
    let font = made(rt, Font::empty(rt.alloc()));
    made(rt, book.refit(Solid::new(1), &font, OTHER, Kind::Mono));
    let is_refitted = has(&book, &[mu, Held::none()], 0) && leads(&book, 1, 8, &commands);
    let prepared = book.prepared();
    is_fresh && is_posted && is_refitted && prepared.size == OTHER && prepared.kind == Kind::Mono
}

/// What waits is handed over, and the next commands are prepared over what it leaves. False where too much
/// was handed over.
fn hand_over(rt: &(impl Abort + AllocGlobal), book: &mut Book<Solid>) -> bool {
    let font = made(rt, Font::empty(rt.alloc()));
    let content = book.prepared().to;
    let fresh = made(
        rt,
        Prepared::fresh(rt.alloc(), content, &font, SMALL, Kind::Map8),
    );
    if book.handed() >= 100 || book.waiting() >= 100 {
        return false;
    }
    book.renew(fresh);
    true
}

/// Whether what was handed over is counted, and doesn't wait any more.
fn counts_what_it_hands_over(rt: &(impl Abort + AllocGlobal)) -> bool {
    let mut book = book(rt, 5);
    made(rt, book.post(Held::none(), SolidCmd::Tint(7)));
    made(rt, book.post(Held::none(), SolidCmd::Tint(8)));
    let is_first = hand_over(rt, &mut book) && has(&book, &[], 2) && leads(&book, 8, 8, &[]);
    made(rt, book.post(Held::none(), SolidCmd::Tint(9)));
    is_first && hand_over(rt, &mut book) && has(&book, &[], 3)
}

/// What waits is handed over, and the next commands are prepared over a copy of what it leaves. False where
/// too much was handed over.
fn go_on(book: &mut Book<Solid>) -> bool {
    let content = book.prepared().to;
    if book.handed() >= 100 || book.waiting() >= 100 {
        return false;
    }
    book.restart(content);
    true
}

/// Whether a book that goes on counts what it hands over, and prepares what comes next over it.
fn goes_on(rt: &(impl Abort + AllocGlobal)) -> bool {
    let mut book = book(rt, 5);
    made(rt, book.post(Held::none(), SolidCmd::Tint(7)));
    made(rt, book.post(Held::none(), SolidCmd::Tint(8)));
    let is_first = go_on(&mut book) && has(&book, &[], 2) && leads(&book, 8, 8, &[]);
    made(rt, book.post(Held::none(), SolidCmd::Tint(9)));
    let is_second = has(&book, &[Held::none()], 2) && leads(&book, 8, 9, &[SolidCmd::Tint(9)]);
    is_first && is_second && go_on(&mut book) && has(&book, &[], 3)
}

#[test]
fn books_keep_and_count_commands(rt: HostRuntime) -> Result<(), Fail> {
    assert!(rt; keeps_its_commands(&rt));
    assert!(rt; counts_what_it_hands_over(&rt));
    assert!(rt; goes_on(&rt));
    Ok(())
}
