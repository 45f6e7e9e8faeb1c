//! Entries and journals.
ghost use Rattle.std.specs.Prelude.{◌≡◌};

use super::digits::Digit;
use super::ends::made;
use super::steps::A;
use std::process::Abort;
use std::test::Fail;
use tr_base::Event;
use tr_journal::{Actor, Answer, Delivery, Entry, Journal, Reply, Step};
use tr_levels::{Held, Level};

/// An entry of the desk's: a key at this time.
pub fn entry(time: u32, sent: u16) -> Entry<Digit>
    ensures { result.reply.sent ≡ sent }
{
    Entry {
        actor: Actor::Desk,
        level: Held::none().with(Level::Mu),
        step: Step::Key { time, code: 65 },
        reply: Reply {
            answer: Answer::Done,
            sent,
        },
    }
}

/// A key at this time for A.
fn delivery(time: u32) -> Delivery {
    Delivery {
        leaf: A,
        event: Event::Key { time, code: 65 },
        dropped: false,
    }
}

/// A journal of four entries, which sent none, two, none and one of three deliveries; the last two are put
/// into reserved room.
fn journal(rt: &(impl Abort + AllocGlobal), sent: &[Delivery; 3]) -> Journal<Digit> {
    let mut journal = Journal::new(rt.alloc());
    made(rt, journal.push(entry(1, 0), &[]));
    made(rt, journal.push(entry(2, 2), &sent[..2]));
    made(rt, journal.reserve(2));
    journal.push_reserved(entry(3, 0), &[]);
    journal.push_reserved(entry(4, 1), &sent[2..]);
    journal
}

/// Whether the entry at a place is that of this time, and sent these.
fn has_entry(journal: &Journal<Digit>, place: usize, time: u32, sent: &[Delivery]) -> bool {
    if place >= journal.len() || journal.sent(place) != sent {
        return false;
    }
    matches!(journal.get(place).step, Step::Key { time: found, .. } if found == time)
}

#[test]
fn a_journal_keeps_what_was_sent(rt: HostRuntime) -> Result<(), Fail> {
    let sent = [delivery(1), delivery(2), delivery(3)];
    let journal = journal(&rt, &sent);
    let copied = made(&rt, journal.copy());
    assert!(rt; copied.len() == 4 && !copied.is_empty());
    for (place, time, start, end) in [(0, 1, 0, 0), (1, 2, 0, 2), (2, 3, 2, 2), (3, 4, 2, 3)] {
        let sent = &sent[start..end];
        assert!(rt; has_entry(&journal, place, time, sent), "entry {place}");
        assert!(rt;
            has_entry(&copied, place, time, sent),
            "entry {place} of the copy"
        );
    }
    Ok(())
}
