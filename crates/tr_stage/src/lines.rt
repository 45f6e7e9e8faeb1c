ghost use Rattle.std.specs.Prelude.{◌≡◌, ◌+◌, ◌*◌, ◌<◌, ◌≤◌, ◌++◌, ◌∷◌, [], length};
ghost use Rattle.tr_stage.specs.Making.{line_told};

use tr_base::Command;
use tr_desk::DeskFault;
use tr_journal::{Actor, Answer, Delivery, Entry, Journal, Reply, Step};
use tr_levels::Held;
use tr_mail::Outbox;

/// The actor of a step, and the locks that it holds.
#[derive(Clone, Copy)]
pub(crate) struct By {
    pub actor: Actor,
    pub level: Held,
}

impl By {
    /// The entry of a step that was made, with its answer and the number of events that it sent.
    #[inline(always)]
    pub fn entry<M>(&self, step: Step<M>, answer: Answer, sent: usize) -> Entry<M>
        requires { sent ≤ 64 }
        ensures { result ≡ record {
          actor = self.now.actor;
          level = self.now.level;
          step = step;
          reply = record { answer = answer; sent = sent };
        } }
    {
        let sent = sent as u16;
        Entry {
            actor: self.actor,
            level: self.level,
            step,
            reply: Reply { answer, sent },
        }
    }
}

/// Adds a line; its room was reserved. Answers its reply, which has a copy of the answer.
#[inline(always)]
pub(crate) fn write<M: Command>(
    journal: &mut Journal<M>,
    entry: Entry<M>,
    answer: Answer,
    sent: &[Delivery],
) -> Reply
    requires answer { answer ≡ entry.reply.answer }
    requires spare { 0 < journal.old.spare }
    requires counted { entry.reply.sent ≡ length sent.now }
    requires few { length sent.now ≤ 32 * journal.old.spare }
    ensures reply { result ≡ entry.reply }
    ensures lines { journal.new.lines ≡ journal.old.lines ++ record { entry = entry; sent = sent.now } ∷ [] }
    ensures spare { length sent.now ≤ 32 → journal.old.spare ≤ journal.new.spare + 1 }
{
    let reply = Reply {
        answer,
        sent: entry.reply.sent,
    };
    journal.push_reserved(entry, sent);
    reply
}

/// Adds the line of a step that the desk did, with its deliveries, or refused. Its room was reserved.
pub(crate) fn write_told<M: Command>(
    journal: &mut Journal<M>,
    by: &By,
    step: Step<M>,
    told: Result<(), DeskFault>,
    sent: &Outbox,
) -> Reply
    requires spare { 0 < journal.old.spare }
    requires few { length sent.now ≤ 32 }
    ensures reply { result ≡ (line_told by.now.actor by.now.level step told sent.now).entry.reply }
    ensures lines { journal.new.lines ≡
        journal.old.lines ++ line_told by.now.actor by.now.level step told sent.now ∷ [] }
    ensures spare { journal.old.spare ≤ journal.new.spare + 1 }
{
    match told {
        Ok(()) => {
            let entry = by.entry(step, Answer::Done, sent.len());
            write(journal, entry, Answer::Done, sent.as_slice())
        }
        Err(fault) => {
            let entry = by.entry(step, Answer::Desk(fault), 0);
            write(journal, entry, Answer::Desk(fault), &[])
        }
    }
}
