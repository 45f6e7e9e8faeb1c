ghost use Rattle.std.specs.Prelude.{◌≡◌, ◌↔◌, IsTrue, IfOk};

use crate::sameness::is_same_event;
use tr_base::{Event, Line, NoMemory};
use tr_desk::DeskFault;
use tr_forest::NodeFault;

/// The answer of a step.
#[derive(Debug, Drop)]
pub enum Answer {
    /// The step is done.
    Done,
    /// The event that was taken.
    Taken(Event),
    /// The value of the content of the selection's owner.
    Value(Line),
    /// No event waited.
    Empty,
    /// The tree refuses the edit.
    Tree(NodeFault),
    /// The desk refuses the step.
    Desk(DeskFault),
}

impl Answer {
    /// A copy of the answer.
    pub fn copy(&self) -> Result<Answer, NoMemory>
        ensures { IfOk result (λ answer. answer ≡ self.now) }
    {
        Ok(match self {
            Answer::Done => Answer::Done,
            Answer::Taken(event) => Answer::Taken(*event),
            Answer::Value(line) => Answer::Value(line.copy()?),
            Answer::Empty => Answer::Empty,
            Answer::Tree(fault) => Answer::Tree(*fault),
            Answer::Desk(fault) => Answer::Desk(*fault),
        })
    }

    /// Whether both are the same answer.
    pub fn same(&self, other: &Answer) -> bool
        ensures { IsTrue result ↔ (self.now ≡ other.now) }
    {
        match (self, other) {
            (Answer::Done, Answer::Done) => true,
            (Answer::Taken(a), Answer::Taken(b)) => is_same_event(a, b),
            (Answer::Value(a), Answer::Value(b)) => a.same(b),
            (Answer::Empty, Answer::Empty) => true,
            (Answer::Tree(a), Answer::Tree(b)) => a == b,
            (Answer::Desk(a), Answer::Desk(b)) => a == b,
            _ => false,
        }
    }
}

/// The answer of a step, and the number of its deliveries.
#[derive(Debug, Drop)]
pub struct Reply {
    pub answer: Answer,
    pub sent: u16,
}

impl Reply {
    /// A copy of the reply.
    pub fn copy(&self) -> Result<Reply, NoMemory>
        ensures { IfOk result (λ reply. reply ≡ self.now) }
    {
        Ok(Reply {
            answer: self.answer.copy()?,
            sent: self.sent,
        })
    }

    /// Whether both are the same reply.
    pub fn same(&self, other: &Reply) -> bool
        ensures { IsTrue result ↔ (self.now ≡ other.now) }
    {
        self.answer.same(&other.answer) && self.sent == other.sent
    }
}
