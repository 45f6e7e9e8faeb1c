use crate::entries::Entry;
use crate::steps::{Actor, Step};

/// The first difference between the account that an audit was given and the one of its stage.
#[derive(Debug, Drop)]
pub struct Difference<M> {
    /// The number of the item, entry or step that differs, counted from 1.
    pub place: u64,
    pub what: Apart<M>,
}

/// The kind of a difference. `made` is the part that the audit was given, and `found` the part in the
/// stage's account; `None` says that there is none.
#[derive(Debug, Drop)]
pub enum Apart<M> {
    /// An item of the opening differs.
    Opening,
    /// An entry that the journal had before the session differs.
    Kept {
        made: Option<Entry<M>>,
        found: Option<Entry<M>>,
    },
    /// A step that an actor made in the session differs.
    Own {
        actor: Actor,
        made: Option<Step<M>>,
        found: Option<Step<M>>,
    },
}
