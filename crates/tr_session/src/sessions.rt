//! The state of a session.
ghost use Rattle.std.specs.Prelude.{◌≡◌};
ghost use Rattle.tr_session.specs.Insides.{PartsAgree, session_view};
ghost use Rattle.tr_session.specs.Sessions as spec;

use crate::cuts::Cuts;
use crate::playing::Played;
use crate::scripts::Script;
use bumpalo::Bump;
use std::alloc::Global;

/// A script that comes line by line, the stage after its lines so far, and the stream of its cuts. Contracts
/// see it as `session_view`, and say where its parts are those of its lines.
#[derive(Drop)]
pub(crate) struct Session<'a> {
    pub(crate) alloc: Global,
    /// The lines of the opening.
    pub(crate) arena: &'a Bump,
    pub(crate) script: Script<'a>,
    /// The stage, once `begin` was read.
    pub(crate) played: Option<Played>,
    pub(crate) cuts: Cuts,
    /// The outcome of a step. It is kept for its room.
    pub(crate) outcome: Vec<u8>,
}

impl<'a> Session<'a> {
    /// The session before the first line. The arena keeps the lines of its opening.
    pub(crate) fn new(alloc: Global, arena: &'a Bump) -> Session<'a>
        ensures view { session_view result ≡ spec.no_session }
        ensures holds { PartsAgree result }
    {
        let script = Script::new(alloc);
        let cuts = Cuts::new();
        Session {
            alloc,
            arena,
            script,
            played: None,
            cuts,
            outcome: Vec::new(alloc),
        }
    }
}
