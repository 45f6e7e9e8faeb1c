//! A session: a script that comes line by line. Each line is answered before more is read. The stage is
//! always that of the lines so far, and a refused line changes nothing.
#![tactic(auto)]

mod answering;
mod arrivals;
mod cuts;
mod errors;
mod gathering;
mod laws;
mod openings;
mod playing;
mod replies;
mod requests;
mod saving;
mod scripts;
mod serving;
mod sessions;
mod sorts;

pub use errors::Stopped;
pub use laws::{cuts_are_shown, reports_as_serial, saves_a_script, screens_are_fitted};
pub use serving::serve;
