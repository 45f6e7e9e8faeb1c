//! Tests of the server: sessions, and what the journal has in the end. Nothing but tests is in here.
#![tactic(auto)]

#[cfg(test)]
mod beside;
#[cfg(test)]
mod calls;
#[cfg(test)]
mod ends;
#[cfg(test)]
mod lines;
#[cfg(test)]
mod openings;
#[cfg(test)]
mod rows;
#[cfg(test)]
mod sessions;
#[cfg(test)]
mod shares;
