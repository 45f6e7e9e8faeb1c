//! Tests of the stage: calls that no script makes. Nothing but tests is in here: scripts try what steps make
//! of the screen, and what they send.
#![tactic(auto)]

#[cfg(test)]
mod acts;
#[cfg(test)]
mod audits;
#[cfg(test)]
mod calls;
#[cfg(test)]
mod ends;
#[cfg(test)]
mod flushes;
#[cfg(test)]
mod openings;
#[cfg(test)]
mod played;
#[cfg(test)]
mod reads;
#[cfg(test)]
mod reserved;
#[cfg(test)]
mod runs;
#[cfg(test)]
mod shares;
#[cfg(test)]
mod sizes;
