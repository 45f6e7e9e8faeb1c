//! Tests of the top call if reads, writes or memory fail, of a gate that it asks, of what one thread can't do,
//! and of the last lines of a script that is played again. This crate has only tests; the linked program tries
//! the other calls.
#![tactic(auto)]

#[cfg(test)]
mod again;
#[cfg(test)]
mod changes;
#[cfg(test)]
mod ends;
#[cfg(test)]
mod faults;
#[cfg(test)]
mod gates;
#[cfg(test)]
mod marks;
#[cfg(test)]
mod pieces;
#[cfg(test)]
mod waiters;
#[cfg(test)]
mod waits;
