//! Tests of whose each point is. Nothing but tests is in here: the places of windows, and what edits do and
//! answer, are tried by scripts.
#![tactic(auto)]

#[cfg(test)]
mod spots;
