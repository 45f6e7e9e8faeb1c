//! Tests of the mirror: a stream that is read in pieces, against a plain and slow reading that is proved to
//! be the definition. Nothing but tests is in here.
#![tactic(auto)]

#[cfg(test)]
mod ends;
#[cfg(test)]
mod mirrors;

// What only tests call is checked once, with the crate.
mod heads;
mod plain_readings;
mod plain_standings;
