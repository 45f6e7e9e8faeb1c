//! Tests of the widgets, by their pictures. Nothing but tests is in here: what they answer to events, and
//! the words of their commands, are tried by scripts.
#![tactic(auto)]

#[cfg(test)]
mod changes;
#[cfg(test)]
mod draws;
#[cfg(test)]
mod ends;
#[cfg(test)]
mod laws;
#[cfg(test)]
mod widgets;
