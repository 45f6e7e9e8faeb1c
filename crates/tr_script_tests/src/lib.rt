//! Tests of the scripts that are drawn from a number, and of lines that are read apart. Nothing but tests is
//! in here: lines that are refused, and what a script writes, are tried by the linked program.
#![tactic(auto)]

#[cfg(test)]
mod drawn;
#[cfg(test)]
mod ends;
#[cfg(test)]
mod steps;
