//! Tests of levels, cages, steps, answers, entries, journals, books and the lines of differences. Nothing but
//! tests is in here.
#![tactic(auto)]

#[cfg(test)]
mod books;
#[cfg(test)]
mod cages;
#[cfg(test)]
mod copies;
#[cfg(test)]
mod differs;
#[cfg(test)]
mod digits;
#[cfg(test)]
mod ends;
#[cfg(test)]
mod journals;
#[cfg(test)]
mod levels;
#[cfg(test)]
mod names;
#[cfg(test)]
mod ranges;
#[cfg(test)]
mod rights;
#[cfg(test)]
mod steps;
