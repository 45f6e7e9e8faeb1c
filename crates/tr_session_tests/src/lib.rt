//! Sessions whose lines come in pieces, whose source or sink fails, and lines that are refused.
#![tactic(auto)]

#[cfg(test)]
mod ends;
#[cfg(test)]
mod sessions;
