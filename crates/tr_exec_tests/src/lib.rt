//! Tests of paint commands, of what is executed of them on a screen, and of pixels that are moved. Nothing
//! but tests is in here.
#![tactic(auto)]

#[cfg(test)]
mod batches;
#[cfg(test)]
mod draws;
#[cfg(test)]
mod ends;
#[cfg(test)]
mod executions;
#[cfg(test)]
mod repairs;
#[cfg(test)]
mod texts;
#[cfg(test)]
mod traces;
#[cfg(test)]
mod walks;
