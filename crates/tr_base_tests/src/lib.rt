//! Tests of the values, streams, kernels, regions and screens at the bottom, and of texts that are kept until
//! they are written. Nothing but tests is in here.
#![tactic(auto)]

#[cfg(test)]
mod ends;
#[cfg(test)]
mod kernels;
#[cfg(test)]
mod outputs;
#[cfg(test)]
mod regions;
#[cfg(test)]
mod rows;
#[cfg(test)]
mod runs;
#[cfg(test)]
mod screens;
#[cfg(test)]
mod streams;
#[cfg(test)]
mod values;
