//! Tests of characters with their canonical and compatibility data, of normal forms and of the mapper of domain names, by
//! public calls. They stand here so that the crates below are proved once.
#![tactic(auto)]

#[cfg(test)]
mod builder;
#[cfg(test)]
mod calls;
#[cfg(test)]
mod canonical;
#[cfg(test)]
mod chains;
#[cfg(test)]
mod classed;
#[cfg(test)]
mod compatibility;
#[cfg(test)]
mod compatibility_data;
#[cfg(test)]
mod damaged;
#[cfg(test)]
mod decoding;
#[cfg(test)]
mod encoded;
#[cfg(test)]
mod encodings;
#[cfg(test)]
mod forms;
#[cfg(test)]
mod given;
#[cfg(test)]
mod loads;
#[cfg(test)]
mod long;
#[cfg(test)]
mod mapper;
#[cfg(test)]
mod provider;
#[cfg(test)]
mod refusals;
#[cfg(test)]
mod repeats;
#[cfg(test)]
mod runs;
#[cfg(test)]
mod sinks;
#[cfg(test)]
mod steady;
