//! Proved callers of the library crates, one file a subject: each function is a call as a user
//! would write it, with what its contract lets the user say. `docs/CALLING.md` quotes them.
//! They are read with their tests alone, so that each is proved once. Worked examples of the collation order stand in
//! `proofs`: closed terms that the checker computes.
#![tactic(auto)]

#[cfg(test)]
pub mod code_point_tries;
#[cfg(test)]
pub mod collations;
#[cfg(test)]
pub mod comparisons;
#[cfg(test)]
pub mod decoded;
#[cfg(test)]
pub mod equivalence;
#[cfg(test)]
pub mod keys;
#[cfg(test)]
pub mod names;
#[cfg(test)]
pub mod normal_forms;
#[cfg(test)]
pub mod normalised;
#[cfg(test)]
pub mod options;
#[cfg(test)]
pub mod packed;
#[cfg(test)]
pub mod records;
#[cfg(test)]
pub mod runs;
#[cfg(test)]
pub mod sets;
#[cfg(test)]
mod tests;
#[cfg(test)]
pub mod unit_tries;
