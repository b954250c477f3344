//! The laws of `icu_collator` applied to texts over written tables, and to what its calls answer a caller. All is read with the
//! tests alone, so that it is proved once.
#![tactic(auto)]

#[cfg(test)]
pub mod calls;
#[cfg(test)]
mod keys;
#[cfg(test)]
mod levels;
#[cfg(test)]
mod numbers;
#[cfg(test)]
mod order;
#[cfg(test)]
mod same;
