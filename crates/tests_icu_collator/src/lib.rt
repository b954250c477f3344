//! Tests of collation tables and elements, of options and of the words of elements, of collators and of the sinks of their
//! keys, by public calls. They stand here so that the crates below are proved once.
#![tactic(auto)]

#[cfg(test)]
mod bit_field;
#[cfg(test)]
mod calls;
#[cfg(test)]
mod context_refusals;
#[cfg(test)]
mod copies;
#[cfg(test)]
mod element_calls;
#[cfg(test)]
mod failing_sinks;
#[cfg(test)]
mod fast_calls;
#[cfg(test)]
mod flat_calls;
#[cfg(test)]
mod judged;
#[cfg(test)]
mod long_keys;
#[cfg(test)]
mod numbers;
#[cfg(test)]
mod other_refusals;
#[cfg(test)]
mod refusals;
#[cfg(test)]
mod relations;
#[cfg(test)]
mod resolved;
#[cfg(test)]
mod root_keys;
#[cfg(test)]
mod root_weights;
#[cfg(test)]
mod settings;
#[cfg(test)]
mod shared_nodes;
#[cfg(test)]
mod sinks;
#[cfg(test)]
mod tables;
#[cfg(test)]
mod weight_rules;
#[cfg(test)]
mod word_calls;
