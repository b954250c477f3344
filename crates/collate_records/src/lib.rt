//! Records files: what their lines say, and whether they keep the rules. Begin with
//! `records::Records::read`; `class` and `mapping` then ask what the file says. The lines are those of `collate_lines`,
//! what they mean and which rules they keep stands in `collate_rules`, and the rules are asked by `collate_mapping_rules`,
//! `collate_weight_rules` and `collate_record_rules`.
#![tactic(auto)]

pub use collate_compile::provider;
pub use collate_lines::{limits, record, rule};

mod canonical_data;
mod changes;
mod compatibility_data;
pub mod compile;
pub mod differences;
mod given_maps;
pub mod laws;
mod noted_file;
mod reader;
pub mod records;
