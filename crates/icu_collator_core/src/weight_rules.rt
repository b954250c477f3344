//! The rules on weights (docs/RECORDS.md, V1 to V6), over plain leads: a function for each. The check of tables asks
//! them of what tables spell; a reader asks them of what the lines of a file say.

mod apart;
mod element_rules;
mod lead_bytes;
mod ranges;

pub use apart::are_apart;
pub use element_rules::{
    is_letter_lead, is_sound_element, is_sound_kind, is_sound_primary, is_sound_secondary,
    is_sound_tertiary,
};
pub use lead_bytes::{LeadBytes, Leads};
pub(crate) use ranges::{keeps_lead, lowest_second, second_count, second_place, third_place};
pub use ranges::{PrimaryRange, are_disjoint, is_of_other_lead, is_sound_range};
