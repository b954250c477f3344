//! Lists of names as definitions, and what a long one is kept by: slots in parts, and hashes. The definitions are the name
//! list in order and ranks in it, with laws that hold under any order that is a total preorder.
//! Begin with `laws::names_in_order_are_sorted`, `slot_list::SlotList` and `hash_list::HashList`.
#![tactic(auto)]

mod chains;
pub mod fronts;
pub mod hash_list;
pub mod hashing;
pub mod laws;
mod list_rows;
mod parts;
pub mod slot_list;
mod starts;
pub mod windows;
