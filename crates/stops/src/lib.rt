// Stop sets and the search: where a run of plain characters ends.
#![tactic(auto)]

pub mod search;
pub mod sets;
pub mod table;
mod tables;
