// Checked texts, a cursor over one, and a trial that puts a place back.
#![tactic(auto)]

pub mod cursor;
pub mod fronts;
pub mod text;
pub mod trial;
