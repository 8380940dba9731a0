// Lists one after another in lent memory: the cells of all, and a table of where each finished one ends.
#![tactic(auto)]

mod lists;

pub use lists::Cuts;
