// Items in lent memory, the first of its cells.
#![tactic(auto)]

mod items;

pub use items::{Full, Lent};
