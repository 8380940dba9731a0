// Entries by start in lent slots.
#![tactic(auto)]

mod map;

pub use map::{Slot, SlotMap};
