// Faults of literals, and a list of them in lent records.
#![tactic(auto)]

mod list;

pub use list::{Fault, FaultKind, FaultList};
