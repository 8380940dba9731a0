// Escapes: what stands behind a backslash.
#![tactic(auto)]

mod digits;
mod places;
pub mod unicode;
