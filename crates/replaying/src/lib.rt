// What the programs that replay cases share: the words of a line, the bytes that a word of hex digits writes, and how
// many lines give the answers that they expect.
#![tactic(auto)]

mod counts;
mod words;

pub use counts::{Tally, replay};
pub use words::{cut, digit_pairs, unhexed};
