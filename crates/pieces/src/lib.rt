// Literals piece by piece.
#![tactic(auto)]

pub mod piece;
