// A look at a literal: its token and counts, its units and its faults, with nothing stored.
#![tactic(auto)]

pub mod answer;
pub mod faulty;
mod giving;
pub mod go;
pub mod literal;
pub mod look;
pub mod readers;
pub mod run;
pub mod telling;
pub mod units;
