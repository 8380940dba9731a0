// What a script holds at a glance: its size, and where the scanners would stop in it.
#![tactic(auto)]

pub mod report;
pub mod survey;
