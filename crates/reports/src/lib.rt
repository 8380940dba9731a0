// Commands performed on one session: what they tell, and the law of their calls.
#![tactic(auto)]

pub mod answer;
mod ask;
pub mod play;
pub mod print;
pub mod report;
