// What a list of commands tells.
use commands::kinds::Command;
use faults::Fault;
use refusals::Refusal;
use tokens::Token;

// What one command tells: the token of a scan, or the units of a value, or that none is cooked.
#[derive(Drop)]
pub enum Told {
    Token(Token),
    Value(Option<Vec<u16>>),
}

// A command with what it tells, or why it was turned down.
#[derive(Drop)]
pub struct Line {
    pub command: Command,
    pub told: Result<Told, Refusal>,
}

// A line for each command, and the faults recorded when all were performed.
#[derive(Drop)]
pub struct Report {
    pub lines: Vec<Line>,
    pub faults: Vec<Fault>,
}

// What an input is answered with: its report, or why it was turned down.
#[derive(Drop)]
pub struct Output(pub Result<Report, Refusal>);
