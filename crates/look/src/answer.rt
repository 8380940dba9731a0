// What a look is asked and what it answers.
use tokens::Token;

// What is scanned: a string, a template, or a template from behind a substitution.
#[derive(Clone, Copy, PartialEq, Eq, Debug)]
pub enum Scan {
    Str,
    Template,
    Resumption,
}

// The token, the number of faults, and the number of units that would be stored, or none where no value is cooked.
#[derive(Clone, Copy, PartialEq, Eq, Debug)]
pub struct Look {
    pub token: Token,
    pub faults: usize,
    pub units: Option<usize>,
}
