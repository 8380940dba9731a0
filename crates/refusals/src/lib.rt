// Why a call refuses: one enum for every layer, and the number of each case.
#![tactic(auto)]

ghost use Rattle.std.specs.Prelude.{◌≡◌, Some, decimal};
ghost use Rattle.refusals.specs.Numbers.{number_of};

use std::error::Error;
use std::fmt;

pub mod failure;

#[derive(Clone, Copy, PartialEq, Eq, Debug)]
pub enum Refusal {
    // more than 16,777,216 bytes
    TooLong,
    // not UTF-8, with the length of the longest well-formed prefix
    NotUtf8(usize),
    // a start at or past the end
    StartPastEnd,
    // the wrong opening byte
    WrongOpening,
    // an index at or past the length or count
    IndexPastEnd,
    // a stop pattern against the law of stop sets
    UnlawfulPattern,
    // a malformed command
    MalformedCommand,
    // no entry at the start
    NoEntry,
    // more faults than free fault records
    NoRecord,
    // a new entry and no free slot
    NoSlot,
    // a value to store and no free place
    NoPlace,
    // a load past the capacity
    NoCapacity,
    // a string's part that is not UTF-8
    PartNotUtf8,
}

impl Refusal {
    // The number that callers are told; a match, since a case with a value has no number of its own.
    pub fn number(self) -> u8
        ensures { result ≡ number_of self }
    {
        match self {
            Refusal::TooLong => 1,
            Refusal::NotUtf8(_) => 2,
            Refusal::StartPastEnd => 3,
            Refusal::WrongOpening => 4,
            Refusal::IndexPastEnd => 5,
            Refusal::UnlawfulPattern => 6,
            Refusal::MalformedCommand => 7,
            Refusal::NoEntry => 8,
            Refusal::NoRecord => 9,
            Refusal::NoSlot => 10,
            Refusal::NoPlace => 11,
            Refusal::NoCapacity => 12,
            Refusal::PartNotUtf8 => 13,
        }
    }
}

// A refusal is printed as its number.
impl fmt::Display for Refusal {
    ghost output = { λ refusal. Some (decimal (number_of refusal)) };

    fn fmt<W: fmt::Write>(&self, f: &mut fmt::Formatter<W>) -> fmt::Result {
        write!(f, "{}", self.number())
    }
}

impl Error for Refusal {}
