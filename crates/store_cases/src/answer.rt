use faults::Fault;
use refusals::Refusal;
use std::fmt;
use wtf8::Place;

// What a call tells.
#[derive(Clone, Copy)]
pub enum Answer {
    Done,
    Number(usize),
    Two(usize, usize),
    Nothing,
    Unknown,
}

impl fmt::Display for Answer {
    fn fmt<W: fmt::Write>(&self, f: &mut fmt::Formatter<W>) -> fmt::Result {
        match *self {
            Answer::Done => f.write_str("ok"),
            Answer::Number(n) => write!(f, "{n}"),
            Answer::Two(a, b) => write!(f, "{a}/{b}"),
            Answer::Nothing => f.write_str("nothing"),
            Answer::Unknown => f.write_str("none"),
        }
    }
}

impl From<()> for Answer {
    fn from(_nothing: ()) -> Answer {
        Answer::Done
    }
}

impl From<usize> for Answer {
    fn from(number: usize) -> Answer {
        Answer::Number(number)
    }
}

impl From<u16> for Answer {
    fn from(unit: u16) -> Answer {
        Answer::Number(usize::from(unit))
    }
}

impl From<Option<usize>> for Answer {
    fn from(number: Option<usize>) -> Answer {
        number.map_or(Answer::Nothing, Answer::Number)
    }
}

impl From<Place> for Answer {
    fn from(place: Place) -> Answer {
        Answer::Two(place.from, place.len)
    }
}

impl From<Fault> for Answer {
    fn from(fault: Fault) -> Answer {
        // the kind by number, since fault kinds have numbers by a rule of the project
        Answer::Two(usize::from(fault.kind.number()), fault.to)
    }
}

// What a call answers: what it tells, or the number of its refusal.
#[derive(Clone, Copy)]
pub struct Told(pub Result<Answer, Refusal>);

impl fmt::Display for Told {
    fn fmt<W: fmt::Write>(&self, f: &mut fmt::Formatter<W>) -> fmt::Result {
        match self.0 {
            Ok(answer) => write!(f, "{answer}"),
            Err(refusal) => write!(f, "no{refusal}"),
        }
    }
}

// What two answer to one call.
#[derive(Clone, Copy)]
pub struct Both(pub Result<Answer, Refusal>, pub Result<Answer, Refusal>);

impl fmt::Display for Both {
    fn fmt<W: fmt::Write>(&self, f: &mut fmt::Formatter<W>) -> fmt::Result {
        let left = Told(self.0);
        let right = Told(self.1);
        write!(f, "{left}|{right}")
    }
}
