// A literal run through to its end, piece by piece, with nothing but its faults and marks counted.
ghost use Rattle.std.specs.Prelude.{◌≡◌, ℕ, ◌+◌, ◌^◌, ◌<◌, ◌&&◌, ◌||◌, if◌then◌else◌};
ghost use Rattle.look.specs.Runs.{Ran};
ghost use Rattle.look.specs.Units.{Opened};

use crate::go::{Passed, go_by};
use crate::literal::Literal;
use pieces::piece::{Ending, Opening, next_piece};
use source::cursor::Cursor;
use std::ops::ControlFlow;

// Counts of a part of a literal: its faults, whether a value is cooked, and whether it is marked.
#[derive(Clone, Copy, PartialEq, Eq, Debug)]
pub struct Tally {
    pub faults: usize,
    pub cooked: bool,
    pub marked: bool,
}

// How a literal ends, where, and what was counted.
#[derive(Clone, Copy, PartialEq, Eq, Debug)]
pub struct Run {
    pub ending: Ending,
    pub end: usize,
    pub tally: Tally,
}

// The counts with one stop more.
fn counted(tally: Tally, passed: Passed) -> Tally
    requires { tally.faults + 1 < 2 ^ 64 }
    ensures { (result.faults ≡ tally.faults + (if passed.faulty then 1 else 0)) × (result.cooked ≡ tally.cooked && passed.cooked) × (result.marked ≡ tally.marked || passed.marked) }
{
    Tally {
        faults: tally.faults + usize::from(passed.faulty),
        cooked: tally.cooked & passed.cooked,
        marked: tally.marked | passed.marked,
    }
}

// Runs from behind the opening byte to the end.
pub fn run_through(cursor: Cursor<'_>, opening: Opening) -> Run
    ensures { (start : ℕ) → Opened cursor.entry.bytes.now start opening → cursor.entry.place.at ≡ start + 1 → Ran cursor.entry.bytes.now start opening result }
{
    let mut cursor = cursor;
    let mut tally = Tally {
        faults: 0,
        cooked: true,
        marked: false,
    };
    'pieces: loop {
        let piece = next_piece(cursor, opening);
        match go_by(piece.stop, opening.in_template()) {
            ControlFlow::Break((ending, end)) => return Run { ending, end, tally },
            ControlFlow::Continue(passed) => {
                tally = counted(tally, passed);
                cursor.move_to(passed.next);
            }
        }
    }
}

impl Literal<'_> {
    // The same of a literal that was found.
    pub fn run(self) -> Run
        ensures { Ran self.entry.inside.bytes.now self.entry.start self.entry.opening result }
    {
        run_through(self.inside, self.opening)
    }
}
