// How the units of a literal are read.
ghost use Rattle.std.specs.Prelude.{◌≡◌, ℕ, ◌+◌, ◌<◌, ◌≤◌, List, [], ◌∷◌, MatchOption};
ghost use Rattle.std.specs.Iterator.{at_most};
ghost use Rattle.grammar.specs.Literal.{Body};
ghost use Rattle.escapes.specs.Escapes.{listed};
ghost use Rattle.pieces.specs.Pieces.{StopRead};
ghost use Rattle.look.specs.Units.{Kept, Opened, GivenRead, Gave, Gives, ReadsOn, togo};

use crate::literal::Literal;
use crate::units::UnitReader;
use escapes::unicode::{Given, Units, units_of};
use pieces::piece::{Opening, Stop, next_piece};
use source::cursor::Cursor;

// What a stop gives and the place where the literal goes on, or none at its end.
fn given_by(stop: Stop) -> Option<Given>
    ensures { (b : Body) (bs : List ℕ) (p : ℕ) → StopRead b bs p stop → GivenRead b bs p result }
{
    match stop {
        Stop::Escape(Ok(given)) => Some(given),
        Stop::Escape(Err(invalid)) => Some(Given {
            units: Units::Nothing,
            next: invalid.next,
        }),
        Stop::Return(next) => Some(Given {
            units: Units::One(u16::from(b'\n')),
            next,
        }),
        Stop::Dollar(next) => Some(Given {
            units: Units::One(u16::from(b'$')),
            next,
        }),
        Stop::End(_, _) => None,
    }
}

// Takes the first of some units.
fn take_first(units: &mut Units) -> Option<u16>
    ensures { MatchOption result ((listed units.old ≡ []) × (units.new ≡ units.old)) (λ u. listed units.old ≡ u ∷ listed units.new) }
{
    match *units {
        Units::Nothing => None,
        Units::One(unit) => {
            *units = Units::Nothing;
            Some(unit)
        }
        Units::Two(first, second) => {
            *units = Units::One(second);
            Some(first)
        }
    }
}

impl<'t> Literal<'t> {
    // The units, one after the other.
    pub fn units(self) -> UnitReader<'t>
        ensures cursor { (result.cursor ≡ self.entry.inside) × (result.opening ≡ self.entry.opening) }
        ensures gave { Gave result self.entry.start [] }
    {
        UnitReader::new(self.inside, self.opening)
    }
}

impl<'t> UnitReader<'t> {
    // The units of the literal that opens before a cursor's place.
    pub fn new(cursor: Cursor<'t>, opening: Opening) -> UnitReader<'t>
        ensures cursor { (result.cursor ≡ cursor.entry) × (result.opening ≡ opening) }
        ensures gave { (start : ℕ) → Opened cursor.entry.bytes.now start opening → cursor.entry.place.at ≡ start + 1 → Gave result start [] }
    {
        UnitReader {
            cursor,
            opening,
            piece: next_piece(cursor, opening),
            pending: Units::Nothing,
        }
    }

    // Reads the character at the place.
    fn read_plain(&mut self) -> Option<Units>
        requires { (listed self.old.pending ≡ []) × (self.old.cursor.place.at < self.old.piece.to) }
        ensures { ReadsOn self.old result self.new }
    {
        let (c, behind) = self.cursor.peek_char()?;
        self.cursor.move_to(behind);
        Some(units_of(c))
    }

    // Reads the stop behind the plain characters, and the next piece; none at the literal's end.
    fn read_stop(&mut self) -> Option<Units>
        requires { (listed self.old.pending ≡ []) × (self.old.piece.to ≤ self.old.cursor.place.at) }
        ensures { ReadsOn self.old result self.new }
    {
        let given = given_by(self.piece.stop)?;
        self.cursor.move_to(given.next);
        self.piece = next_piece(self.cursor, self.opening);
        Some(given.units)
    }

    // Reads on, where no unit is pending: what is read is still to be given; none at the literal's end.
    fn read_on(&mut self) -> Option<Units>
        requires { listed self.old.pending ≡ [] }
        ensures { ReadsOn self.old result self.new }
    {
        if self.cursor.place() < self.piece.to {
            self.read_plain()
        } else {
            self.read_stop()
        }
    }

    // Gives the first of some units that were read, and keeps the second; none where there is none.
    fn give(&mut self, units: Units) -> Option<u16>
        requires { (listed self.old.pending ≡ []) × (0 < self.old.cursor.place.at) }
        ensures { Kept self.old units result self.new }
    {
        match units {
            Units::Nothing => None,
            Units::One(unit) => Some(unit),
            Units::Two(first, second) => {
                self.pending = Units::One(second);
                Some(first)
            }
        }
    }
}

impl Iterator for UnitReader<'_> {
    type Item = u16;

    ghost next_gives = { Gives };

    ghost remaining = { λ r. at_most (togo r) };

    // in line in each loop over the units, so that the reader stays in registers
    #[inline(always)]
    fn next(&mut self) -> Option<u16> {
        if let Some(unit) = take_first(&mut self.pending) {
            return Some(unit);
        }
        'reads: loop {
            let units = self.read_on()?;
            if let Some(unit) = self.give(units) {
                return Some(unit);
            }
        }
    }
}
