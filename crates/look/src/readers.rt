// The readers of a literal's units and faults, by its start.
ghost use Rattle.std.specs.Prelude.{◌≡◌, ◌<◌, true, [], length, slice_index};
ghost use Rattle.look.specs.Looked.{opens};
ghost use Rattle.look.specs.Told.{Told};
ghost use Rattle.look.specs.Units.{Gave};

use crate::answer::Scan;
use crate::faulty::FaultReader;
use crate::literal::Literal;
use crate::units::UnitReader;
use pieces::piece::Opening;
use source::cursor::Cursor;
use source::text::Text;

// The units of the literal at a start. Where none opens there, the reader goes over the same text, and what it gives is bound to nothing.
pub fn units_at(text: Text<'_>, start: usize, scan: Scan) -> UnitReader<'_>
    ensures bytes { result.cursor.bytes.now ≡ text.entry.bytes.now }
    ensures gave { start < length text.entry.bytes.now → opens scan (slice_index text.entry.bytes.now start) ≡ true → Gave result start [] }
{
    match Literal::find(text, start, scan) {
        Ok(literal) => UnitReader::new(literal.inside, literal.opening),
        Err(_) => UnitReader::new(Cursor::new(text), Opening::Double),
    }
}

// The faults of the literal at a start, and the same where none opens there.
pub fn faults_at(text: Text<'_>, start: usize, scan: Scan) -> FaultReader<'_>
    ensures bytes { (result.cursor.bytes.now ≡ text.entry.bytes.now) × (result.start ≡ start) }
    ensures told { start < length text.entry.bytes.now → opens scan (slice_index text.entry.bytes.now start) ≡ true → Told result [] }
{
    match Literal::find(text, start, scan) {
        Ok(literal) => FaultReader::new(literal.inside, literal.opening, start),
        Err(_) => FaultReader::new(Cursor::new(text), Opening::Double, start),
    }
}
