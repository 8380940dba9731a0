// A literal that opens at a start of a text.
ghost use Rattle.std.specs.Prelude.{◌≡◌, ◌+◌, ◌<◌, true, false, length, MatchOption, MatchResult, slice_index};
ghost use Rattle.pieces.specs.Pieces.{scan_of};
ghost use Rattle.look.specs.Looked.{opens, suits, opener, Refused};

use crate::answer::Scan;
use pieces::piece::Opening;
use refusals::Refusal;
use source::cursor::Cursor;
use source::text::Text;

// A literal with its start and what it opens with; the cursor stands behind the opening byte.
#[derive(Clone, Copy)]
pub struct Literal<'t> {
    pub(crate) inside: Cursor<'t>,
    pub(crate) start: usize,
    pub(crate) opening: Opening,
    ghost within: { start < length inside.bytes.now },
    ghost opened: { slice_index inside.bytes.now start ≡ opener opening },
    ghost behind: { inside.place.at ≡ start + 1 },
}

// What a byte opens, in a scan.
fn opening_at(byte: u8, scan: Scan) -> Option<Opening>
    ensures { MatchOption result (opens scan byte ≡ false) (λ o. (opens scan byte ≡ true) × (byte ≡ opener o) × (suits scan (scan_of o) ≡ true)) }
{
    match (scan, byte) {
        (Scan::Str, b'"') => Some(Opening::Double),
        (Scan::Str, b'\'') => Some(Opening::Single),
        (Scan::Template, b'`') => Some(Opening::Template),
        (Scan::Resumption, b'}') => Some(Opening::Resumption),
        _ => None,
    }
}

impl<'t> Literal<'t> {
    // The literal at a start, read as the scan that is named.
    pub fn find(text: Text<'t>, start: usize, scan: Scan) -> Result<Literal<'t>, Refusal>
        ensures { MatchResult result (λ l. (l.inside.bytes.now ≡ text.entry.bytes.now) × (l.start ≡ start) × (opens scan (slice_index text.entry.bytes.now start) ≡ true) × (suits scan (scan_of l.opening) ≡ true)) (λ e. Refused text.entry.bytes.now start scan e) }
    {
        let byte = text
            .bytes()
            .get(start)
            .copied()
            .ok_or(Refusal::StartPastEnd)?;
        let opening = opening_at(byte, scan).ok_or(Refusal::WrongOpening)?;
        let inside = Cursor::new(text).moved(start + 1);
        Ok(Literal {
            inside,
            start,
            opening,
        })
    }
}
