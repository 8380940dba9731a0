// What stands at a place of a text.
ghost use Rattle.std.specs.Prelude.{◌≡◌, ◌+◌, ◌<◌, true, [], ◌∷◌, MatchBool};
ghost use Rattle.std.specs.Str.{IsCharBoundary};
ghost use Rattle.grammar.specs.Utf8.{utf8};
ghost use Rattle.grammar.specs.Rule.{Ahead, but};
ghost use Rattle.source.specs.Texts.{WellFormed};
ghost use Rattle.escapes.specs.Places.{Here, AsciiAt};

use source::cursor::Cursor;

// A place of a text, taken with no test: a cursor tests each place that it moves to, which would be once for each digit.
#[derive(Clone, Copy)]
pub(crate) struct Site<'t> {
    bytes: &'t [u8],
    pub(crate) at: usize,
    ghost well: { WellFormed bytes.now },
    ghost boundary: { IsCharBoundary bytes.now at },
}

// Another place of a cursor's text.
pub(crate) fn moved(cursor: Cursor<'_>, at: usize) -> Site<'_>
    requires { IsCharBoundary cursor.bytes.now at }
    ensures { (result.bytes.now ≡ cursor.entry.bytes.now) × (result.at ≡ at) }
{
    Site {
        bytes: cursor.bytes(),
        at,
    }
}

// The place some bytes behind a cursor's.
pub(crate) fn ahead(cursor: Cursor<'_>, by: usize) -> Site<'_>
    requires { IsCharBoundary cursor.bytes.now (cursor.place.at + by) }
    ensures { (result.bytes.now ≡ cursor.entry.bytes.now) × (result.at ≡ cursor.entry.place.at + by) }
{
    moved(cursor, cursor.place() + by)
}

// The place behind one byte.
pub(crate) fn past_byte(site: Site<'_>) -> Site<'_>
    requires { IsCharBoundary site.bytes.now (site.at + 1) }
    ensures { (result.bytes.now ≡ site.entry.bytes.now) × (result.at ≡ site.entry.at + 1) }
{
    Site {
        bytes: site.bytes,
        at: site.at + 1,
    }
}

// The character at a place, if it is one of ASCII.
pub(crate) fn ascii_at(site: Site<'_>) -> Option<u8>
    ensures { AsciiAt site.entry.bytes.now site.entry.at result }
{
    match *site.bytes.get(site.at)? {
        b @ 0..=127 => Some(b),
        _ => None,
    }
}

// Whether a certain character of ASCII stands at a place.
pub(crate) fn stands_at(site: Site<'_>, b: u8) -> bool
    requires { b < 128 }
    ensures { MatchBool result (Here site.entry.bytes.now site.entry.at b) (Ahead (utf8 site.entry.bytes.now site.entry.at) (but ((b, b) ∷ [])) true) }
{
    ascii_at(site) == Some(b)
}
