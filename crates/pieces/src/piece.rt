// One piece of a literal: plain characters, found by the search, and what stops them.
ghost use Rattle.std.specs.Prelude.{◌≡◌, ◌+◌, ◌<◌, true, false, length, IfSome, IsUtf8, MatchBool, ◌≢◌, slice_index};
ghost use Rattle.std.specs.Str.{IsCharBoundary};
ghost use Rattle.grammar.specs.Literal.{template};
ghost use Rattle.stops.specs.First.{FirstStop};
ghost use Rattle.escapes.specs.Places.{Here};
ghost use Rattle.escapes.specs.Escapes.{is_template};
ghost use Rattle.pieces.specs.Pieces.{body_of, stops_in, StopRead, PieceRead};

use escapes::unicode::{Given, Invalid, read_escape};
use source::cursor::Cursor;
use source::fronts::behind;
use stops::search::search;
use stops::sets::{DoubleQuote, SingleQuote, Template};

// What a literal opens with: either quote, a backtick, or the brace behind a substitution.
#[derive(Clone, Copy, PartialEq, Eq, Debug)]
pub enum Opening {
    Double,
    Single,
    Template,
    Resumption,
}

// How a literal ends, or breaks off.
#[derive(Clone, Copy, PartialEq, Eq, Debug)]
pub enum Ending {
    Closed,
    Substitution,
    LineBreak,
    TextEnd,
    LastBackslash,
}

// What stops a run of plain characters, and the place behind it.
#[derive(Clone, Copy, PartialEq, Eq, Debug)]
pub enum Stop {
    Escape(Result<Given, Invalid>),
    Return(usize),
    Dollar(usize),
    End(Ending, usize),
}

// Plain characters up to a place, and what stops them there.
#[derive(Clone, Copy, PartialEq, Eq, Debug)]
pub struct Piece {
    pub to: usize,
    pub stop: Stop,
}

impl Opening {
    pub fn in_template(self) -> bool
        ensures { result ≡ is_template (body_of self) }
    {
        match self {
            Opening::Double | Opening::Single => false,
            Opening::Template | Opening::Resumption => true,
        }
    }
}

// The first stop from a cursor on.
fn find_stop(cursor: Cursor<'_>, opening: Opening) -> Option<(usize, u8)>
    ensures first { FirstStop (stops_in (body_of opening)) cursor.entry.bytes.now cursor.entry.place.at result }
    ensures boundary { IfSome result (λ p. IsCharBoundary cursor.entry.bytes.now p.0) }
{
    let bytes = cursor.bytes();
    let at = cursor.place();
    match opening {
        Opening::Double => search(&DoubleQuote, bytes, at),
        Opening::Single => search(&SingleQuote, bytes, at),
        Opening::Template | Opening::Resumption => search(&Template, bytes, at),
    }
}

// A backslash in a literal.
fn backslash(cursor: Cursor<'_>, at: usize, opening: Opening) -> Stop
    requires { Here cursor.bytes.now at 92 }
    ensures { StopRead (body_of opening) cursor.entry.bytes.now at result }
{
    let behind = cursor.moved(at + 1);
    match read_escape(behind, opening.in_template()) {
        None => Stop::End(Ending::LastBackslash, at + 1),
        Some(escape) => Stop::Escape(escape),
    }
}

// A dollar sign in a template.
fn dollar(cursor: Cursor<'_>, at: usize) -> Stop
    requires { Here cursor.bytes.now at 36 }
    ensures { StopRead template cursor.entry.bytes.now at result }
{
    match cursor.bytes().get(at + 1) {
        Some(b'{') => Stop::End(Ending::Substitution, at + 2),
        _ => Stop::Dollar(at + 1),
    }
}

// A CR in a template.
fn carriage_return(cursor: Cursor<'_>, at: usize) -> Stop
    requires { Here cursor.bytes.now at 13 }
    ensures { StopRead template cursor.entry.bytes.now at result }
{
    let next = behind::<b'\r', b'\n'>(cursor.bytes(), at).unwrap_or(at + 1);
    Stop::Return(next)
}

// A stop of a string that is no backslash.
fn string_stop(cursor: Cursor<'_>, at: usize, byte: u8, opening: Opening) -> Stop
    requires { (Here cursor.bytes.now at byte) × ((stops_in (body_of opening) byte ≡ true) × (((byte ≢ 92)) × (is_template (body_of opening) ≡ false))) }
    ensures { StopRead (body_of opening) cursor.entry.bytes.now at result }
{
    let ending = match byte {
        b'\r' | b'\n' => Ending::LineBreak,
        _ => Ending::Closed,
    };
    Stop::End(ending, at + 1)
}

// A stop of a template that is no backslash.
fn template_stop(cursor: Cursor<'_>, at: usize, byte: u8) -> Stop
    requires { (Here cursor.bytes.now at byte) × ((stops_in template byte ≡ true) × ((byte ≢ 92))) }
    ensures { StopRead template cursor.entry.bytes.now at result }
{
    match byte {
        b'$' => dollar(cursor, at),
        b'\r' => carriage_return(cursor, at),
        _ => Stop::End(Ending::Closed, at + 1),
    }
}

// The stop at a place of a cursor's text. It is no cursor's own place yet: a cursor tests each place that it moves to.
fn stop_at(cursor: Cursor<'_>, at: usize, byte: u8, opening: Opening) -> Stop
    requires { (Here cursor.bytes.now at byte) × (stops_in (body_of opening) byte ≡ true) }
    ensures { StopRead (body_of opening) cursor.entry.bytes.now at result }
{
    if byte == b'\\' {
        backslash(cursor, at, opening)
    } else if opening.in_template() {
        template_stop(cursor, at, byte)
    } else {
        string_stop(cursor, at, byte, opening)
    }
}

// The piece from a cursor's place on.
pub fn next_piece(cursor: Cursor<'_>, opening: Opening) -> Piece
    ensures { PieceRead (body_of opening) cursor.entry.bytes.now cursor.entry.place.at result.to result.stop }
{
    let end = cursor.bytes().len();
    match find_stop(cursor, opening) {
        None => Piece {
            to: end,
            stop: Stop::End(Ending::TextEnd, end),
        },
        Some((to, byte)) => Piece {
            to,
            stop: stop_at(cursor, to, byte, opening),
        },
    }
}
