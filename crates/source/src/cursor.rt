// A cursor over the bytes of a text: one place in it, always a character boundary.
ghost use Rattle.std.specs.Prelude.{◌≡◌, ◌+◌, ◌<◌, ◌≤◌, length, drop, MatchBool, MatchOption, slice_index};
ghost use Rattle.std.specs.Str.{IsCharBoundary};
ghost use Rattle.source.specs.Fronts.{Begins};
ghost use Rattle.source.specs.Texts.{WellFormed, CharAt, limit};

use crate::fronts::behind;
use crate::text::Text;
use crate::trial::Place;

#[derive(Clone, Copy)]
pub struct Cursor<'t> {
    bytes: &'t [u8],
    place: Place,
    ghost well: { WellFormed bytes.now },
    ghost short: { length bytes.now ≤ limit },
    ghost boundary: { IsCharBoundary bytes.now place.at },
}

// The clauses named `text` are the equation itself, since a definition of it would be no shorter.
impl<'t> Cursor<'t> {
    // The start of a text.
    pub fn new(text: Text<'t>) -> Cursor<'t>
        ensures { (result.bytes.now ≡ text.entry.bytes.now) × (result.place.at ≡ 0) }
    {
        Cursor {
            bytes: text.bytes,
            place: Place { at: 0 },
        }
    }

    // The text that the cursor reads.
    pub fn text(&self) -> Text<'t>
        ensures { result.bytes.now ≡ self.now.bytes.now }
    {
        Text { bytes: self.bytes }
    }

    pub fn bytes(&self) -> &'t [u8]
        ensures { result.now ≡ self.now.bytes.now }
    {
        self.bytes
    }

    pub fn place(&self) -> usize
        ensures { result ≡ self.now.place.at }
    {
        self.place.at
    }

    // The byte at the place, or none at the end.
    pub fn peek(&self) -> Option<u8>
        ensures { MatchOption result (self.now.place.at ≡ length self.now.bytes.now) (λ b. (self.now.place.at < length self.now.bytes.now) × (b ≡ slice_index self.now.bytes.now self.now.place.at)) }
    {
        self.rest().first().copied()
    }

    // The bytes from the place on.
    pub fn rest(&self) -> &'t [u8]
        ensures { result.now ≡ drop self.now.place.at self.now.bytes.now }
    {
        &self.bytes[self.place.at..]
    }

    // The character at the place and the place behind it, or none at the end.
    pub fn peek_char(&self) -> Option<(char, usize)>
        ensures { CharAt self.now.bytes.now self.now.place.at result }
    {
        let rest = unsafe { std::str::from_utf8_unchecked(self.rest()) };
        let c = rest.chars().next()?;
        Some((c, self.place.at + c.len_utf8()))
    }

    // Takes the character at the place: its number and the place behind it, where the cursor then stands. No `Iterator`, since
    // a cursor is copied, and a `for` would go on in a copy.
    pub fn next(&mut self) -> Option<(u32, usize)>
        ensures text { self.new.bytes.now ≡ self.old.bytes.now }
        ensures char { CharAt self.old.bytes.now self.old.place.at result }
        ensures place { MatchOption result (self.new.place.at ≡ self.old.place.at) (λ p. self.new.place.at ≡ p.1) }
    {
        let (c, behind) = self.peek_char()?;
        self.place = Place { at: behind };
        Some((c as u32, behind))
    }

    // Moves to a place, and stays put where that is past the end or inside a character.
    pub fn move_to(&mut self, at: usize)
        ensures text { self.new.bytes.now ≡ self.old.bytes.now }
        ensures moves { IsCharBoundary self.old.bytes.now at → self.new.place.at ≡ at }
        ensures stays { (IsCharBoundary self.old.bytes.now at → ⊥) → self.new.place.at ≡ self.old.place.at }
    {
        if self.text().as_str().is_char_boundary(at) {
            self.place = Place { at };
        }
    }

    // The cursor at another place, and the same cursor where that is past the end or inside a character.
    pub fn moved(self, at: usize) -> Cursor<'t>
        ensures text { result.bytes.now ≡ self.entry.bytes.now }
        ensures moves { IsCharBoundary self.entry.bytes.now at → result.place.at ≡ at }
        ensures stays { (IsCharBoundary self.entry.bytes.now at → ⊥) → result.place.at ≡ self.entry.place.at }
    {
        let mut there = self;
        there.move_to(at);
        there
    }

    // Takes a CR LF, if one stands at the place.
    pub fn take_crlf(&mut self) -> bool
        ensures text { self.new.bytes.now ≡ self.old.bytes.now }
        ensures cases { MatchBool result (Begins 13 10 (drop self.old.place.at self.old.bytes.now) × (self.new.place.at ≡ self.old.place.at + 2)) ((Begins 13 10 (drop self.old.place.at self.old.bytes.now) → ⊥) × (self.new.place.at ≡ self.old.place.at)) }
    {
        match behind::<b'\r', b'\n'>(self.bytes, self.place.at) {
            Some(behind) => {
                self.place = Place { at: behind };
                true
            }
            None => false,
        }
    }
}
