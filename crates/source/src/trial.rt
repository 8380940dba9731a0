// A place, and a trial that puts it back unless it is confirmed.
ghost use Rattle.std.specs.Prelude.{◌≡◌, ◌+◌, drop, MatchBool};
ghost use Rattle.source.specs.Fronts.{Begins};

use crate::fronts::behind;

// A place in some bytes, counted from 0.
#[derive(Clone, Copy)]
pub struct Place {
    pub at: usize,
}

pub struct Trial<'t, 'p> {
    bytes: &'t [u8],
    place: &'p mut Place,
    saved: usize,
}

impl Drop for Trial<'_, '_> {
    fn drop(self)
        ensures { self.exit.1.0.now.at ≡ self.entry.saved }
    {
        *self.place = Place { at: self.saved };
        let Trial {
            bytes: _,
            place: _,
            saved: _,
        } = self;
    }
}

impl<'t, 'p> Trial<'t, 'p> {
    // Begins a trial at the place.
    pub fn begin(bytes: &'t [u8], place: &'p mut Place) -> Trial<'t, 'p>
        ensures start { (result.saved ≡ place.old.at) × (result.place.now ≡ place.old) × (result.bytes.now ≡ bytes.now) }
        ensures named { result.place.ghost_name ≡ place.entry.ghost_name }
    {
        let saved = place.at;
        Trial {
            bytes,
            place,
            saved,
        }
    }

    pub fn at(&self) -> usize
        ensures { result ≡ self.now.place.now.at }
    {
        self.place.at
    }

    // Moves the place, which the trial still puts back.
    pub fn move_to(&mut self, at: usize)
        ensures named { self.new.place.ghost_name ≡ self.old.place.ghost_name }
        ensures same { (self.new.saved ≡ self.old.saved) × (self.new.bytes.now ≡ self.old.bytes.now) }
        ensures moved { self.new.place.now.at ≡ at }
    {
        *self.place = Place { at };
    }

    // Takes a backslash and a `u`, both or none. No twin of `Cursor::take_crlf`: a cursor stands between characters, a trial's place anywhere.
    pub fn take_unicode_prefix(&mut self) -> bool
        ensures named { self.new.place.ghost_name ≡ self.old.place.ghost_name }
        ensures same { (self.new.saved ≡ self.old.saved) × (self.new.bytes.now ≡ self.old.bytes.now) }
        ensures cases { MatchBool result (Begins 92 117 (drop self.old.place.now.at self.old.bytes.now) × (self.new.place.now.at ≡ self.old.place.now.at + 2)) ((Begins 92 117 (drop self.old.place.now.at self.old.bytes.now) → ⊥) × (self.new.place.now.at ≡ self.old.place.now.at)) }
    {
        match behind::<b'\\', b'u'>(self.bytes, self.place.at) {
            Some(behind) => {
                *self.place = Place { at: behind };
                true
            }
            None => false,
        }
    }

    // Ends the trial where it stands.
    pub fn confirm(self)
        ensures { self.exit.1.0.now.at ≡ self.entry.place.now.at }
    {
        // the place is left as it is
        let Trial {
            bytes: _,
            place: _,
            saved: _,
        } = self;
    }
}
