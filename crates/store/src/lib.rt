// Value stores: what every store means and promises, whatever its memory looks like.
#![tactic(auto)]

ghost use Rattle.std.specs.Prelude.{◌≡◌, ℕ, List, [], length, if◌then◌else◌, Ok, Err, slice_index_or};
ghost use Rattle.refusals.specs.Numbers.{numbered};
ghost use Rattle.store.specs.Held.{Held, Lawful, fits, with_unit, has_place, closed, dropped, unit_told, value_length_told, value_unit_told, fills, overlaid};

use refusals::Refusal;

mod whole;

pub use whole::keep;

// A list of finished values and an open one, each a list of 16-bit units.
pub trait ValueStore {
    // what a list of units weighs
    ghost weight: { List ℕ → ℕ };

    ghost held: { Self → Held };

    ghost lawful: { Lawful weight held };

    // One unit more in the open value.
    fn put(&mut self, unit: u16) -> Result<(), Refusal>
        ensures answer { numbered result ≡ (if fits weight (held self.old) unit then Ok tt else Err 12) }
        ensures after { held self.new ≡ (if fits weight (held self.old) unit then with_unit (held self.old) unit else held self.old) };

    // Finishes the open value, leaves an empty one open, and answers its number.
    fn close(&mut self) -> Result<usize, Refusal>
        ensures answer { numbered result ≡ (if has_place (held self.old) then Ok (length (held self.old).values) else Err 11) }
        ensures after { held self.new ≡ (if has_place (held self.old) then closed (held self.old) else held self.old) };

    // Empties the open value.
    fn drop_open(&mut self)
        ensures { held self.new ≡ dropped (held self.old) };

    // How many values are finished.
    fn count(&self) -> usize
        ensures { result ≡ length (held self.now).values };

    // How many values may be finished.
    fn places(&self) -> usize
        ensures { result ≡ (held self.now).places };

    // What all values may weigh.
    fn capacity(&self) -> usize
        ensures { result ≡ (held self.now).capacity };

    // How many units finished value `n` has.
    fn value_len(&self, n: usize) -> Result<usize, Refusal>
        ensures { numbered result ≡ value_length_told (held self.now) n };

    // Unit `i` of finished value `n`.
    fn value_unit(&self, n: usize, i: usize) -> Result<u16, Refusal>
        ensures { numbered result ≡ value_unit_told (held self.now) n i };

    // How many units the open value has.
    fn open_len(&self) -> usize
        ensures { result ≡ length (held self.now).draft };

    // Unit `i` of the open value.
    fn open_unit(&self, i: usize) -> Result<u16, Refusal>
        ensures { numbered result ≡ unit_told (held self.now).draft i };

    // Writes the units of finished value `n` to the front of `out`, in time that grows with their number, and answers the number.
    fn read_value(&self, n: usize, out: &mut [u16]) -> Result<usize, Refusal>
        ensures answer { numbered result ≡ (if fills (held self.now) n (length out.old) then Ok (length (slice_index_or (held self.now).values n [])) else Err 5) }
        ensures after { out.new ≡ (if fills (held self.now) n (length out.old) then overlaid (slice_index_or (held self.now).values n []) out.old else out.old) };
}
