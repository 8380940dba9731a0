ghost use Rattle.std.specs.Prelude.{◌≡◌, ◌<◌, ◌≤◌, ◌-◌, [], length, if◌then◌else◌, Ok, Err, MatchResult, slice_index_or, slice_set};
ghost use Rattle.refusals.specs.Numbers.{numbered};
ghost use Rattle.refusals.specs.declared.Refusal.TheVariants.{IndexPastEnd};
ghost use Rattle.store.specs.Held.{fits, with_unit, has_place, closed, dropped};
ghost use Rattle.store.specs.Leaves.{PutLeaves, CloseLeaves, LeavesAll};
ghost use Rattle.coding.specs.Codes.{weight, wtf8};
ghost use Rattle.cuts.specs.Lists.{SameLent};
ghost use Rattle.wtf8.specs.Views.{cells, ends, count, used, laid_with, finished, opened, all_bytes, meaning, IsPlace};
ghost use Rattle.wtf8.specs.Law.{wtf8_lawful};

use super::Wtf8;
use coding::{completed, encoded, last_half, read_units, unit_at, unit_count};
use refusals::Refusal;
use std::ops::Range;
use store::ValueStore;

// Where a value's bytes stand in all stored bytes.
#[derive(Clone, Copy)]
pub struct Place {
    pub from: usize,
    pub len: usize,
}

impl From<Range<usize>> for Place {
    ghost from_gives = { λ range place. (place.from ≡ range.start) × (place.len ≡ range.end - range.start) };

    fn from(range: Range<usize>) -> Place {
        Place {
            from: range.start,
            len: range.len(),
        }
    }
}

impl<'a> ValueStore for Wtf8<'a> {
    ghost weight = { weight };

    ghost held = { meaning };

    ghost lawful = { wtf8_lawful };

    fn put(&mut self, unit: u16) -> Result<(), Refusal>
        ensures answer { numbered result ≡ (if fits weight (meaning self.old) unit then Ok tt else Err 12) }
        ensures after { meaning self.new ≡ (if fits weight (meaning self.old) unit then with_unit (meaning self.old) unit else meaning self.old) }
        ensures cells { cells self.new ≡ (if fits weight (meaning self.old) unit then laid_with self.old unit else cells self.old) }
        ensures leaves { PutLeaves (fits weight (meaning self.old) unit) (finished self.old) (cells self.old) (cells self.new) (ends self.old) (ends self.new) }
        ensures lent { SameLent self.old.cuts self.new.cuts }
    {
        let open = self.open_bytes();
        let (kept, code) = completed(last_half(open), open.len(), unit);
        let mut buffer = [0; 4];
        self.cuts.put_behind(kept, encoded(code, &mut buffer))
    }

    fn close(&mut self) -> Result<usize, Refusal>
        ensures answer { numbered result ≡ (if has_place (meaning self.old) then Ok (length (meaning self.old).values) else Err 11) }
        ensures after { meaning self.new ≡ (if has_place (meaning self.old) then closed (meaning self.old) else meaning self.old) }
        ensures ends { ends self.new ≡ (if has_place (meaning self.old) then slice_set (ends self.old) (count self.old) (used self.old) else ends self.old) }
        ensures leaves { CloseLeaves (has_place (meaning self.old)) (length (meaning self.old).values) (cells self.old) (cells self.new) (ends self.old) (ends self.new) }
        ensures lent { SameLent self.old.cuts self.new.cuts }
    {
        self.cuts.close()
    }

    fn drop_open(&mut self)
        ensures after { meaning self.new ≡ dropped (meaning self.old) }
        ensures leaves { LeavesAll (cells self.old) (cells self.new) (ends self.old) (ends self.new) }
        ensures lent { SameLent self.old.cuts self.new.cuts }
    {
        self.cuts.drop_open();
    }

    fn count(&self) -> usize {
        self.cuts.count()
    }

    fn places(&self) -> usize {
        self.cuts.places()
    }

    fn capacity(&self) -> usize {
        self.cuts.capacity()
    }

    #[tactic(auto, using(crate::proofs::Steps::value_units))]
    fn value_len(&self, n: usize) -> Result<usize, Refusal> {
        let bytes = self.bytes_of(n)?;
        Ok(unit_count(bytes))
    }

    fn value_unit(&self, n: usize, i: usize) -> Result<u16, Refusal> {
        let bytes = self.bytes_of(n)?;
        unit_at(bytes, i)
    }

    fn open_len(&self) -> usize {
        unit_count(self.open_bytes())
    }

    fn open_unit(&self, i: usize) -> Result<u16, Refusal> {
        unit_at(self.open_bytes(), i)
    }

    #[tactic(auto, using(crate::proofs::Steps::value_units))]
    fn read_value(&self, n: usize, out: &mut [u16]) -> Result<usize, Refusal> {
        let bytes = self.bytes_of(n)?;
        read_units(bytes, out)
    }
}

impl<'a> Wtf8<'a> {
    // The bytes of all values, one after another, the open one last.
    pub fn bytes(&self) -> &[u8]
        ensures { result.now ≡ all_bytes self.now }
    {
        self.cuts.all()
    }

    // Where the bytes of finished value `n` stand in all bytes.
    pub fn place_of(&self, n: usize) -> Result<Place, Refusal>
        ensures { MatchResult result (λ p. IsPlace self.now n p.from p.len) (λ e. (length (meaning self.now).values ≤ n) × (e ≡ IndexPastEnd)) }
    {
        self.cuts.place(n).map(Place::from)
    }

    // The bytes of finished value `n`.
    pub fn bytes_of(&self, n: usize) -> Result<&[u8], Refusal>
        ensures { MatchResult result (λ b. (n < length (meaning self.now).values) × (b.now ≡ wtf8 (slice_index_or (meaning self.now).values n []))) (λ e. (length (meaning self.now).values ≤ n) × (e ≡ IndexPastEnd)) }
    {
        self.cuts.part(n)
    }

    // The bytes of the open value.
    pub fn open_bytes(&self) -> &[u8]
        ensures { result.now ≡ opened self.now }
    {
        self.cuts.open()
    }
}
