ghost use Rattle.std.specs.Prelude.{◌≡◌, ◌<◌, ◌≤◌, [], length, if◌then◌else◌, Ok, Err, MatchResult, slice_index_or, slice_set};
ghost use Rattle.refusals.specs.Numbers.{numbered};
ghost use Rattle.refusals.specs.declared.Refusal.TheVariants.{IndexPastEnd};
ghost use Rattle.store.specs.Held.{fits, with_unit, has_place, closed, dropped, unit_told};
ghost use Rattle.store.specs.Leaves.{PutLeaves, CloseLeaves, LeavesAll};
ghost use Rattle.cuts.specs.Lists.{SameLent};
ghost use Rattle.units.specs.Views.{cells, ends, count, used, finished, meaning};
ghost use Rattle.units.specs.Law.{units_lawful};

use super::Units;
use refusals::Refusal;
use store::ValueStore;

impl<'a> ValueStore for Units<'a> {
    ghost weight = { length };

    ghost held = { meaning };

    ghost lawful = { units_lawful };

    fn put(&mut self, unit: u16) -> Result<(), Refusal>
        ensures answer { numbered result ≡ (if fits length (meaning self.old) unit then Ok tt else Err 12) }
        ensures after { meaning self.new ≡ (if fits length (meaning self.old) unit then with_unit (meaning self.old) unit else meaning self.old) }
        ensures cells { cells self.new ≡ (if fits length (meaning self.old) unit then slice_set (cells self.old) (used self.old) unit else cells self.old) }
        ensures leaves { PutLeaves (fits length (meaning self.old) unit) (finished self.old) (cells self.old) (cells self.new) (ends self.old) (ends self.new) }
        ensures lent { SameLent self.old.cuts self.new.cuts }
    {
        self.cuts.push(unit)
    }

    fn close(&mut self) -> Result<usize, Refusal>
        ensures answer { numbered result ≡ (if has_place (meaning self.old) then Ok (length (meaning self.old).values) else Err 11) }
        ensures after { meaning self.new ≡ (if has_place (meaning self.old) then closed (meaning self.old) else meaning self.old) }
        ensures ends { ends self.new ≡ (if has_place (meaning self.old) then slice_set (ends self.old) (count self.old) (used self.old) else ends self.old) }
        ensures leaves { CloseLeaves (has_place (meaning self.old)) (length (meaning self.old).values) (cells self.old) (cells self.new) (ends self.old) (ends self.new) }
        ensures lent { SameLent self.old.cuts self.new.cuts }
    {
        self.cuts.close()
    }

    fn drop_open(&mut self)
        ensures after { meaning self.new ≡ dropped (meaning self.old) }
        ensures leaves { LeavesAll (cells self.old) (cells self.new) (ends self.old) (ends self.new) }
        ensures lent { SameLent self.old.cuts self.new.cuts }
    {
        self.cuts.drop_open();
    }

    fn count(&self) -> usize {
        self.cuts.count()
    }

    fn places(&self) -> usize {
        self.cuts.places()
    }

    fn capacity(&self) -> usize {
        self.cuts.capacity()
    }

    fn value_len(&self, n: usize) -> Result<usize, Refusal> {
        let units = self.units_of(n)?;
        Ok(units.len())
    }

    fn value_unit(&self, n: usize, i: usize) -> Result<u16, Refusal> {
        let units = self.units_of(n)?;
        unit_in(units, i)
    }

    fn open_len(&self) -> usize {
        self.open_units().len()
    }

    fn open_unit(&self, i: usize) -> Result<u16, Refusal> {
        unit_in(self.open_units(), i)
    }

    fn read_value(&self, n: usize, out: &mut [u16]) -> Result<usize, Refusal> {
        let units = self.units_of(n)?;
        let many = units.len();
        if many > out.len() {
            return Err(Refusal::IndexPastEnd);
        }
        out[..many].copy_from_slice(units);
        Ok(many)
    }
}

impl<'a> Units<'a> {
    // The units of finished value `n`.
    pub fn units_of(&self, n: usize) -> Result<&[u16], Refusal>
        ensures { MatchResult result (λ units. (n < length (meaning self.now).values) × (units.now ≡ slice_index_or (meaning self.now).values n [])) (λ e. (length (meaning self.now).values ≤ n) × (e ≡ IndexPastEnd)) }
    {
        self.cuts.part(n)
    }

    // The units of the open value.
    pub fn open_units(&self) -> &[u16]
        ensures { result.now ≡ (meaning self.now).draft }
    {
        self.cuts.open()
    }
}

// Unit `i` of some units.
fn unit_in(units: &[u16], i: usize) -> Result<u16, Refusal>
    ensures { numbered result ≡ unit_told units.now i }
{
    units.get(i).copied().ok_or(Refusal::IndexPastEnd)
}
