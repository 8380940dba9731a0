ghost use Rattle.std.specs.Prelude.{◌≡◌};
ghost use Rattle.refusals.specs.Numbers.{numbered};
ghost use Rattle.store.specs.Held.{kept, keep_told};

use super::ValueStore;
use refusals::Refusal;

// Stores a whole value and answers its number. What was open is dropped, unless there is no place for one more value;
// where the value does not fit, nothing of it stays.
pub fn keep<S: ValueStore>(store: &mut S, units: &[u16]) -> Result<usize, Refusal>
    ensures answer { numbered result ≡ keep_told S.ValueStore.weight (S.ValueStore.held store.old) units.now }
    ensures after { S.ValueStore.held store.new ≡ kept S.ValueStore.weight (S.ValueStore.held store.old) units.now }
{
    if store.count() >= store.places() {
        return Err(Refusal::NoPlace);
    }
    store.drop_open();
    for unit in units {
        // no `?`, which would leave the units put so far in the open value
        if let Err(refusal) = store.put(*unit) {
            store.drop_open();
            return Err(refusal);
        }
    }
    store.close()
}
