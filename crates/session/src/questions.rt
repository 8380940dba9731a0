// The questions: they alter nothing.
ghost use Rattle.std.specs.Prelude.{◌≡◌, ℕ, [], length};
ghost use Rattle.slots.specs.Entries.{lookup};
ghost use Rattle.slots.specs.Views.{entries_of};
ghost use Rattle.ledger.specs.Calls as ask;
ghost use Rattle.ledger.specs.Ledger.{number_by};
ghost use Rattle.session.specs.Replies.{value_reply, unit_reply, fault_reply, value_of};
ghost use Rattle.session.specs.Calls.{Asks};

use super::Session;
use faults::Fault;
use refusals::Refusal;
use store::ValueStore;

impl<'a> Session<'a> {
    // The length of the value at a start, or that none is cooked.
    #[tactic(auto, using(crate::proofs::Asked::an_entry))]
    pub fn value<S: ValueStore>(&self, store: &S, start: usize) -> Result<Option<usize>, Refusal>
        ensures { Asks S.ValueStore.weight (ask.value start) self.now (S.ValueStore.held store.now) (value_reply result) }
    {
        let number = self.entry(start).ok_or(Refusal::NoEntry)?;
        Ok(value_of(store, number))
    }

    // One unit of the value at a start.
    #[tactic(auto, using(crate::proofs::Asked::a_unit))]
    pub fn unit<S: ValueStore>(&self, store: &S, start: usize, index: usize) -> Result<u16, Refusal>
        ensures { Asks S.ValueStore.weight (ask.unit start index) self.now (S.ValueStore.held store.now) (unit_reply result) }
    {
        let number = self.entry(start).ok_or(Refusal::NoEntry)?;
        let n = number.ok_or(Refusal::IndexPastEnd)?;
        store.value_unit(n, index)
    }

    // How many faults are recorded.
    #[tactic(auto, using(crate::proofs::Asked::counted_faults))]
    pub fn fault_count<S: ValueStore>(&self, store: &S) -> usize
        ensures { Asks S.ValueStore.weight ask.fault_count self.now (S.ValueStore.held store.now) (ask.counted result) }
    {
        self.faults.count()
    }

    // The fault record at an index.
    #[tactic(auto, using(crate::proofs::Asked::a_fault))]
    pub fn fault_at<S: ValueStore>(&self, store: &S, index: usize) -> Result<Fault, Refusal>
        ensures { Asks S.ValueStore.weight (ask.fault_at index) self.now (S.ValueStore.held store.now) (fault_reply result) }
    {
        self.faults.at(index)
    }

    // The entry at a start, in either table: a value's number, or none.
    fn entry(&self, start: usize) -> Option<Option<usize>>
        ensures { result ≡ number_by (lookup (entries_of self.now.strings) start) (lookup (entries_of self.now.templates) start) }
    {
        match self.strings.find(start) {
            Some(number) => Some(Some(number)),
            None => self.templates.find(start),
        }
    }
}

// The length of the value of a number, or none. A number that the store does not have counts as an empty value.
fn value_of<S: ValueStore>(store: &S, number: Option<usize>) -> Option<usize>
    ensures { result ≡ value_of (S.ValueStore.held store.now).values number }
{
    let n = number?;
    Some(store.value_len(n).unwrap_or(0))
}
