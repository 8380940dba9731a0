// A literal session: scans and questions on one text, over lent slots, lent records and a value store, and the law of its whole life.
#![tactic(auto)]

ghost use Rattle.std.specs.Prelude.{◌≡◌, ℕ, List, [], length};
ghost use Rattle.store.specs.Held.{dropped};
ghost use Rattle.session.specs.Views.{lent, memory_of};
ghost use Rattle.session.specs.Calls.{Lives, GoesOn};

use faults::{Fault, FaultList};
use look::answer::Scan;
use slots::{Slot, SlotMap};
use store::ValueStore;
use tokens::Token;

mod entry;
mod life;
mod perform;
mod questions;
mod scans;
mod seen;

pub use life::serve;

// What a session holds: an entry for each escaped literal, by its start, and the faults. A string's entry is the number of its value; a template's may be none.
#[derive(Drop)]
pub struct Session<'a> {
    strings: SlotMap<'a, usize>,
    templates: SlotMap<'a, Option<usize>>,
    faults: FaultList<'a>,
}

// One of the calls. Store and text are handed to each beside it, by a rule of the project: a session owns neither.
#[derive(Clone, Copy)]
pub enum Call {
    Scan(Scan, usize),
    Value(usize),
    Unit(usize, usize),
    FaultCount,
    FaultAt(usize),
}

// What is answered to it, unless it is refused.
#[derive(Clone, Copy)]
pub enum Answer {
    Token(Token),
    // the length of the value, or that none is cooked
    Value(Option<usize>),
    Unit(u16),
    Count(usize),
    Fault(Fault),
}

impl<'a> Session<'a> {
    // The making: all slots free, no fault, and the store's open value dropped. No slot and no record is written.
    // The three pieces of memory are lent one by one, as C lends them.
    pub fn new<S: ValueStore>(
        store: &mut S,
        strings: &'a mut [Slot<usize>],
        templates: &'a mut [Slot<Option<usize>>],
        records: &'a mut [Fault],
    ) -> Session<'a>
        ensures store { S.ValueStore.held store.new ≡ dropped (S.ValueStore.held store.old) }
        ensures memory { memory_of result ≡ record { strings = strings.old; templates = templates.old; records = records.old } }
        ensures lives { (text : List ℕ) → Lives S.ValueStore.weight (lent (length strings.old) (length templates.old) (length records.old) (S.ValueStore.held store.old)) text (S.ValueStore.held store.old).values [] result (S.ValueStore.held store.new) }
    {
        store.drop_open();
        Session {
            strings: SlotMap::new(strings),
            templates: SlotMap::new(templates),
            faults: FaultList::new(records),
        }
    }
}

// Every call goes on with every life.
#[tactic(auto, using(crate::proofs::Goes::goes_on))]
pub fn calls_go_on()
    ensures { GoesOn }
{}
