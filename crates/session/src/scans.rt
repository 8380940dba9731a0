// The scans: a look, then tests, and only then anything is put, entered or recorded.
ghost use Rattle.std.specs.Prelude.{◌≡◌, ◌+◌, ◌-◌, ◌<◌, ◌≤◌, true, false, ◌&&◌, length, is_some, if◌then◌else◌};
ghost use Rattle.grammar.specs.Reading.{Read};
ghost use Rattle.grammar.specs.Outcome.{units_read, faults_read};
ghost use Rattle.tokens.specs.Grammar.{recorded};
ghost use Rattle.slots.specs.Entries.{lookup};
ghost use Rattle.slots.specs.Views.{entries_of};
ghost use Rattle.faults.specs.Records.{faults_of, room_of};
ghost use Rattle.refusals.specs.Numbers.{numbered};
ghost use Rattle.store.specs.Held.{fits, with_unit, has_place, closed, dropped};
ghost use Rattle.ledger.specs.Calls as ask;
ghost use Rattle.ledger.specs.Ledger.{of_string};
ghost use Rattle.session.specs.Replies.{token_reply};
ghost use Rattle.session.specs.Calls.{Plays};
ghost use Rattle.session.specs.Literals.{sort_by, IsRead};
ghost use Rattle.session.specs.Scans.{bytes_of, Stores, Recorded, Files, Needed, needs, Keeps};

use super::Session;
use super::entry::Entry;
use super::seen::Seen;
use faults::FaultList;
use look::answer::Scan;
use look::literal::Literal;
use refusals::Refusal;
use slots::SlotMap;
use source::text::Text;
use store::ValueStore;
use tokens::Token;

impl<'a> Session<'a> {
    // Scans a string from its quote on.
    pub fn scan_string<S: ValueStore>(
        &mut self,
        store: &mut S,
        text: Text<'_>,
        start: usize,
    ) -> Result<Token, Refusal>
        ensures { Plays S.ValueStore.weight (bytes_of text.entry) (ask.scan ask.string start) self.old (S.ValueStore.held store.old) (token_reply result) self.new (S.ValueStore.held store.new) }
    {
        self.scan(store, text, start, Scan::Str)
    }

    // Scans a template from its backtick on.
    pub fn scan_template<S: ValueStore>(
        &mut self,
        store: &mut S,
        text: Text<'_>,
        start: usize,
    ) -> Result<Token, Refusal>
        ensures { Plays S.ValueStore.weight (bytes_of text.entry) (ask.scan ask.template start) self.old (S.ValueStore.held store.old) (token_reply result) self.new (S.ValueStore.held store.new) }
    {
        self.scan(store, text, start, Scan::Template)
    }

    // Scans a template on from the brace behind a substitution.
    pub fn resume<S: ValueStore>(
        &mut self,
        store: &mut S,
        text: Text<'_>,
        start: usize,
    ) -> Result<Token, Refusal>
        ensures { Plays S.ValueStore.weight (bytes_of text.entry) (ask.scan ask.resumption start) self.old (S.ValueStore.held store.old) (token_reply result) self.new (S.ValueStore.held store.new) }
    {
        self.scan(store, text, start, Scan::Resumption)
    }

    // Scans from a start.
    pub fn scan<S: ValueStore>(
        &mut self,
        store: &mut S,
        text: Text<'_>,
        start: usize,
        scan: Scan,
    ) -> Result<Token, Refusal>
        ensures { Plays S.ValueStore.weight (bytes_of text.entry) (ask.scan (sort_by scan) start) self.old (S.ValueStore.held store.old) (token_reply result) self.new (S.ValueStore.held store.new) }
    {
        let seen = Seen::find(text, start, scan)?;
        if seen.look.faults > free_records(&self.faults) {
            return Err(Refusal::NoRecord);
        }
        self.keep(store, seen)?;
        record(&mut self.faults, seen.literal);
        Ok(seen.look.token)
    }

    // Files a literal's value in the table of its sort, or that none is cooked, if it is escaped and its start has no entry there.
    fn keep<S: ValueStore>(&mut self, store: &mut S, seen: Seen<'_>) -> Result<(), Refusal>
        ensures { (read : Read) → IsRead seen.entry.literal read → Keeps (of_string (sort_by seen.entry.scan)) S.ValueStore.weight self.old (S.ValueStore.held store.old) seen.entry.look.token (units_read read) result self.new (S.ValueStore.held store.new) }
    {
        match seen.scan {
            Scan::Str => keep(&mut self.strings, store, seen),
            Scan::Template | Scan::Resumption => keep(&mut self.templates, store, seen),
        }
    }
}

// Files a literal's value in a table, or that none is cooked, if it is escaped and its start has no entry.
fn keep<S: ValueStore, V: Entry>(
    entries: &mut SlotMap<'_, V>,
    store: &mut S,
    seen: Seen<'_>,
) -> Result<(), Refusal>
    requires { V.always ≡ true → is_some seen.look.units ≡ true }
    ensures { (read : Read) → IsRead seen.entry.literal read → Needed (needs seen.entry.look.token entries.old) V.holds S.ValueStore.weight entries.old (S.ValueStore.held store.old) seen.entry.look.token.start (units_read read) result entries.new (S.ValueStore.held store.new) }
{
    let token = seen.look.token;
    if !token.escaped || entries.find(token.start).is_some() {
        return Ok(());
    }
    file(entries, store, seen)
}

// Stores a literal's units, if a value is cooked, and enters the value's number or none, if there are a slot, a place and capacity.
fn file<S: ValueStore, V: Entry>(
    entries: &mut SlotMap<'_, V>,
    store: &mut S,
    seen: Seen<'_>,
) -> Result<(), Refusal>
    requires { V.always ≡ true → is_some seen.look.units ≡ true }
    ensures { (read : Read) → IsRead seen.entry.literal read → is_some (lookup (entries_of entries.old) seen.entry.look.token.start) ≡ false → Files V.holds S.ValueStore.weight entries.old (S.ValueStore.held store.old) seen.entry.look.token.start (units_read read) result entries.new (S.ValueStore.held store.new) }
{
    if entries.count() >= entries.room() {
        return Err(Refusal::NoSlot);
    }
    let start = seen.look.token.start;
    if seen.look.units.is_none() {
        return entries.insert(start, V::of(None));
    }
    let number = put_units(store, seen.literal)?;
    entries.insert(start, V::of(Some(number)))
}

// How many records are free.
fn free_records(faults: &FaultList<'_>) -> usize
    ensures { result ≡ room_of faults.now - length (faults_of faults.now) }
{
    faults.room().saturating_sub(faults.count())
}

// Puts a literal's units into the store's open value and finishes it. What a stranger left open is dropped first, unless there is no place for one more value;
// where the units do not fit, none of them stays.
fn put_units<S: ValueStore>(store: &mut S, literal: Literal<'_>) -> Result<usize, Refusal>
    ensures { Stores S.ValueStore.weight literal.entry (S.ValueStore.held store.old) result (S.ValueStore.held store.new) }
{
    if store.count() >= store.places() {
        return Err(Refusal::NoPlace);
    }
    store.drop_open();
    let mut fits = true;
    // to the last, since what does not fit is told by the weight of all
    for unit in literal.units() {
        fits = put_on(store, unit, fits);
    }
    finish(store, fits)
}

// One unit more, as long as all before it fitted.
fn put_on<S: ValueStore>(store: &mut S, unit: u16, fitted: bool) -> bool
    ensures answer { result ≡ fitted && fits S.ValueStore.weight (S.ValueStore.held store.old) unit }
    ensures after { S.ValueStore.held store.new ≡ (if fitted && fits S.ValueStore.weight (S.ValueStore.held store.old) unit then with_unit (S.ValueStore.held store.old) unit else S.ValueStore.held store.old) }
    ensures narrow { unit < 65536 }
{
    fitted && store.put(unit).is_ok()
}

// Finishes the open value, or drops it where not all of it fitted.
fn finish<S: ValueStore>(store: &mut S, fitted: bool) -> Result<usize, Refusal>
    ensures closes { fitted ≡ true → (numbered result ≡ (if has_place (S.ValueStore.held store.old) then Ok (length (S.ValueStore.held store.old).values) else Err 11)) × (S.ValueStore.held store.new ≡ (if has_place (S.ValueStore.held store.old) then closed (S.ValueStore.held store.old) else S.ValueStore.held store.old)) }
    ensures drops { fitted ≡ false → (numbered result ≡ Err 12) × (S.ValueStore.held store.new ≡ dropped (S.ValueStore.held store.old)) }
{
    if !fitted {
        store.drop_open();
        return Err(Refusal::NoCapacity);
    }
    store.close()
}

// Records a literal's faults, as far as there are records.
fn record(faults: &mut FaultList<'_>, literal: Literal<'_>)
    ensures { (read : Read) → IsRead literal.entry read → length (faults_of faults.old) + length (recorded (faults_read read)) ≤ room_of faults.old → Recorded faults.old (recorded (faults_read read)) faults.new }
{
    for fault in literal.faults() {
        let _ = faults.append(fault);
    }
}
