// One command: a scan, or a value asked for unit by unit.
ghost use Rattle.std.specs.Prelude.{◌≡◌, ℕ, ◌<◌, true, List, [], ◌∷◌, length, Ok, Result, IfOk, IsOk};
ghost use Rattle.refusals.specs.declared.Refusal.{Refusal};
ghost use Rattle.store.specs.Held.{dropped};
ghost use Rattle.ledger.specs.Calls as ask;
ghost use Rattle.ledger.specs.Ledger.{kept_at, value_asked};
ghost use Rattle.session.specs.Views.{ledger_of};
ghost use Rattle.session.specs.Scans.{bytes_of};
ghost use Rattle.session.specs.Replies.{token_reply, unit_reply, fault_reply};
ghost use Rattle.session.specs.Calls.{Carries, Asks};
ghost use Rattle.reports.specs.Transcript.{told_of, exchanges, units_told, all_faults_told, EachAnswers};

use super::report::Told;
use commands::kinds::{Command, Word};
use faults::Fault;
use refusals::Refusal;
use session::Session;
use source::text::Text;
use std::alloc::{AllocError, Global};
use store::ValueStore;
use tokens::Token;

// Performs one command. The heap, the session, the store and the text are no struct here and below: a session is handed
// its store and text at each call by a rule of the project, and the heap goes to what allocates.
pub fn carry_out<S: ValueStore>(
    heap: Global,
    session: &mut Session<'_>,
    store: &mut S,
    text: Text<'_>,
    command: Command,
) -> Result<Result<Told, Refusal>, AllocError>
    ensures { IfOk result (λ told. Carries S.ValueStore.weight (bytes_of text.entry) session.old (S.ValueStore.held store.old) (told_of command told) session.new (S.ValueStore.held store.new)) }
{
    let start = command.start;
    match command.word {
        Word::Str => Ok(scan_told(session.scan_string(store, text, start))),
        Word::Template => Ok(scan_told(session.scan_template(store, text, start))),
        Word::Resume => Ok(scan_told(session.resume(store, text, start))),
        Word::Value => ask_value(heap, session, store, start),
    }
}

fn scan_told(answer: Result<Token, Refusal>) -> Result<Told, Refusal>
    ensures { (c : ask.Call) (s : ℕ) → exchanges c s result ≡ ask.says c (token_reply answer) ∷ [] }
{
    answer.map(Told::Token)
}

// Asks whether a value is cooked at a start, and then for each of its units.
fn ask_value<S: ValueStore>(
    heap: Global,
    session: &Session<'_>,
    store: &S,
    start: usize,
) -> Result<Result<Told, Refusal>, AllocError>
    ensures { IfOk result (λ told. (text : List ℕ) → Carries S.ValueStore.weight text session.now (S.ValueStore.held store.now) (exchanges (ask.value start) start told) session.now (S.ValueStore.held store.now)) }
{
    match session.value(store, start) {
        Ok(Some(length)) => {
            let units = ask_units(heap, session, store, start, length)?;
            Ok(Ok(Told::Value(Some(units))))
        }
        Ok(None) => Ok(Ok(Told::Value(None))),
        Err(refusal) => Ok(Err(refusal)),
    }
}

// Asks for all units of the value at a start.
fn ask_units<S: ValueStore>(
    heap: Global,
    session: &Session<'_>,
    store: &S,
    start: usize,
    many: usize,
) -> Result<Vec<u16>, AllocError>
    requires { ask.valued true many ≡ value_asked (kept_at (ledger_of session.now (dropped (S.ValueStore.held store.now))) start) }
    ensures { IfOk result (λ units. (length units.items ≡ many) × ((text : List ℕ) → Carries S.ValueStore.weight text session.now (S.ValueStore.held store.now) (units_told start units.items) session.now (S.ValueStore.held store.now))) }
{
    ask_all(
        heap,
        many,
        |index|
            ensures { Asks S.ValueStore.weight (ask.unit start index) session.entry.now (S.ValueStore.held store.entry.now) (unit_reply result) }
        { session.unit(store, start, index) },
    )
}

// Asks how many faults are recorded, and then for each of them.
pub fn ask_faults<S: ValueStore>(
    heap: Global,
    session: &Session<'_>,
    store: &S,
) -> Result<Vec<Fault>, AllocError>
    ensures { IfOk result (λ faults. (text : List ℕ) → Carries S.ValueStore.weight text session.now (S.ValueStore.held store.now) (all_faults_told faults.items) session.now (S.ValueStore.held store.now)) }
{
    let many = session.fault_count(store);
    ask_all(
        heap,
        many,
        |index|
            ensures { Asks S.ValueStore.weight (ask.fault_at index) session.entry.now (S.ValueStore.held store.entry.now) (fault_reply result) }
        { session.fault_at(store, index) },
    )
}

// Asks a question at each index below `many`, where each is answered.
fn ask_all<T: Drop, F: Fn(usize) -> Result<T, Refusal>>(
    heap: Global,
    many: usize,
    ask: F,
) -> Result<Vec<T>, AllocError>
    requires callable { F.IsAlwaysCallable ask }
    requires answered { (index : ℕ) (answer : Result T Refusal) → index < many → F.post ask index answer → IsOk answer }
    ensures { IfOk result (λ items. (length items.items ≡ many) × EachAnswers (λ index item. F.post ask index (Ok item)) 0 items.items) }
{
    let mut items = Vec::new(heap);
    for index in 0..many {
        let item = ask(index).unwrap();
        items.push(item)?;
    }
    Ok(items)
}
