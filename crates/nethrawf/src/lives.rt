// A life: one session, and every request in its turn.
ghost use Rattle.std.specs.Prelude.{◌≡◌, []};
ghost use Rattle.store.specs.Held.{Held};
ghost use Rattle.session.specs.Performs.{reply};
ghost use Rattle.session.specs.Scans.{bytes_of};
ghost use Rattle.nethrawf.specs.Lives.{Performed, Served};
ghost use Rattle.nethrawf.specs.Exports.{Serves, status_of, limits};

use super::failure::status;
use super::forms::{Request, Response, Room};
use faults::Fault;
use refusals::Refusal;
use refusals::failure::Failure;
use session::{Answer, Call, Session};
use slots::Slot;
use source::text::Text;
use std::alloc::Global;
use store::ValueStore;

// Makes one session over a store and performs every request in its turn, if the bytes are a text.
pub fn serve<S: ValueStore>(
    heap: Global,
    bytes: &[u8],
    room: Room,
    store: &mut S,
    requests: &[Request],
    responses: &mut [Response],
) -> u32
    ensures { (S.ValueStore.held store.old).values ≡ [] → Serves S.ValueStore.weight (limits room (S.ValueStore.held store.old).places (S.ValueStore.held store.old).capacity) bytes.now requests.now responses.old result responses.new }
{
    status(live(heap, bytes, room, store, requests, responses))
}

fn live<S: ValueStore>(
    heap: Global,
    bytes: &[u8],
    room: Room,
    store: &mut S,
    requests: &[Request],
    responses: &mut [Response],
) -> Result<(), Failure>
    ensures { (S.ValueStore.held store.old).values ≡ [] → Serves S.ValueStore.weight (limits room (S.ValueStore.held store.old).places (S.ValueStore.held store.old).capacity) bytes.now requests.now responses.old (status_of result) responses.new }
{
    let text = Text::try_from(bytes)?;
    let mut strings = vec![in heap; Slot::new(0usize); room.strings]?;
    let mut templates = vec![in heap; Slot::new(Some(0usize)); room.templates]?;
    let mut records = vec![in heap; Fault::default(); room.records]?;
    let mut session = Session::new(
        store,
        strings.as_mut_slice(),
        templates.as_mut_slice(),
        records.as_mut_slice(),
    );
    respond_all(&mut session, store, text, requests, responses);
    Ok(())
}

// One loop with a session's `serve`, yet not one function: what goes in and what comes out are other types, and the law
// is told of other lists, so a function over both would be no plainer.
fn respond_all<S: ValueStore>(
    session: &mut Session<'_>,
    store: &mut S,
    text: Text<'_>,
    requests: &[Request],
    responses: &mut [Response],
)
    ensures { Served S.ValueStore.weight (bytes_of text.entry) session.old (S.ValueStore.held store.old) requests.now responses.old responses.new session.new (S.ValueStore.held store.new) }
{
    let many = requests.len().min(responses.len());
    // the responses by index, since a proof loses what a zip over iter_mut writes
    for (i, request) in requests[..many].iter().enumerate() {
        responses[i] = perform(session, store, text, *request).into();
    }
}

// Performs the call that a request asks for.
fn perform<S: ValueStore>(
    session: &mut Session<'_>,
    store: &mut S,
    text: Text<'_>,
    request: Request,
) -> Result<Answer, Refusal>
    ensures { Performed S.ValueStore.weight (bytes_of text.entry) session.old (S.ValueStore.held store.old) request (reply result) session.new (S.ValueStore.held store.new) }
{
    let call = Call::try_from(request)?;
    session.perform(store, text, call)
}
