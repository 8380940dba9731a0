// A session's whole life.
ghost use Rattle.std.specs.Prelude.{◌≡◌, length, drop};
ghost use Rattle.session.specs.Views.{lent, memory_of, unused};
ghost use Rattle.session.specs.Calls.{Lives};
ghost use Rattle.session.specs.Performs.{transcript};
ghost use Rattle.session.specs.Scans.{bytes_of};

use super::{Answer, Call, Session};
use faults::Fault;
use refusals::Refusal;
use slots::Slot;
use source::text::Text;
use store::ValueStore;

// Makes one session on a text and performs every call in its turn, as far as there is room for the answers. Answers past the last call stay as they were.
pub fn serve<'a, S: ValueStore>(
    store: &mut S,
    text: Text<'_>,
    strings: &'a mut [Slot<usize>],
    templates: &'a mut [Slot<Option<usize>>],
    records: &'a mut [Fault],
    calls: &[Call],
    answers: &mut [Result<Answer, Refusal>],
) -> Session<'a>
    ensures lives { Lives S.ValueStore.weight (lent (length strings.old) (length templates.old) (length records.old) (S.ValueStore.held store.old)) (bytes_of text.entry) (S.ValueStore.held store.old).values (transcript calls.now answers.new) result (S.ValueStore.held store.new) }
    ensures unused { unused (memory_of result) ≡ unused (record { strings = strings.old; templates = templates.old; records = records.old }) }
    ensures past { drop (length calls.now) answers.new ≡ drop (length calls.now) answers.old }
{
    let mut session = Session::new(store, strings, templates, records);
    let many = calls.len().min(answers.len());
    // the answers by index, since a proof loses what a zip over iter_mut writes
    for (i, call) in calls[..many].iter().enumerate() {
        answers[i] = session.perform(store, text, *call);
    }
    session
}
