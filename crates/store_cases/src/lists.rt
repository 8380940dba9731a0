use super::answer::{Answer, Both, Told};
use super::call::{Call, write_answers};
use faults::{Fault, FaultKind, FaultList};
use refusals::Refusal;
use slots::{Slot, SlotMap};
use std::alloc::Global;

// What a map of any kind of entry answers.
fn act<V: Copy + Drop + Into<Answer>>(
    map: &mut SlotMap<V>,
    call: Call<'_>,
    value: V,
) -> Result<Answer, Refusal> {
    // by word, as the data file names a call
    Ok(match call.name {
        "find" => map.find(call.a).map_or(Answer::Unknown, |held| held.into()),
        "insert" => map.insert(call.a, value)?.into(),
        "fill" => (0..call.a)
            .map(|start| map.insert(start, value))
            .filter(Result::is_ok)
            .count()
            .into(),
        "clear" => {
            map.clear();
            Answer::Done
        }
        _ => Answer::Two(map.count(), map.room()),
    })
}

// A script on two maps of `room` slots: one of numbers, and one of optional numbers, in which an odd number stands for
// none.
pub fn replay_maps(
    heap: Global,
    text: &mut String,
    room: usize,
    calls: &str,
) -> anyhow::Result<()> {
    let mut numbers = vec![in heap; Slot::new(0usize); room]?;
    let mut options = vec![in heap; Slot::new(Some(0usize)); room]?;
    let mut numbers = SlotMap::new(numbers.as_mut_slice());
    let mut options = SlotMap::new(options.as_mut_slice());
    write_answers(text, calls, |call| {
        let optional = Some(call.b).filter(|number| *number % 2 == 0);
        Both(
            act(&mut numbers, call, call.b),
            act(&mut options, call, optional),
        )
    })
}

fn act_faults(list: &mut FaultList, call: Call<'_>) -> Result<Answer, Refusal> {
    // by number, since fault kinds have numbers by a rule of the project
    let kind = if call.a == 1 {
        FaultKind::Unterminated
    } else {
        FaultKind::InvalidEscape
    };
    let fault = |to| Fault { kind, from: 0, to };
    // by word, as the data file names a call
    Ok(match call.name {
        "append" => list.append(fault(call.b))?.into(),
        "fill" => (0..call.b)
            .map(|to| list.append(fault(to)))
            .filter(Result::is_ok)
            .count()
            .into(),
        "at" => list.at(call.a)?.into(),
        "clear" => {
            list.clear();
            Answer::Done
        }
        _ => Answer::Two(list.count(), list.room()),
    })
}

// A script on a list of `room` records.
pub fn replay_faults(
    heap: Global,
    text: &mut String,
    room: usize,
    calls: &str,
) -> anyhow::Result<()> {
    let mut records = vec![in heap; Fault::default(); room]?;
    let mut list = FaultList::new(records.as_mut_slice());
    write_answers(text, calls, |call| Told(act_faults(&mut list, call)))
}
