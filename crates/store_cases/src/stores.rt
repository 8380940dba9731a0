ghost use Rattle.std.specs.Iterator.{IsFinite};

use super::answer::{Answer, Both};
use super::call::{Call, write_answers};
use refusals::Refusal;
use std::alloc::Global;
use std::fmt::Write;
use store::{ValueStore, keep};
use units::Units;
use wtf8::Wtf8;

// What any store answers to a call that alters it.
fn act<S: ValueStore>(store: &mut S, call: Call<'_>) -> Result<Answer, Refusal> {
    // a unit is the low 16 bits of a number; the library's conversions cut none off
    let first = (call.a & 0xFFFF) as u16;
    let second = (call.b & 0xFFFF) as u16;
    // by word, as the data file names a call
    Ok(match call.name {
        "put" => store.put(first)?.into(),
        "close" => store.close()?.into(),
        "keep" => keep(store, &[first, second])?.into(),
        "drop" => {
            store.drop_open();
            Answer::Done
        }
        _ => ask(store, call)?,
    })
}

// What any store answers to a question.
fn ask<S: ValueStore>(store: &S, call: Call<'_>) -> Result<Answer, Refusal> {
    // by word, as the data file names a call
    Ok(match call.name {
        "len" => store.value_len(call.a)?.into(),
        "unit" => store.value_unit(call.a, call.b)?.into(),
        "open" => store.open_unit(call.a)?.into(),
        "limits" => Answer::Two(store.places(), store.capacity()),
        _ => Answer::Unknown,
    })
}

// What a WTF-8 store answers: also where a value stands in all stored bytes.
fn act_wtf8(store: &mut Wtf8, call: Call<'_>) -> Result<Answer, Refusal> {
    // by word, as the data file names a call
    match call.name {
        "place" => store.place_of(call.a).map(Answer::from),
        _ => act(store, call),
    }
}

// The finished values, each read at once, then the open one, unit by unit.
fn write_values<S: ValueStore>(text: &mut String, store: &S) -> anyhow::Result<()> {
    // by number, since a store answers by number
    for n in 0..store.count() {
        let mut units = [0u16; 64];
        let many = store.read_value(n, &mut units).unwrap_or(0);
        write_units(text, units.iter().copied().take(many))?;
        text.push(',')?;
    }
    // by number too
    write_units(
        text,
        (0..store.open_len()).map(|i| store.open_unit(i).unwrap_or(0)),
    )?;
    text.push(';')?;
    Ok(())
}

fn write_units<I: Iterator<Item = u16> + Drop>(text: &mut String, units: I) -> anyhow::Result<()>
    requires can { I.can_next units }
    requires ends { IsFinite (I.remaining units) }
{
    for unit in units {
        write!(text, " {unit:04X}")?;
    }
    Ok(())
}

// All stored bytes of a WTF-8 store.
fn write_bytes(text: &mut String, store: &Wtf8) -> anyhow::Result<()> {
    for byte in store.bytes() {
        write!(text, "{byte:02X}")?;
    }
    Ok(())
}

// Whether two stores tell the same of value `n`.
fn same_value<A: ValueStore, B: ValueStore>(a: &A, b: &B, n: usize) -> bool {
    let many = a.value_len(n);
    // by number, since a store answers by number
    many == b.value_len(n)
        && (0..many.unwrap_or(0)).all(|i| a.value_unit(n, i) == b.value_unit(n, i))
}

// Whether two stores tell the same finished values.
fn same_values<A: ValueStore, B: ValueStore>(a: &A, b: &B) -> bool {
    // by number, since a store answers by number
    a.count() == b.count() && (0..a.count()).all(|n| same_value(a, b, n))
}

// A script on stores of as many units as bytes, `size` of each: what both makes answer to the calls, then the values of
// both and all bytes of the WTF-8 make, and whether both tell the same values.
pub fn replay_stores(
    heap: Global,
    text: &mut String,
    places: usize,
    size: usize,
    calls: &str,
) -> anyhow::Result<bool> {
    let mut memory = vec![in heap; 0xFFFFu16; size]?;
    let mut ends = vec![in heap; 99usize; places]?;
    let mut more_memory = vec![in heap; 0xFFu8; size]?;
    let mut more_ends = vec![in heap; 99usize; places]?;
    let mut units = Units::new(memory.as_mut_slice(), ends.as_mut_slice());
    let mut wtf8 = Wtf8::new(more_memory.as_mut_slice(), more_ends.as_mut_slice());
    write_answers(
        text,
        calls,
        |call| Both(act(&mut units, call), act_wtf8(&mut wtf8, call)),
    )?;
    text.push(';')?;
    write_values(text, &units)?;
    write_values(text, &wtf8)?;
    write_bytes(text, &wtf8)?;
    Ok(same_values(&units, &wtf8))
}
