// Replays data/cases.txt: texts, stops, moves and characters, each with the answer expected of it.
#![tactic(auto)]

use anyhow::{bail, ensure};
use refusals::Refusal;
use replaying::{cut, digit_pairs, replay, unhexed};
use source::cursor::Cursor;
use source::text::{LIMIT, Text, check};
use source::trial::{Place, Trial};
use std::alloc::Global;
use std::fmt::Display;
use std::fs;
use stops::search::search;
use stops::sets::{DoubleQuote, SingleQuote, StopSet, Template};
use stops::table::Table;
use survey::survey::count_chars;

// The bytes that a word of hex digits writes, without a lone last digit; `-` writes none.
fn bytes_of(heap: Global, word: &str) -> anyhow::Result<Vec<u8>> {
    ensure!(
        word == "-" || word.chars().all(|c| c.is_ascii_hexdigit()),
        "no hex digit"
    );
    Ok(unhexed(heap, digit_pairs(word))?)
}

// What the making of a text says of some bytes.
fn told_of_text(heap: Global, bytes: &[u8]) -> anyhow::Result<String> {
    match Text::try_from(bytes) {
        Ok(text) => Ok(format!(in heap; "ok {}", count_chars(text))?),
        Err(refusal @ Refusal::NotUtf8(prefix)) => {
            Ok(format!(in heap; "refused {refusal} {prefix}")?)
        }
        Err(refusal) => Ok(format!(in heap; "refused {refusal}")?),
    }
}

fn told_of_pair<A: Display + Copy, B: Display + Copy>(
    heap: Global,
    pair: Option<(A, B)>,
) -> anyhow::Result<String> {
    match pair {
        Some((a, b)) => Ok(format!(in heap; "{a} {b}")?),
        None => Ok(String::from_str(heap, "none")?),
    }
}

// What the search finds, from a place on.
fn told_of_stop(heap: Global, set: &str, bytes: &[u8], from: usize) -> anyhow::Result<String> {
    let found = match set {
        "double" => search(&DoubleQuote, bytes, from),
        "single" => search(&SingleQuote, bytes, from),
        "template" => search(&Template, bytes, from),
        _ => bail!("no such set"),
    };
    told_of_pair(heap, found)
}

fn cursor_at(bytes: &[u8], place: usize) -> Cursor<'_> {
    Cursor::new(Text::new(bytes)).moved(place)
}

// Where a cursor stands that is told to move from the start.
fn told_of_move(heap: Global, bytes: &[u8], to: usize) -> anyhow::Result<String> {
    Ok(cursor_at(bytes, to).place().to_string(heap)?)
}

// The character at a place and the place behind it.
fn told_of_char(heap: Global, bytes: &[u8], at: usize) -> anyhow::Result<String> {
    told_of_pair(heap, cursor_at(bytes, at).next())
}

// Whether what is told of bytes at a place is what a case expects.
fn agrees_at<F: FnOnce(&[u8], usize) -> anyhow::Result<String>>(
    heap: Global,
    case: &str,
    told: F,
) -> anyhow::Result<bool>
    requires { F.IsAlwaysCallable told }
{
    let (word, rest) = cut(case)?;
    let (place, expected) = cut(rest)?;
    let bytes = bytes_of(heap, word)?;
    Ok(told(bytes.as_slice(), place.parse::<usize>()?)?.as_str() == expected)
}

// Whether a case gives the answer that its line expects.
fn agrees(heap: Global, line: &str) -> anyhow::Result<bool> {
    let (kind, case) = cut(line)?;
    match kind {
        "text" => {
            let (word, expected) = cut(case)?;
            let bytes = bytes_of(heap, word)?;
            Ok(told_of_text(heap, bytes.as_slice())?.as_str() == expected)
        }
        "stop" => {
            let (set, case) = cut(case)?;
            agrees_at(
                heap,
                case,
                |bytes, from| told_of_stop(heap, set, bytes, from),
            )
        }
        "move" => agrees_at(heap, case, |bytes, to| told_of_move(heap, bytes, to)),
        "char" => agrees_at(heap, case, |bytes, at| told_of_char(heap, bytes, at)),
        _ => agrees_at(heap, case, |_, _| bail!("no such kind of case")),
    }
}

// A text of exactly the limit is taken, and one byte more is refused.
fn at_the_limit(heap: Global) -> anyhow::Result<bool> {
    let mut bytes = vec![in heap; b'a'; LIMIT]?;
    let taken = check(bytes.as_slice()).is_ok();
    bytes.push(b'a')?;
    let refused = matches!(check(bytes.as_slice()), Err(Refusal::TooLong));
    Ok(taken && refused)
}

// A pattern against the law is refused and the old table kept; a lawful one is taken over.
fn law_is_kept() -> bool {
    let mut table = Table::new();
    let mut pattern = [false; 256];
    pattern[0x80] = true;
    let refused = matches!(table.set(&pattern), Err(Refusal::UnlawfulPattern)) && !table.has(0x80);
    pattern[0x80] = false;
    pattern[0x41] = true;
    refused && table.set(&pattern).is_ok() && table.has(0x41) && !table.has(0x42)
}

// A trial that is let go puts the place back, and a confirmed one does not.
fn trial_puts_back() -> bool {
    let mut place = Place { at: 1 };
    let first = {
        let mut trial = Trial::begin(b"a\\u0041", &mut place);
        trial.take_unicode_prefix() && trial.at() == 3
    };
    let back = place.at == 1;
    let mut trial = Trial::begin(b"a\\u0041", &mut place);
    let second = trial.take_unicode_prefix();
    trial.confirm();
    first && back && second && place.at == 3
}

fn main(rt: HostRuntime) -> anyhow::Result<()> {
    let heap = rt.alloc();
    let text = fs::read_to_string(&rt, "cases.txt")?;
    let tally = replay(&rt, text.as_str(), |line| agrees(heap, line))?;
    println!(rt; "{tally}")?;
    println!(rt; "the limit is kept: {}", at_the_limit(heap)?)?;
    println!(rt; "the law of stop sets is kept: {}", law_is_kept())?;
    println!(rt; "a trial puts the place back: {}", trial_puts_back())?;
    Ok(())
}
