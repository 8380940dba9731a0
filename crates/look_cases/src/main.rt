// Replays data/cases.txt: looks at literals, with their units and faults, each with the answer expected of it.
#![tactic(auto)]

ghost use Rattle.std.specs.Iterator.{IsFinite};

mod steps;

use anyhow::bail;
use faults::Fault;
use look::answer::{Look, Scan};
use look::literal::Literal;
use look::look::look;
use replaying::{cut, digit_pairs, replay, unhexed};
use source::text::Text;
use std::alloc::Global;
use std::fmt::Write;
use std::fs;
use steps::Steps;
use tokens::Token;

// A function and no `FromStr`: the trait and the type both are of other crates, and a type of this one around a `Scan` is
// no plainer.
fn scan_named(word: &str) -> anyhow::Result<Scan> {
    match word {
        "string" => Ok(Scan::Str),
        "template" => Ok(Scan::Template),
        "resume" => Ok(Scan::Resumption),
        _ => bail!("no such scan"),
    }
}

// Writes each item, joined by commas, and `-` where there is none.
fn write_joined<T: Drop, I, F>(
    out: &mut String,
    mut items: I,
    mut write_item: F,
) -> anyhow::Result<()>
where
    I: Iterator<Item = T> + Drop,
    F: FnMut(&mut String, T) -> anyhow::Result<()>,
    requires can { I.can_next items }
    requires ends { IsFinite (I.remaining items) }
    requires call { F.IsAlwaysCallable write_item }
{
    let Some(first) = items.next() else {
        out.push('-')?;
        return Ok(());
    };
    write_item(out, first)?;
    for item in items {
        out.push(',')?;
        write_item(out, item)?;
    }
    Ok(())
}

// What a look tells of a literal, and the units and the faults that come in some steps.
fn write_literal(
    out: &mut String,
    seen: Look,
    literal: Literal<'_>,
    steps: Steps<'_>,
) -> anyhow::Result<()> {
    let Look { token, units, .. } = seen;
    let Token { kind, end, .. } = token;
    write!(out, "{kind} {end} {} ", token.mark())?;
    if units.is_some() {
        write_joined(
            out,
            literal.units().take(steps.units()),
            |out, unit| Ok(write!(out, "{unit:04X}")?),
        )?;
    } else {
        out.push_str("none")?;
    }
    out.push(' ')?;
    write_joined(out, literal.faults().take(steps.faults()), |out, fault| {
        let Fault { kind, from, to } = fault;
        Ok(write!(out, "{}:{from}:{to}", kind.number())?)
    })
}

// Whether a case gives the answer that its line expects.
fn agrees(heap: Global, line: &str) -> anyhow::Result<bool> {
    let (scan, rest) = cut(line)?;
    let scan = scan_named(scan)?;
    let (start, rest) = cut(rest)?;
    let (word, expected) = cut(rest)?;
    let start = start.parse::<usize>()?;
    let bytes = unhexed(heap, digit_pairs(word))?;
    let text = Text::new(bytes.as_slice());
    let mut told = String::new(heap);
    match look(text, start, scan) {
        Ok(seen) => {
            let literal = Literal::find(text, start, scan)?;
            write_literal(&mut told, seen, literal, Steps::of(text, start))?;
        }
        Err(refusal) => write!(told, "refused {refusal}")?,
    }
    Ok(told.as_str() == expected)
}

fn main(rt: HostRuntime) -> anyhow::Result<()> {
    let heap = rt.alloc();
    let text = fs::read_to_string(&rt, "cases.txt")?;
    let tally = replay(&rt, text.as_str(), |line| agrees(heap, line))?;
    println!(rt; "{tally}")?;
    Ok(())
}
