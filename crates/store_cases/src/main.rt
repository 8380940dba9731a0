// Replays data/scripts.txt: calls on both makes of a value store side by side, on slot maps of both kinds of entry, and
// on fault lists, each script with the answers expected of it.
#![tactic(auto)]

mod answer;
mod call;
mod lists;
mod stores;

use anyhow::{Context, bail};
use call::Call;
use lists::{replay_faults, replay_maps};
use replaying::replay;
use std::alloc::Global;
use std::fs;
use stores::replay_stores;

// The answers to a script's calls, and whether two stores told the same values at its end.
fn replay_script(
    heap: Global,
    text: &mut String,
    head: Call<'_>,
    calls: &str,
) -> anyhow::Result<bool> {
    // by word, as the data file names a kind of script
    match head.name {
        "stores" => return replay_stores(heap, text, head.a, head.b, calls),
        "maps" => replay_maps(heap, text, head.a, calls)?,
        "faults" => replay_faults(heap, text, head.a, calls)?,
        _ => bail!("no such kind of script"),
    }
    Ok(false)
}

// Whether the answers of a line's calls are those that it expects, and whether two stores told the same values.
fn replay_line(heap: Global, line: &str) -> anyhow::Result<(bool, bool)> {
    let (script, expected) = line.split_once('=').context("a line has no answers")?;
    let (head, calls) = script.split_once(':').context("a line has no calls")?;
    let mut text = String::new(heap);
    let same = replay_script(heap, &mut text, Call::try_from(head)?, calls)?;
    Ok((text.as_str() == expected, same))
}

fn main(rt: HostRuntime) -> anyhow::Result<()> {
    let heap = rt.alloc();
    let mut alike = 0u64;
    let text = fs::read_to_string(&rt, "scripts.txt")?;
    let tally = replay(&rt, text.as_str(), |line| {
        let (agrees, same) = replay_line(heap, line)?;
        alike = alike.saturating_add(u64::from(same));
        Ok(agrees)
    })?;
    println!(rt; "{} scripts agree", tally.agree)?;
    println!(rt; "both makes tell the same values at the end of {alike}")?;
    Ok(())
}
