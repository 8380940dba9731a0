// A list of commands on one session.
ghost use Rattle.std.specs.Prelude.{IfOk};
ghost use Rattle.session.specs.Scans.{bytes_of};
ghost use Rattle.reports.specs.Transcript.{Played};

use super::ask::{ask_faults, carry_out};
use super::report::{Line, Report};
use commands::kinds::Command;
use session::Session;
use source::text::Text;
use std::alloc::{AllocError, Global};
use store::ValueStore;

// Performs every command in its turn, and asks for the faults at the end.
pub fn play<S: ValueStore>(
    heap: Global,
    session: &mut Session<'_>,
    store: &mut S,
    text: Text<'_>,
    commands: &[Command],
) -> Result<Report, AllocError>
    ensures { IfOk result (λ report. Played S.ValueStore.weight (bytes_of text.entry) session.old (S.ValueStore.held store.old) commands.now report session.new (S.ValueStore.held store.new)) }
{
    let mut lines = Vec::new(heap);
    for &command in commands {
        let told = carry_out(heap, session, store, text, command)?;
        lines.push(Line { command, told })?;
    }
    let faults = ask_faults(heap, session, store)?;
    Ok(Report { lines, faults })
}
