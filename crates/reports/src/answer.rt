// An input, from its bytes to its report.
ghost use Rattle.std.specs.Prelude.{◌≡◌, Ok, Err, IfOk, MatchResult};
ghost use Rattle.refusals.specs.declared.Refusal.{Refusal};
ghost use Rattle.refusals.specs.declared.failure.Failure.TheVariants.{Refused};
ghost use Rattle.session.specs.Scans.{bytes_of};
ghost use Rattle.reports.specs.Answers.{Answers, LivedThrough};

use super::play::play;
use super::report::{Output, Report};
use commands::commands_of;
use commands::kinds::Command;
use faults::Fault;
use refusals::Refusal;
use refusals::failure::Failure;
use session::Session;
use slots::Slot;
use source::text::Text;
use std::alloc::{AllocError, Global};
use units::Units;

// the largest input, in bytes
const MOST: usize = 32_768;

// Reads the commands and the text of an input and performs the commands on one session.
pub fn answer(heap: Global, input: &[u8]) -> Result<Output, AllocError>
    ensures { IfOk result (λ output. Answers input.now output.0) }
{
    match report_of(heap, input) {
        Ok(report) => Ok(Output(Ok(report))),
        Err(Failure::Refused(refusal)) => Ok(Output(Err(refusal))),
        Err(Failure::NoMemory(error)) => Err(error),
    }
}

fn report_of(heap: Global, input: &[u8]) -> Result<Report, Failure>
    ensures { MatchResult result (λ report. Answers input.now (Ok report)) (λ failure. (e : Refusal) → failure ≡ Refused e → Answers input.now (Err e)) }
{
    if input.len() > MOST {
        return Err(Refusal::TooLong.into());
    }
    let (commands, bytes) = commands_of(heap, input)?;
    let text = Text::try_from(bytes)?;
    let report = perform_all(heap, text, commands.as_slice())?;
    Ok(report)
}

// Performs commands on a session of 64 slots a map and 64 records, over a store of 64 places and 4,096 units.
fn perform_all(heap: Global, text: Text<'_>, commands: &[Command]) -> Result<Report, AllocError>
    ensures { IfOk result (λ report. LivedThrough (bytes_of text.entry) commands.now report) }
{
    let mut cells = [0u16; 4096];
    let mut ends = [0usize; 64];
    let mut store = Units::new(&mut cells, &mut ends);
    let mut strings = [Slot::new(0usize); 64];
    let mut templates = [Slot::new(Some(0usize)); 64];
    let mut records = [Fault::default(); 64];
    let mut session = Session::new(&mut store, &mut strings, &mut templates, &mut records);
    play(heap, &mut session, &mut store, text, commands)
}
