// Counts of a script.
ghost use Rattle.std.specs.Prelude.{◌≡◌, ◌+◌, length, IfOk, MatchResult};
ghost use Rattle.std.specs.Str.{chars as decodes};
ghost use Rattle.source.specs.Checks.{NoText};
ghost use Rattle.source.specs.Texts.{IsText};
ghost use Rattle.stops.specs.Stops.{double, single, template};
ghost use Rattle.survey.specs.Tally.{tally, FirstPlace};

use refusals::Refusal;
use source::text::Text;
use stops::search::search;
use stops::sets::{DoubleQuote, SingleQuote, StopSet, Template};

// How many places stop, and the first of them.
#[derive(Clone, Copy)]
pub struct Stops {
    pub count: usize,
    pub first: Option<usize>,
}

#[derive(Clone, Copy)]
pub struct Survey {
    pub bytes: usize,
    pub chars: usize,
    pub double: Stops,
    pub single: Stops,
    pub template: Stops,
}

// The survey of a script, or why it is no text.
pub fn survey_script(bytes: &[u8]) -> Result<Survey, Refusal>
    ensures text { MatchResult result (λ _. IsText bytes.now) (λ e. NoText bytes.now e) }
    ensures sizes { IfOk result (λ s. (s.bytes ≡ length bytes.now) × (s.chars ≡ length (decodes bytes.now))) }
    ensures counts { IfOk result (λ s. (s.double.count ≡ tally double bytes.now) × (s.single.count ≡ tally single bytes.now) × (s.template.count ≡ tally template bytes.now)) }
    ensures firsts { IfOk result (λ s. FirstPlace double bytes.now s.double.first × FirstPlace single bytes.now s.single.first × FirstPlace template bytes.now s.template.first) }
{
    let text = Text::try_from(bytes)?;
    Ok(Survey {
        bytes: bytes.len(),
        chars: count_chars(text),
        double: find_stops(&DoubleQuote, bytes),
        single: find_stops(&SingleQuote, bytes),
        template: find_stops(&Template, bytes),
    })
}

// How many characters a text has.
pub fn count_chars(text: Text<'_>) -> usize
    ensures { result ≡ length (decodes text.entry.bytes.now) }
{
    text.as_str().chars().count()
}

// The stops of a set in some bytes.
pub fn find_stops<S: StopSet>(set: &S, bytes: &[u8]) -> Stops
    ensures count { result.count ≡ tally (S.StopSet.stops set.now) bytes.now }
    ensures first { FirstPlace (S.StopSet.stops set.now) bytes.now result.first }
{
    Stops {
        count: count_stops(set, bytes),
        first: search(set, bytes, 0).map(|(place, _)| place),
    }
}

// How many places of some bytes stop.
pub fn count_stops<S: StopSet>(set: &S, bytes: &[u8]) -> usize
    ensures { result ≡ tally (S.StopSet.stops set.now) bytes.now }
{
    bytes.iter().map(|byte| usize::from(set.has(*byte))).sum()
}
