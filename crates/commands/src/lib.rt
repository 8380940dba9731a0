// The command lines of an input: a word, one space, and one to eight decimal digits each, then an empty line and the text.
#![tactic(auto)]

ghost use Rattle.std.specs.Prelude.{◌≡◌, ℕ, List, ◌∷◌, ◌++◌, MatchOption, MatchResult, ◌≢◌};
ghost use Rattle.commands.specs.Format.{spelled, Number, decimal, Line, Input, NoInput, Lacks};

use std::alloc::Global;

pub mod kinds;

use kinds::{Command, NoCommands, Word};

// The commands of an input, up to its empty line, and the text behind that.
pub fn commands_of<'a>(
    heap: Global,
    input: &'a [u8],
) -> Result<(Vec<Command>, &'a [u8]), NoCommands>
    ensures { MatchResult result (λ p. Input p.0.items p.1.now input.now) (λ e. e ≡ NoCommands.Malformed → NoInput input.now) }
{
    let mut commands = Vec::new(heap);
    let mut rest = input;
    while let Some((front, after)) = line(rest) {
        if front.is_empty() {
            return Ok((commands, after));
        }
        let c = command(front).ok_or(NoCommands::Malformed)?;
        commands.push(c)?;
        rest = after;
    }
    Err(NoCommands::Malformed)
}

// The command that a line holds. A function, since a TryFrom would be no plainer: no reason is told why there is none.
pub fn command(line: &[u8]) -> Option<Command>
    ensures { MatchOption result ((c : Command) → Line c line.now → ⊥) (λ c. Line c line.now) }
{
    let (word, digits) = word(line)?;
    let start = number(digits)?;
    Some(Command { word, start })
}

// The word at the front of a line, with the bytes after its space.
fn word(line: &[u8]) -> Option<(Word, &[u8])>
    ensures { MatchOption result ((w : Word) (ds : List ℕ) → line.now ≢ spelled w ++ ds) (λ p. line.now ≡ spelled p.0 ++ p.1.now) }
{
    // a loop, since the proof of a find_map over the words did not close
    let words = [Word::Str, Word::Template, Word::Resume, Word::Value];
    for word in words {
        if let Some(digits) = line.strip_prefix(word.front()) {
            return Some((word, digits));
        }
    }
    None
}

// The number that one to eight decimal digits spell.
fn number(digits: &[u8]) -> Option<usize>
    ensures { MatchOption result (Number digits.now → ⊥) (λ n. Number digits.now × (n ≡ decimal digits.now)) }
{
    if digits.is_empty() || digits.len() > 8 {
        return None;
    }
    let mut n = 0usize;
    for b in digits {
        if !b.is_ascii_digit() {
            return None;
        }
        n = n * 10 + usize::from(*b - b'0');
    }
    Some(n)
}

// The first line of `text`, without its line feed, and what follows.
fn line(text: &[u8]) -> Option<(&[u8], &[u8])>
    ensures { MatchOption result (Lacks text.now) (λ p. (text.now ≡ p.0.now ++ 10 ∷ p.1.now) × Lacks p.0.now) }
{
    let end = text.iter().position(|b| *b == b'\n')?;
    Some((&text[..end], &text[end + 1..]))
}
