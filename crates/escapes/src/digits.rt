// Digits: one reader of hex digits, and what stands on it.
ghost use Rattle.std.specs.Prelude.{◌≡◌, ◌-◌, ◌<◌, ◌≤◌, T, length, MatchOption, IfSome};
ghost use Rattle.std.specs.Iterator.{at_most};
ghost use Rattle.grammar.specs.Rule.{member, hex_digit, digit};
ghost use Rattle.grammar.specs.Production.{octal_digits};
ghost use Rattle.escapes.specs.Digits.{DigitAt, DecimalAt, TakesHex, HexRead, CodePointRead, Skipped};

use crate::places::{Site, ascii_at, past_byte};
use crate::unicode::Invalid;

// The value of a hex digit: a `u8`, where `char::to_digit` gives a `u32` that each reader of units would have to narrow.
fn hex_value(b: u8) -> Option<u8>
    ensures cases { MatchOption result (T (member b hex_digit) → ⊥) (λ v. T (member b hex_digit) × (v ≡ digit b)) }
    ensures small { IfSome result (λ v. v < 16) }
{
    match b {
        b'0'..=b'9' => Some(b - b'0'),
        b'A'..=b'F' => Some(b - b'A' + 10),
        b'a'..=b'f' => Some(b - b'a' + 10),
        _ => None,
    }
}

// The hex digits from a place on, by their values.
#[derive(Drop)]
pub(crate) struct HexDigits<'t> {
    site: Site<'t>,
}

impl HexDigits<'_> {
    // The place behind those that were taken.
    fn place(&self) -> usize
        ensures { result ≡ self.now.site.at }
    {
        self.site.at
    }
}

impl Iterator for HexDigits<'_> {
    type Item = u8;

    ghost next_gives = { TakesHex };

    ghost remaining = { λ r. at_most (length r.site.bytes.now - r.site.at) };

    fn next(&mut self) -> Option<u8> {
        let digit = hex_value(ascii_at(self.site)?)?;
        self.site = past_byte(self.site);
        Some(digit)
    }
}

// The value of the octal digit at a place.
pub(crate) fn octal_at(site: Site<'_>) -> Option<u8>
    ensures digit_at { DigitAt octal_digits site.entry.bytes.now site.entry.at result }
    ensures small { IfSome result (λ v. v < 8) }
{
    match ascii_at(site)? {
        b @ b'0'..=b'7' => Some(b - b'0'),
        _ => None,
    }
}

// Whether a decimal digit stands at a place.
pub(crate) fn decimal_at(site: Site<'_>) -> bool
    ensures { DecimalAt site.entry.bytes.now site.entry.at result }
{
    matches!(ascii_at(site), Some(b'0'..=b'9'))
}

// `count` hex digits from a place on: their value and the place behind them, or the place reached where there are fewer.
pub(crate) fn hex_digits(site: Site<'_>, count: usize) -> Result<(u16, usize), Invalid>
    requires { count ≤ 4 }
    ensures { HexRead site.entry.bytes.now site.entry.at count result }
{
    let mut digits = HexDigits { site };
    let mut value: u16 = 0;
    for _ in 0..count {
        let digit = digits.next().ok_or(Invalid {
            next: digits.place(),
        })?;
        value = value * 16 + u16::from(digit);
    }
    Ok((value, digits.place()))
}

// Why hex digits make no code point: there are none, or one lifts the value above 10FFFF, with the place behind it.
#[derive(Clone, Copy, PartialEq, Eq, Debug)]
pub(crate) enum NoCodePoint {
    Missing,
    Over(usize),
}

// Hex digits from a place on, as long as they make a code point: its value and the place behind.
pub(crate) fn code_point(site: Site<'_>) -> Result<(u32, usize), NoCodePoint>
    ensures { CodePointRead site.entry.bytes.now site.entry.at result }
{
    let mut digits = HexDigits { site };
    let first = digits.next().ok_or(NoCodePoint::Missing)?;
    let mut value = u32::from(first);
    while let Some(digit) = digits.next() {
        value = value * 16 + u32::from(digit);
        if value > 0x10FFFF {
            return Err(NoCodePoint::Over(digits.place()));
        }
    }
    Ok((value, digits.place()))
}

// The place behind the hex digits from a place on.
pub(crate) fn skip_hex(site: Site<'_>) -> usize
    ensures { Skipped site.entry.bytes.now site.entry.at result }
{
    site.at + HexDigits { site }.count()
}
