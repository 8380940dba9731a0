ghost use Rattle.std.specs.Prelude.{◌≡◌, ◌%◌, ◌+◌, ◌<◌, ◌≤◌, [], ◌∷◌, length, if◌then◌else◌, Ok, Err, nat_le, slice_index};
ghost use Rattle.std.proofs.Math.Utf8.{encode};
ghost use Rattle.std.specs.Iterator.{YieldsFirst, item_count};
ghost use Rattle.refusals.specs.Numbers.{numbered};
ghost use Rattle.store.specs.Cuts.{laid};
ghost use Rattle.store.specs.Held.{overlaid, unit_told};
ghost use Rattle.coding.specs.Codes.{high, low, starts, units, trail, recode, from_of, code_of};
ghost use Rattle.coding.specs.Read.{told, begins, left};

use refusals::Refusal;

// Whether a unit is a high half of a pair.
fn is_high(u: u16) -> bool
    ensures { result ≡ high u }
{
    (0xD800..0xDC00).contains(&u)
}

// Whether a unit is a low half of a pair.
fn is_low(u: u16) -> bool
    ensures { result ≡ low u }
{
    (0xDC00..0xE000).contains(&u)
}

// Where the character begins that `u` completes, and its code point: `half` is the unit before it, where that is a high half.
pub fn completed(half: Option<u16>, used: usize, u: u16) -> (usize, u32)
    ensures place { result.0 ≡ from_of half used u }
    ensures code { result.1 ≡ code_of half u }
    ensures small { result.1 < 1114112 }
{
    match half {
        Some(half) if is_high(half) && is_low(u) => (
            used.saturating_sub(3),
            (u32::from(half) - 0xD800) * 0x400 + (u32::from(u) - 0xDC00) + 0x10000,
        ),
        _ => (used, u32::from(u)),
    }
}

// How many bytes a code point takes.
pub fn size(c: u32) -> usize
    ensures { result ≡ length (encode c) }
{
    encoded(c, &mut [0; 4]).len()
}

// A code point's bytes, in a buffer that is lent for them; zeros for a number that is none.
#[tactic(auto, using(crate::proofs::Trips::encode_2, crate::proofs::Trips::encode_3, crate::proofs::Trips::encode_4))]
pub fn encoded(c: u32, buffer: &mut [u8; 4]) -> &[u8]
    ensures long { length result.now ≡ length (encode c) }
    ensures bytes { c < 1114112 → result.now ≡ encode c }
    ensures none { 1114112 ≤ c → result.now ≡ 0 ∷ 0 ∷ 0 ∷ 0 ∷ [] }
{
    match c {
        0..=0x7F => {
            *buffer = [c as u8, 0, 0, 0];
            &buffer[..1]
        }
        0x80..=0x7FF => {
            *buffer = [(0xC0 + c / 0x40) as u8, (0x80 + c % 0x40) as u8, 0, 0];
            &buffer[..2]
        }
        0x800..=0xFFFF => {
            *buffer = [
                (0xE0 + c / 0x1000) as u8,
                (0x80 + c / 0x40 % 0x40) as u8,
                (0x80 + c % 0x40) as u8,
                0,
            ];
            &buffer[..3]
        }
        0x10000..=0x10FFFF => {
            *buffer = [
                (0xF0 + c / 0x40000) as u8,
                (0x80 + c / 0x1000 % 0x40) as u8,
                (0x80 + c / 0x40 % 0x40) as u8,
                (0x80 + c % 0x40) as u8,
            ];
            buffer
        }
        _ => {
            *buffer = [0; 4];
            buffer
        }
    }
}

// The last unit of the bytes where that is a high half.
#[tactic(auto, using(crate::proofs::Halves::no_half, crate::proofs::Halves::half_there))]
pub fn last_half(bytes: &[u8]) -> Option<u16>
    ensures { recode bytes.now ≡ bytes.now → result ≡ trail (units bytes.now) }
{
    match bytes {
        [.., 0xED, b @ 0xA0..=0xAF, c @ 0x80..=0xBF] => {
            Some(0xD000 + u16::from(*b % 0x40) * 0x40 + u16::from(*c % 0x40))
        }
        _ => None,
    }
}

// The low six bits of byte `i`, or 0 past the end.
fn six_bits(bytes: &[u8], i: usize) -> u16
    ensures { result ≡ slice_index bytes.now i % 64 }
{
    u16::from(bytes.get(i).copied().unwrap_or(0) % 0x40)
}

// The unit that begins at a byte before `rest`, and the second half where it is the first of a pair: none at a byte that goes on.
fn begun(first: u8, rest: &[u8]) -> Option<(u16, Option<u16>)>
    ensures { told result ≡ starts first rest.now }
{
    match first {
        0..=0x7F => Some((u16::from(first), None)),
        0x80..=0xBF => None,
        0xC0..=0xDF => Some((u16::from(first % 0x20) * 0x40 + six_bits(rest, 0), None)),
        0xE0..=0xEF => {
            let lead = u16::from(first % 0x10) * 0x1000;
            Some((lead + six_bits(rest, 0) * 0x40 + six_bits(rest, 1), None))
        }
        0xF0..=0xFF => {
            let point = u32::from(first % 8) * 0x40000
                + u32::from(six_bits(rest, 0)) * 0x1000
                + u32::from(six_bits(rest, 1)) * 0x40
                + u32::from(six_bits(rest, 2));
            let high = (0xD7C0 + point / 0x400) as u16;
            let low = (0xDC00 + point % 0x400) as u16;
            Some((high, Some(low)))
        }
    }
}

// The units that bytes are, one after another.
#[derive(Drop)]
struct Utf16<'a> {
    rest: &'a [u8],
    // the second half of a pair whose first was the last unit
    second: Option<u16>,
}

impl<'a> Utf16<'a> {
    fn new(bytes: &'a [u8]) -> Utf16<'a>
        ensures { left result ≡ units bytes.now }
    {
        Utf16 {
            rest: bytes,
            second: None,
        }
    }
}

impl<'a> Iterator for Utf16<'a> {
    type Item = u16;

    ghost next_gives = { YieldsFirst left };

    ghost remaining = { item_count left };

    // inlined, so that a walk has its state in registers
    #[inline(always)]
    #[tactic(auto, using(crate::proofs::Steps::first_plain, crate::proofs::Steps::first_unit, crate::proofs::Steps::no_units))]
    fn next(&mut self) -> Option<u16> {
        if let Some(unit) = self.second.take() {
            return Some(unit);
        }
        // most text is ASCII, and needs no pair
        if let [first @ 0..=0x7F, rest @ ..] = self.rest {
            self.rest = rest;
            return Some(u16::from(*first));
        }
        while let [first, rest @ ..] = self.rest {
            self.rest = rest;
            if let Some((unit, second)) = begun(*first, rest) {
                self.second = second;
                return Some(unit);
            }
        }
        None
    }
}

// How many units begin at a byte: none at one that goes on with a character, two where a pair does; by sums, without a branch.
fn many_at(first: u8) -> usize
    ensures { result ≡ begins first }
{
    usize::from(!(0x80..0xC0).contains(&first)) + usize::from(first >= 0xF0)
}

// How many units the bytes are.
pub fn unit_count(bytes: &[u8]) -> usize
    ensures { result ≡ length (units bytes.now) }
{
    // by branches, which text that stays with one kind of byte makes cheap
    bytes
        .iter()
        .map(|first| match first {
            0..=0x7F => 1,
            0x80..=0xBF => 0,
            _ => 1 + usize::from(*first >= 0xF0),
        })
        .sum()
}

// The unit that is number `i` of those that the bytes are: the bytes are passed up to the one at which it begins.
pub fn unit_at(bytes: &[u8], i: usize) -> Result<u16, Refusal>
    ensures { numbered result ≡ unit_told (units bytes.now) i }
{
    let mut tail = bytes;
    let mut to_go = i;
    while let [first, rest @ ..] = tail {
        let many = many_at(*first);
        if to_go < many {
            break;
        }
        to_go -= many;
        tail = rest;
    }
    Utf16::new(tail).nth(to_go).ok_or(Refusal::IndexPastEnd)
}

// Writes the units that begin at a byte to `out` from cell `at` on, and answers where the next is written.
fn write_at(out: &mut [u16], at: usize, begun: Option<(u16, Option<u16>)>) -> usize
    requires { at + length (told begun) ≤ length out.old }
    ensures after { out.new ≡ laid out.old at (told begun) }
    ensures next { result ≡ at + length (told begun) }
{
    match begun {
        None => at,
        Some((unit, None)) => {
            out[at] = unit;
            at + 1
        }
        Some((unit, Some(second))) => {
            out[at] = unit;
            out[at + 1] = second;
            at + 2
        }
    }
}

// Writes the units that the bytes are to the front of `out`, and answers how many they are: one walk to count them, one to write.
pub fn read_units(bytes: &[u8], out: &mut [u16]) -> Result<usize, Refusal>
    ensures answer { numbered result ≡ (if nat_le (length (units bytes.now)) (length out.old) then Ok (length (units bytes.now)) else Err 5) }
    ensures after { out.new ≡ (if nat_le (length (units bytes.now)) (length out.old) then overlaid (units bytes.now) out.old else out.old) }
{
    let many = unit_count(bytes);
    if many > out.len() {
        return Err(Refusal::IndexPastEnd);
    }
    // byte by byte, since a proof loses what a zip over iter_mut writes
    let mut at = 0;
    let mut tail = bytes;
    while let [first, rest @ ..] = tail {
        at = write_at(out, at, begun(*first, rest));
        tail = rest;
    }
    Ok(many)
}
