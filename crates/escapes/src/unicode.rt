// Escapes. Each reader starts at the character behind the backslash.
ghost use Rattle.std.specs.Prelude.{◌≡◌, ◌+◌, ◌<◌, ◌≤◌, Bool, true, false, [], ◌∷◌, Ok, MatchOption};
ghost use Rattle.grammar.specs.Utf8.{utf8};
ghost use Rattle.grammar.specs.Rule.{Ahead, but};
ghost use Rattle.grammar.specs.Production.{octal_digits};
ghost use Rattle.grammar.specs.Value.{utf16};
ghost use Rattle.escapes.specs.Places.{At, Here, Stands};
ghost use Rattle.escapes.specs.Digits.{Digit, DecimalAt};
ghost use Rattle.escapes.specs.Escapes.{listed, unicode_units, Leads, Behind, Low, EscapeRead};

use crate::digits::{NoCodePoint, code_point, decimal_at, hex_digits, octal_at, skip_hex};
use crate::places::{ahead, moved, stands_at};
use source::cursor::Cursor;
use source::fronts::behind;
use source::trial::{Place, Trial};

// The units of an escape. They are none, one or two: an Option has no place for two.
#[derive(Clone, Copy, PartialEq, Eq, Debug)]
pub enum Units {
    Nothing,
    One(u16),
    Two(u16, u16),
}

// What a good escape gives, and the place behind it.
#[derive(Clone, Copy, PartialEq, Eq, Debug)]
pub struct Given {
    pub units: Units,
    pub next: usize,
}

// A bad escape, and the place that its reading reached.
#[derive(Clone, Copy, PartialEq, Eq, Debug)]
pub struct Invalid {
    pub next: usize,
}

// A Unicode escape: a code point that is no surrogate, one that two halves make, or a surrogate alone.
#[derive(Clone, Copy)]
pub(crate) enum UnicodeEscape {
    CodePoint(char),
    SurrogatePair(char),
    LoneSurrogate(u16),
}

// What the character behind a backslash begins.
#[derive(Clone, Copy)]
pub(crate) enum Lead {
    LineBreak,
    Return,
    Single(u16),
    Hex,
    Unicode,
    Nul,
    Octal(u8),
    ZeroDecimal,
    Decimal,
    Other,
}

// What a character begins: a match with literal cases and guards, the project's form for this choice. The `as` is of a digit
// of ASCII, where `u8::try_from` would answer a Result.
fn lead_of(c: char, digit_behind: bool, in_template: bool) -> Lead
    ensures { Leads c digit_behind in_template result }
{
    match c {
        '\n' | '\u{2028}' | '\u{2029}' => Lead::LineBreak,
        '\r' => Lead::Return,
        '\'' => Lead::Single(0x27),
        '"' => Lead::Single(0x22),
        '\\' => Lead::Single(0x5C),
        'b' => Lead::Single(0x08),
        'f' => Lead::Single(0x0C),
        'n' => Lead::Single(0x0A),
        'r' => Lead::Single(0x0D),
        't' => Lead::Single(0x09),
        'v' => Lead::Single(0x0B),
        'x' => Lead::Hex,
        'u' => Lead::Unicode,
        '0' if !digit_behind => Lead::Nul,
        '0'..='7' if !in_template => Lead::Octal(c as u8 - b'0'),
        '0' => Lead::ZeroDecimal,
        '1'..='9' if in_template => Lead::Decimal,
        _ => Lead::Other,
    }
}

// A character in UTF-16. Each `as` takes a value below 0x10000, where `u16::try_from` would answer a Result.
pub fn units_of(c: char) -> Units
    ensures { listed result ≡ utf16 c }
{
    let value = u32::from(c);
    if value < 0x10000 {
        Units::One(value as u16)
    } else {
        let over = value - 0x10000;
        Units::Two(
            (0xD800 + over / 0x400) as u16,
            (0xDC00 + over % 0x400) as u16,
        )
    }
}

// The code point that a high and a low half make.
fn pair_of(high: u16, low: u16) -> UnicodeEscape
    requires { (55296 ≤ high) × ((high ≤ 56319) × ((56320 ≤ low) × (low ≤ 57343))) }
    ensures { unicode_units result ≡ high ∷ low ∷ [] }
{
    let value = u32::from(high - 0xD800) * 0x400 + u32::from(low - 0xDC00) + 0x10000;
    UnicodeEscape::SurrogatePair(unsafe { char::from_u32_unchecked(value) })
}

// One number alone, a surrogate or not.
fn one_of(value: u32) -> UnicodeEscape
    requires { value < 1114112 }
    ensures { unicode_units result ≡ utf16 value }
{
    match char::from_u32(value) {
        Some(c) => UnicodeEscape::CodePoint(c),
        // what is no `char` in this range is a surrogate, which fits
        None => UnicodeEscape::LoneSurrogate(value as u16),
    }
}

fn unicode_units(escape: UnicodeEscape) -> Units
    ensures { listed result ≡ unicode_units escape }
{
    match escape {
        UnicodeEscape::CodePoint(c) | UnicodeEscape::SurrogatePair(c) => units_of(c),
        UnicodeEscape::LoneSurrogate(unit) => Units::One(unit),
    }
}

// A CR, alone or with the LF behind it.
fn return_escape(cursor: Cursor<'_>) -> Given
    requires { Here cursor.bytes.now cursor.place.at 13 }
    ensures { (m : Bool) → Behind m cursor.entry.bytes.now cursor.entry.place.at (Ok result) }
{
    let at = cursor.place();
    Given {
        units: Units::Nothing,
        next: behind::<b'\r', b'\n'>(cursor.bytes(), at).unwrap_or(at + 1),
    }
}

// `x` and two hex digits.
fn hex_escape(cursor: Cursor<'_>) -> Result<Given, Invalid>
    requires { Here cursor.bytes.now cursor.place.at 120 }
    ensures { (m : Bool) → Behind m cursor.entry.bytes.now cursor.entry.place.at result }
{
    let (unit, next) = hex_digits(ahead(cursor, 1), 2)?;
    Ok(Given {
        units: Units::One(unit),
        next,
    })
}

// `u{`, hex digits of a code point, and `}`.
fn braces_escape(cursor: Cursor<'_>, in_template: bool) -> Result<Given, Invalid>
    requires { (Here cursor.bytes.now cursor.place.at 117) × (Here cursor.bytes.now (cursor.place.at + 1) 123) }
    ensures { Behind in_template cursor.entry.bytes.now cursor.entry.place.at result }
{
    match code_point(ahead(cursor, 2)) {
        Err(NoCodePoint::Missing) => Err(Invalid {
            next: cursor.place() + 2,
        }),
        Err(NoCodePoint::Over(to)) if in_template => Err(Invalid {
            next: skip_hex(moved(cursor, to)),
        }),
        Err(NoCodePoint::Over(next)) => Err(Invalid { next }),
        Ok((value, to)) => {
            let behind = moved(cursor, to);
            if !stands_at(behind, b'}') {
                return Err(Invalid { next: to });
            }
            Ok(Given {
                units: unicode_units(one_of(value)),
                next: to + 1,
            })
        }
    }
}

// Takes `\u` and four hex digits of a low half, or nothing: a trial puts the place back on every way out, the project's form for it.
fn low_half(cursor: Cursor<'_>, place: &mut Place) -> Option<u16>
    requires { At cursor.bytes.now place.old.at }
    ensures { MatchOption result (place.new.at ≡ place.old.at) (λ l. Low cursor.entry.bytes.now place.old.at l place.new.at) }
{
    let mut trial = Trial::begin(cursor.bytes(), place);
    if !trial.take_unicode_prefix() {
        return None;
    }
    let (low, to) = hex_digits(moved(cursor, trial.at()), 4).ok()?;
    if !(0xDC00..=0xDFFF).contains(&low) {
        return None;
    }
    trial.move_to(to);
    trial.confirm();
    Some(low)
}

// `u` and four hex digits; behind a high half a low half is taken too.
fn unit_escape(cursor: Cursor<'_>) -> Result<Given, Invalid>
    requires { (Here cursor.bytes.now cursor.place.at 117) × (Ahead (utf8 cursor.bytes.now (cursor.place.at + 1)) (but ((123, 123) ∷ [])) true) }
    ensures { (m : Bool) → Behind m cursor.entry.bytes.now cursor.entry.place.at result }
{
    let (high, to) = hex_digits(ahead(cursor, 1), 4)?;
    let alone = Given {
        units: unicode_units(one_of(u32::from(high))),
        next: to,
    };
    if !matches!(high, 0xD800..=0xDBFF) {
        return Ok(alone);
    }
    let mut place = Place { at: to };
    match low_half(cursor, &mut place) {
        None => Ok(alone),
        Some(low) => Ok(Given {
            units: unicode_units(pair_of(high, low)),
            next: place.at,
        }),
    }
}

// What begins with `u`.
fn unicode_escape(cursor: Cursor<'_>, in_template: bool) -> Result<Given, Invalid>
    requires { Here cursor.bytes.now cursor.place.at 117 }
    ensures { Behind in_template cursor.entry.bytes.now cursor.entry.place.at result }
{
    if stands_at(ahead(cursor, 1), b'{') {
        braces_escape(cursor, in_template)
    } else {
        unit_escape(cursor)
    }
}

// the largest first digit of three octal digits
const FIRST_OF_THREE: u8 = 3;

// An octal digit, with a second one behind it, and a third if the first is 0 to 3. A zero has a decimal digit behind it.
fn octal_escape(cursor: Cursor<'_>, first: u8) -> Given
    requires { (Digit octal_digits cursor.bytes.now cursor.place.at first) × ((first < 8) × ((first ≡ 0 → DecimalAt cursor.bytes.now (cursor.place.at + 1) true))) }
    ensures { Behind false cursor.entry.bytes.now cursor.entry.place.at (Ok result) }
{
    let at = cursor.place();
    let Some(second) = octal_at(ahead(cursor, 1)) else {
        return Given {
            units: Units::One(u16::from(first)),
            next: at + 1,
        };
    };
    let two = u16::from(first * 8 + second);
    if first > FIRST_OF_THREE {
        return Given {
            units: Units::One(two),
            next: at + 2,
        };
    }
    match octal_at(ahead(cursor, 2)) {
        None => Given {
            units: Units::One(two),
            next: at + 2,
        },
        Some(third) => Given {
            units: Units::One(two * 8 + u16::from(third)),
            next: at + 3,
        },
    }
}

// The escape that a character begins, behind which `next` stands.
fn escape_of(cursor: Cursor<'_>, c: char, next: usize, in_template: bool) -> Result<Given, Invalid>
    requires { Stands cursor.bytes.now cursor.place.at c next }
    ensures { Behind in_template cursor.entry.bytes.now cursor.entry.place.at result }
{
    match lead_of(c, decimal_at(moved(cursor, next)), in_template) {
        Lead::LineBreak => Ok(Given {
            units: Units::Nothing,
            next,
        }),
        Lead::Return => Ok(return_escape(cursor)),
        Lead::Single(unit) => Ok(Given {
            units: Units::One(unit),
            next,
        }),
        Lead::Hex => hex_escape(cursor),
        Lead::Unicode => unicode_escape(cursor, in_template),
        Lead::Nul => Ok(Given {
            units: Units::One(0),
            next,
        }),
        Lead::Octal(digit) => Ok(octal_escape(cursor, digit)),
        Lead::ZeroDecimal => Err(Invalid { next: next + 1 }),
        Lead::Decimal => Err(Invalid { next }),
        Lead::Other => Ok(Given {
            units: units_of(c),
            next,
        }),
    }
}

// The escape behind a backslash, or none at the text's end.
pub fn read_escape(cursor: Cursor<'_>, in_template: bool) -> Option<Result<Given, Invalid>>
    ensures { EscapeRead in_template cursor.entry.bytes.now cursor.entry.place.at result }
{
    let (c, next) = cursor.peek_char()?;
    Some(escape_of(cursor, c, next, in_template))
}
