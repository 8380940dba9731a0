// A text: bytes that were checked.
ghost use Rattle.std.specs.Prelude.{◌≡◌, ◌≤◌, [], length, MatchResult};
ghost use Rattle.source.specs.Checks.{NoText};
ghost use Rattle.source.specs.Texts.{WellFormed, IsText, limit};

use refusals::Refusal;

// the largest number of bytes in a text
pub const LIMIT: usize = 16_777_216;

#[derive(Clone, Copy)]
pub struct Text<'a> {
    pub(crate) bytes: &'a [u8],
    ghost well: { WellFormed bytes.now },
    ghost short: { length bytes.now ≤ limit },
}

// The text of these bytes, or why they are none.
impl<'a> TryFrom<&'a [u8]> for Text<'a> {
    type Error = Refusal;

    ghost try_from_gives = { λ bytes result. MatchResult result (λ text. IsText bytes.now × (text.bytes.now ≡ bytes.now)) (λ e. NoText bytes.now e) };

    fn try_from(bytes: &'a [u8]) -> Result<Text<'a>, Refusal> {
        if bytes.len() > LIMIT {
            return Err(Refusal::TooLong);
        }
        std::str::from_utf8(bytes).map_err(|e| Refusal::NotUtf8(e.valid_up_to()))?;
        Ok(Text { bytes })
    }
}

// Whether these bytes are a text, and if not, why.
pub fn check(bytes: &[u8]) -> Result<(), Refusal>
    ensures { MatchResult result (λ _. IsText bytes.now) (λ e. NoText bytes.now e) }
{
    Text::try_from(bytes)?;
    Ok(())
}

impl<'a> Text<'a> {
    // The text of these bytes, and the empty text where they are none.
    pub fn new(bytes: &'a [u8]) -> Text<'a>
        ensures text { IsText bytes.now → result.bytes.now ≡ bytes.now }
        ensures empty { (IsText bytes.now → ⊥) → result.bytes.now ≡ [] }
    {
        Text::try_from(bytes).unwrap_or(Text { bytes: b"" })
    }

    pub fn bytes(self) -> &'a [u8]
        ensures bytes { result.now ≡ self.entry.bytes.now }
        ensures text { IsText result.now }
    {
        self.bytes
    }

    pub fn as_str(self) -> &'a str
        ensures { result.now ≡ self.entry.bytes.now }
    {
        unsafe { std::str::from_utf8_unchecked(self.bytes) }
    }
}
