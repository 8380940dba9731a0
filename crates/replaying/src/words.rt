ghost use Rattle.std.specs.Prelude.{◌≡◌, ◌≢◌, ◌⊎◌, ◌<◌, [], length, IsOkAnd, IfOk, IfErr, codes};
ghost use Rattle.std.specs.List.{before_first, after_first};
ghost use Rattle.hex.specs.Hex.{decode_of};
ghost use Rattle.replaying.specs.Words.{is_space, digit_pairs_of};
ghost use Rattle.hex.specs.declared.error.FromHexError.TheVariants.{OutOfMemory};

use anyhow::Context;
use hex::FromHexError;
use std::alloc::Global;

// The first word of a line, and what stands behind its space.
pub fn cut(line: &str) -> anyhow::Result<(&str, &str)>
    ensures word { IfOk result (λ r. r.0.now ≡ before_first is_space line.now) }
    ensures rest { IfOk result (λ r. r.1.now ≡ after_first is_space line.now) }
    ensures found { IfOk result (λ r. length r.0.now < length line.now) }
    ensures short { IfErr result (λ _. before_first is_space line.now ≡ line.now) }
{
    line.split_once(' ').context("a line is too short")
}

// The hex digits that a word begins with, in pairs: a lone last one is left out.
pub fn digit_pairs(word: &str) -> &str
    ensures { result.now ≡ digit_pairs_of word.now }
{
    let digits = word
        .bytes()
        .position(|b| !b.is_ascii_hexdigit())
        .unwrap_or(word.len());
    &word[..digits - digits % 2]
}

// The bytes that a word of hex digits writes; `-` writes none.
pub fn unhexed(heap: Global, word: &str) -> Result<Vec<u8>, FromHexError>
    ensures dash { word.now ≡ codes "-" → IsOkAnd result (λ bytes. bytes.items ≡ []) }
    ensures digits { word.now ≢ codes "-" → IfOk result (λ bytes. decode_of word.now ≡ Ok bytes.items) }
    ensures refused { IfErr result (λ e. (e ≡ OutOfMemory) ⊎ (decode_of word.now ≡ Err e)) }
{
    if word == "-" {
        return Ok(Vec::new(heap));
    }
    hex::decode(heap, word)
}

#[cfg(test)]
mod tests {
    use super::{cut, digit_pairs, unhexed};
    use std::test::Fail;

    #[test]
    fn words_are_cut(rt: HostRuntime) -> Result<(), Fail> {
        let (word, rest) = cut("text C280 ok")?;
        assert_eq!(rt; word, "text");
        assert_eq!(rt; rest, "C280 ok");
        assert!(rt; cut("text").is_err());
        Ok(())
    }

    #[test]
    fn digits_are_paired(rt: HostRuntime) -> Result<(), Fail> {
        assert_eq!(rt; digit_pairs("C28041"), "C28041");
        assert_eq!(rt; digit_pairs("C28"), "C2");
        assert_eq!(rt; digit_pairs("C280x1"), "C280");
        assert_eq!(rt; digit_pairs("-"), "");
        Ok(())
    }

    #[test]
    fn digits_write_bytes(rt: HostRuntime) -> Result<(), Fail> {
        let bytes = unhexed(rt.alloc(), "C28041")?;
        assert_eq!(rt; bytes.as_slice(), [0xC2, 0x80, 0x41].as_slice());
        assert!(rt; unhexed(rt.alloc(), "-")?.is_empty());
        assert!(rt; unhexed(rt.alloc(), "C").is_err());
        Ok(())
    }
}
