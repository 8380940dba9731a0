// The trait of stop sets, and the three sets of the scanners, each a table of 256 entries.
ghost use Rattle.std.specs.Prelude.{◌≡◌, ℕ, Bool, refl};
ghost use Rattle.stops.specs.Stops.{Safe, tabled, double, single, template};
ghost use Rattle.stops.specs.Entries.{safe_rule};

use crate::tables::{DOUBLE_QUOTE, SINGLE_QUOTE, TEMPLATE};

pub trait StopSet {
    // which bytes stop
    ghost stops: { Self → ℕ → Bool };

    // The entries of all 256 bytes.
    fn table(&self) -> &[bool; 256]
        ensures { result.now ≡ tabled (stops self.now) 0 256 };

    // Whether a byte stops.
    fn has(&self, b: u8) -> bool
        ensures { result ≡ stops self.now b }
    {
        self.table()[b as usize]
    }

    // every byte C0 to F7 stops, or no byte 80 to BF does
    ghost safe: { (s : Self) → Safe (stops s) };
}

// A type for each set, so that the search is compiled for its table. One generic type would be no
// plainer: a table, a rule and the test of the law are all that an impl says, and all three differ.

// `"`, `\`, CR and LF.
#[derive(Clone, Copy)]
pub struct DoubleQuote;

impl StopSet for DoubleQuote {
    ghost stops = { λ _. double };

    // the law, by one test of the whole table
    ghost safe = { λ s. safe_rule double refl refl };

    fn table(&self) -> &[bool; 256] {
        &DOUBLE_QUOTE
    }
}

// `'`, `\`, CR and LF.
#[derive(Clone, Copy)]
pub struct SingleQuote;

impl StopSet for SingleQuote {
    ghost stops = { λ _. single };

    // the law, by one test of the whole table
    ghost safe = { λ s. safe_rule single refl refl };

    fn table(&self) -> &[bool; 256] {
        &SINGLE_QUOTE
    }
}

// `$`, `` ` ``, CR and `\`.
#[derive(Clone, Copy)]
pub struct Template;

impl StopSet for Template {
    ghost stops = { λ _. template };

    // the law, by one test of the whole table
    ghost safe = { λ s. safe_rule template refl refl };

    fn table(&self) -> &[bool; 256] {
        &TEMPLATE
    }
}
