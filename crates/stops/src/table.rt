// A stop set that a caller sets at run time. No scan uses one.
ghost use Rattle.std.specs.Prelude.{◌≡◌, ◌<◌, ◌≤◌, true, false, length, MatchResult, slice_index_or};
ghost use Rattle.refusals.specs.declared.Refusal.TheVariants.{UnlawfulPattern};
ghost use Rattle.stops.specs.Stops.{every, lawful, tabled, wanted};
ghost use Rattle.stops.specs.Entries.{safe_at};

use crate::sets::StopSet;
use refusals::Refusal;

#[derive(Drop)]
pub struct Table {
    // an entry for each byte, the project's form of a stop set
    stops: [bool; 256],
    ghost whole: { length stops ≡ 256 },
    ghost lawful: { lawful stops ≡ true },
}

impl Table {
    // The table of no stops.
    pub fn new() -> Table
        ensures { result.stops ≡ tabled (λ _. false) 0 256 }
    {
        Table {
            stops: [false; 256],
        }
    }

    // Takes a lawful pattern over; an unlawful one is refused, and the old table kept.
    pub fn set(&mut self, pattern: &[bool; 256]) -> Result<(), Refusal>
        ensures { MatchResult result (λ _. (lawful pattern.now ≡ true) × (self.new.stops ≡ pattern.now)) (λ e. (e ≡ UnlawfulPattern) × (lawful pattern.now ≡ false) × (self.new.stops ≡ self.old.stops)) }
    {
        if all_are(pattern, 0xC0, 0xF7, true) || all_are(pattern, 0x80, 0xBF, false) {
            self.stops = *pattern;
            Ok(())
        } else {
            Err(Refusal::UnlawfulPattern)
        }
    }
}

// Whether every entry from one place to another is the wanted one.
fn all_are(pattern: &[bool; 256], from: usize, to: usize, want: bool) -> bool
    requires { (from ≤ to) × (to < 256) }
    ensures { result ≡ every (wanted from to want) 0 pattern.now }
{
    pattern[from..to + 1].iter().all(|stops| *stops == want)
}

impl StopSet for Table {
    ghost stops = { λ t b. slice_index_or t.stops b false };

    // the law, from the table's own invariant
    ghost safe = { λ s. safe_at s.stops s.whole s.lawful };

    fn table(&self) -> &[bool; 256] {
        &self.stops
    }
}
