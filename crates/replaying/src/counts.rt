ghost use Rattle.std.specs.Prelude.{◌≡◌, ◌+◌, ◌<◌, ◌^◌, IfOk, if◌then◌else◌, ◌++◌, codes, Some};
ghost use Rattle.std.specs.Fmt.{decimal};
ghost use Rattle.replaying.specs.Calls.{Counts};

use std::fmt;

// How many lines give the answer that they expect, and how many another.
#[derive(Clone, Copy, Debug, Default, PartialEq, Eq)]
pub struct Tally {
    pub agree: u64,
    pub differ: u64,
}

impl Tally {
    fn count(&mut self, agrees: bool)
        requires { self.old.agree + self.old.differ + 1 < 2 ^ 64 }
        ensures agree { self.new.agree ≡ self.old.agree + (if agrees then 1 else 0) }
        ensures differ { self.new.differ ≡ self.old.differ + (if agrees then 0 else 1) }
    {
        if agrees {
            self.agree += 1;
        } else {
            self.differ += 1;
        }
    }
}

impl fmt::Display for Tally {
    ghost output = { λ t. Some (decimal t.agree ++ codes " agree, " ++ decimal t.differ ++ codes " differ") };

    fn fmt<W: fmt::Write>(&self, f: &mut fmt::Formatter<W>) -> fmt::Result {
        let Tally { agree, differ } = *self;
        write!(f, "{agree} agree, {differ} differ")
    }
}

// Asks about each line of a text whether it agrees, and prints those that do not.
pub fn replay<R: Print, F: FnMut(&str) -> anyhow::Result<bool>>(
    rt: &R,
    text: &str,
    mut agrees: F,
) -> anyhow::Result<Tally>
    requires { F.IsAlwaysCallable agrees }
    ensures { IfOk result (λ t. Counts F.step (λ line. line.now) agrees text.now t.agree t.differ) }
{
    let mut tally = Tally::default();
    for line in text.lines() {
        let same = agrees(line)?;
        if !same {
            println!(rt; "differs: {line}")?;
        }
        tally.count(same);
    }
    Ok(tally)
}

#[cfg(test)]
mod tests {
    use super::{Tally, replay};
    use std::test::Fail;

    #[test]
    fn lines_are_counted(rt: HostRuntime) -> Result<(), Fail> {
        let mut asked = 0u64;
        let tally = replay(&rt, "one\ntwo\none\n", |line| {
            asked = asked.saturating_add(1);
            Ok(line == "one")
        })?;
        let expected = Tally {
            agree: 2,
            differ: 1,
        };
        assert_eq!(rt; tally, expected);
        assert_eq!(rt; asked, 3);
        Ok(())
    }
}
