// A value store over lent 16-bit cells: the units of all values, one after another.
#![tactic(auto)]

ghost use Rattle.std.specs.Prelude.{◌≡◌, min, true, length};
ghost use Rattle.store.specs.Held.{empty};
ghost use Rattle.store.specs.Cuts.{narrow};
ghost use Rattle.cuts.specs.Lists.{used};

mod acts;

use cuts::Cuts;

// Values of 16-bit units, each a list of cells.
#[derive(Drop)]
pub struct Units<'a> {
    cuts: Cuts<'a, u16>,
    ghost small: { narrow (used cuts) ≡ true },
}

impl<'a> Units<'a> {
    ghost use Rattle.units.specs.Views as views;

    // A store of no value over lent cells and places, up to 1,048,576 and 4,096 of them.
    pub fn new(memory: &'a mut [u16], ends: &'a mut [usize]) -> Units<'a>
        ensures empty { views.meaning result ≡ empty (min (length ends.old) 4096) (min (length memory.old) 1048576) }
        ensures cells { views.cells result ≡ memory.old }
        ensures places { views.ends result ≡ ends.old }
    {
        Units {
            cuts: Cuts::new(memory, ends),
        }
    }
}
