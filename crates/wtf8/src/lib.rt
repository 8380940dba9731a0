// A value store over lent bytes: the WTF-8 of all values, one after another.
#![tactic(auto)]

ghost use Rattle.std.specs.Prelude.{◌≡◌, min, map, length};
ghost use Rattle.store.specs.Held.{empty};
ghost use Rattle.cuts.specs.Lists.{lists, opened};
ghost use Rattle.coding.specs.Codes.{recode};

mod acts;

pub use acts::Place;
use cuts::Cuts;

// Values as WTF-8, each a list of bytes.
#[derive(Drop)]
pub struct Wtf8<'a> {
    cuts: Cuts<'a, u8>,
    ghost whole: { map recode (lists cuts) ≡ lists cuts },
    ghost fresh: { recode (opened cuts) ≡ opened cuts },
}

impl<'a> Wtf8<'a> {
    ghost use Rattle.wtf8.specs.Views as views;

    // A store of no value over lent bytes and places, up to 1,048,576 and 4,096 of them.
    pub fn new(memory: &'a mut [u8], ends: &'a mut [usize]) -> Wtf8<'a>
        ensures empty { views.meaning result ≡ empty (min (length ends.old) 4096) (min (length memory.old) 1048576) }
        ensures cells { views.cells result ≡ memory.old }
        ensures places { views.ends result ≡ ends.old }
    {
        Wtf8 {
            cuts: Cuts::new(memory, ends),
        }
    }
}
