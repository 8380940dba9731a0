ghost use Rattle.std.specs.Prelude.{◌≡◌, ◌+◌, ◌<◌, ◌≤◌, min, true, [], ◌∷◌, ◌++◌, length, take, if◌then◌else◌, Ok, Err, MatchResult, slice_index_or, slice_set};
ghost use Rattle.refusals.specs.declared.Refusal.TheVariants.{IndexPastEnd, NoPlace, NoCapacity};
ghost use Rattle.lent.specs.Items.{items_of, pushed};
ghost use Rattle.store.specs.Cuts.{final, ordered, laid};
ghost use Rattle.store.specs.Leaves.{PutLeaves, CloseLeaves, LeavesAll};

use lent::Lent;
use refusals::Refusal;
use std::ops::Range;

// Lists one after another in lent cells, the last of them open: at most 1,048,576 cells and 4,096 finished lists.
#[derive(Drop)]
pub struct Cuts<'a, T> {
    cells: Lent<'a, T, 1048576>,
    // where each finished list ends
    ends: Lent<'a, usize, 4096>,
    ghost rising: { ordered 0 (items_of ends) (length (items_of cells)) ≡ true },
}

impl<'a, T: Copy> Cuts<'a, T> {
    ghost use Rattle.cuts.specs.Lists.{memory, table, used, marks, finished, lists, opened, capacity_of, places_of, has_cell, takes, has_place, Stays, SameLists, IsPlace};

    // No list, and an empty one open. No cell is written.
    pub fn new(cells: &'a mut [T], ends: &'a mut [usize]) -> Cuts<'a, T>
        ensures lists { lists result ≡ [] }
        ensures draft { opened result ≡ [] }
        ensures cells { memory result ≡ cells.old }
        ensures places { table result ≡ ends.old }
    {
        Cuts {
            cells: Lent::new(cells),
            ends: Lent::new(ends),
        }
    }

    // How many lists are finished.
    #[tactic(auto, using(store::proofs::Parts::cut_length))]
    pub fn count(&self) -> usize
        ensures { result ≡ length (lists self.now) }
    {
        self.ends.len()
    }

    // How many lists may be finished.
    pub fn places(&self) -> usize
        ensures { result ≡ places_of self.now }
    {
        self.ends.room()
    }

    // How many cells all lists may have.
    pub fn capacity(&self) -> usize
        ensures { result ≡ capacity_of self.now }
    {
        self.cells.room()
    }

    // The cells of all lists, one after another, the open one last.
    pub fn all(&self) -> &[T]
        ensures { result.now ≡ used self.now }
    {
        self.cells.as_slice()
    }

    // The cells of the open list.
    pub fn open(&self) -> &[T]
        ensures { result.now ≡ opened self.now }
    {
        &self.all()[self.open_start()..]
    }

    // Where finished list `n` stands in all cells.
    pub fn place(&self, n: usize) -> Result<Range<usize>, Refusal>
        ensures { MatchResult result (λ p. IsPlace self.now n p.start p.end) (λ e. (length (lists self.now) ≤ n) × (e ≡ IndexPastEnd)) }
    {
        let end = *self.ends.as_slice().get(n).ok_or(Refusal::IndexPastEnd)?;
        Ok(self.start_of(n)..end)
    }

    // The cells of finished list `n`.
    pub fn part(&self, n: usize) -> Result<&[T], Refusal>
        ensures { MatchResult result (λ us. (n < length (lists self.now)) × (us.now ≡ slice_index_or (lists self.now) n [])) (λ e. (length (lists self.now) ≤ n) × (e ≡ IndexPastEnd)) }
    {
        let place = self.place(n)?;
        Ok(&self.all()[place])
    }

    // One cell more in the open list.
    pub fn push(&mut self, item: T) -> Result<(), Refusal>
        ensures answer { result ≡ (if has_cell self.old then Ok tt else Err NoCapacity) }
        ensures cells { used self.new ≡ (if has_cell self.old then used self.old ++ (item ∷ []) else used self.old) }
        ensures draft { opened self.new ≡ (if has_cell self.old then opened self.old ++ (item ∷ []) else opened self.old) }
        ensures lists { SameLists self.old self.new }
        ensures stays { Stays self.old self.new }
        ensures memory { memory self.new ≡ pushed self.old.cells item }
        ensures leaves { PutLeaves (has_cell self.old) (finished self.old) (memory self.old) (memory self.new) (table self.old) (table self.new) }
    {
        self.cells.push(item).map_err(|_| Refusal::NoCapacity)
    }

    // Keeps the first `kept` cells of the open list and puts these items behind them, or changes nothing where they do not all fit.
    pub fn put_behind(&mut self, kept: usize, items: &[T]) -> Result<(), Refusal>
        ensures answer { result ≡ (if takes self.old (take kept (opened self.old) ++ items.now) then Ok tt else Err NoCapacity) }
        ensures draft { opened self.new ≡ (if takes self.old (take kept (opened self.old) ++ items.now) then take kept (opened self.old) ++ items.now else opened self.old) }
        ensures lists { SameLists self.old self.new }
        ensures stays { Stays self.old self.new }
        ensures memory { memory self.new ≡ (if takes self.old (take kept (opened self.old) ++ items.now) then laid (memory self.old) (finished self.old + min (length (opened self.old)) kept) items.now else memory self.old) }
        ensures leaves { PutLeaves (takes self.old (take kept (opened self.old) ++ items.now)) (finished self.old) (memory self.old) (memory self.new) (table self.old) (table self.new) }
    {
        let from = self.open_start().saturating_add(kept).min(self.all().len());
        if items.len() > self.capacity() - from {
            return Err(Refusal::NoCapacity);
        }
        self.cells.truncate(from);
        for item in items {
            self.push(*item)?;
        }
        Ok(())
    }

    // Finishes the open list, leaves an empty one open, and answers its number.
    #[tactic(auto, using(store::proofs::Parts::cut_length))]
    pub fn close(&mut self) -> Result<usize, Refusal>
        ensures answer { result ≡ (if has_place self.old then Ok (length (lists self.old)) else Err NoPlace) }
        ensures cells { used self.new ≡ used self.old }
        ensures lists { lists self.new ≡ (if has_place self.old then lists self.old ++ (opened self.old ∷ []) else lists self.old) }
        ensures draft { opened self.new ≡ (if has_place self.old then [] else opened self.old) }
        ensures stays { Stays self.old self.new }
        ensures table { table self.new ≡ (if has_place self.old then slice_set (table self.old) self.old.ends.used self.old.cells.used else table self.old) }
        ensures leaves { CloseLeaves (has_place self.old) (length (lists self.old)) (memory self.old) (memory self.new) (table self.old) (table self.new) }
    {
        let number = self.count();
        let end = self.cells.len();
        self.ends.push(end).map_err(|_| Refusal::NoPlace)?;
        Ok(number)
    }

    // Empties the open list.
    pub fn drop_open(&mut self)
        ensures cells { used self.new ≡ take (finished self.old) (used self.old) }
        ensures lists { SameLists self.old self.new }
        ensures draft { opened self.new ≡ [] }
        ensures stays { Stays self.old self.new }
        ensures leaves { LeavesAll (memory self.old) (memory self.new) (table self.old) (table self.new) }
    {
        let start = self.open_start();
        self.cells.truncate(start);
    }

    // Where the open list begins.
    fn open_start(&self) -> usize
        ensures { result ≡ finished self.now }
    {
        self.start_of(self.ends.len())
    }

    // Where list `n` begins: at the end of the one before it.
    #[tactic(auto, using(crate::proofs::Cutting::last_is))]
    fn start_of(&self, n: usize) -> usize
        requires { n ≤ length (marks self.now) }
        ensures { result ≡ final 0 (take n (marks self.now)) }
    {
        self.ends.as_slice()[..n].last().copied().unwrap_or(0)
    }
}
