ghost use Rattle.std.specs.Prelude.{◌≡◌, ◌≤◌, false, [], ◌∷◌, ◌++◌, length, take, drop, min, is_ok, if◌then◌else◌, nat_lt};

// No cell is free for one item more.
#[derive(Clone, Copy, PartialEq, Eq, Debug)]
pub struct Full;

// Items in the first cells of memory that somebody else owns, in the order in which they came: at most `MOST` of them.
#[derive(Drop)]
pub struct Lent<'a, T, const MOST: usize> {
    memory: &'a mut [T],
    used: usize,
    ghost fits: { used ≤ min (length memory.now) MOST },
}

impl<'a, T: Copy, const MOST: usize> Lent<'a, T, MOST> {
    ghost use Rattle.lent.specs.Items.{items_of, memory_of, room_of, free, pushed};

    // No item. No cell is written.
    pub fn new(memory: &'a mut [T]) -> Lent<'a, T, MOST>
        ensures empty { items_of result ≡ [] }
        ensures memory { memory_of result ≡ memory.old }
    {
        Lent { memory, used: 0 }
    }

    // How many items there may be.
    pub fn room(&self) -> usize
        ensures { result ≡ room_of self.now }
    {
        self.memory.len().min(MOST)
    }

    // How many items there are.
    pub fn len(&self) -> usize
        ensures number { result ≡ length (items_of self.now) }
        ensures fits { result ≤ room_of self.now }
    {
        self.as_slice().len()
    }

    // The items.
    pub fn as_slice(&self) -> &[T]
        ensures { result.now ≡ items_of self.now }
    {
        &self.memory[..self.used]
    }

    // One item more.
    pub fn push(&mut self, item: T) -> Result<(), Full>
        ensures answer { is_ok result ≡ free self.old }
        ensures items { items_of self.new ≡ (if free self.old then items_of self.old ++ (item ∷ []) else items_of self.old) }
        ensures memory { memory_of self.new ≡ pushed self.old item }
        ensures refused { free self.old ≡ false → memory_of self.new ≡ memory_of self.old }
        ensures past { drop MOST (memory_of self.new) ≡ drop MOST (memory_of self.old) }
        ensures room { room_of self.new ≡ room_of self.old }
        ensures lent { self.new.memory.ghost_name ≡ self.old.memory.ghost_name }
    {
        if self.used >= self.room() {
            return Err(Full);
        }
        self.memory[self.used] = item;
        self.used += 1;
        Ok(())
    }

    // Keeps the first `many` items. No cell is written.
    pub fn truncate(&mut self, many: usize)
        ensures items { items_of self.new ≡ take many (items_of self.old) }
        ensures memory { memory_of self.new ≡ memory_of self.old }
        ensures lent { self.new.memory.ghost_name ≡ self.old.memory.ghost_name }
    {
        self.used = self.used.min(many);
    }
}
