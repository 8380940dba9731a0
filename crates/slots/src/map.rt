ghost use Rattle.std.specs.Prelude.{◌≡◌, true, false, List, [], map, length, drop, if◌then◌else◌, Ok, Err, is_some};
ghost use Rattle.refusals.specs.Numbers.{numbered};
ghost use Rattle.lent.specs.Items as lent;
ghost use Rattle.slots.specs.Entries.{lookup, has_slot, inserted, distinct, OneAStart};
ghost use Rattle.slots.specs.Slots.{told, entries};

use lent::Lent;
use refusals::Refusal;

// A slot for an entry: a start and the value held for it.
#[derive(Clone, Copy)]
pub struct Slot<V> {
    start: usize,
    value: V,
}

impl<V: Copy> Slot<V> {
    // A slot to lend. The value is there to fill it, and never read.
    pub fn new(value: V) -> Slot<V>
        ensures { told result ≡ (0, value) }
    {
        Slot { start: 0, value }
    }
}

// Entries in lent slots, in the order in which they came, at most 4,096. No start has two, whoever hands the map over.
#[derive(Drop)]
pub struct SlotMap<'a, V> {
    slots: Lent<'a, Slot<V>, 4096>,
    ghost unique: { distinct (entries (lent.items_of slots)) ≡ true },
}

impl<'a, V: Copy> SlotMap<'a, V> {
    ghost use Rattle.slots.specs.Views.{slots_of, entries_of, room_of};

    // A map of no entry. No slot is written.
    pub fn new(slots: &'a mut [Slot<V>]) -> SlotMap<'a, V>
        ensures empty { entries_of result ≡ [] }
        ensures slots { slots_of result ≡ slots.old }
    {
        SlotMap {
            slots: Lent::new(slots),
        }
    }

    // How many entries there may be: the slots that were lent, up to 4,096.
    pub fn room(&self) -> usize
        ensures { result ≡ room_of self.now }
    {
        self.slots.room()
    }

    // How many entries there are, each of another start.
    #[tactic(auto, using(crate::proofs::Distincts::one_a_start))]
    pub fn count(&self) -> usize
        ensures number { result ≡ length (entries_of self.now) }
        ensures unique { OneAStart (entries_of self.now) }
    {
        self.slots.len()
    }

    // The value held for a start, by a walk over the slots: they are lent, and a map of the library would need memory of its own.
    pub fn find(&self, start: usize) -> Option<V>
        ensures { result ≡ lookup (entries_of self.now) start }
    {
        look(self.slots.as_slice(), start)
    }

    // One entry more. A start that has one keeps it.
    #[tactic(auto, using(crate::proofs::Distincts::distinct_pushed))]
    pub fn insert(&mut self, start: usize, value: V) -> Result<(), Refusal>
        ensures answer { numbered result ≡ (if has_slot (entries_of self.old) (room_of self.old) then Ok tt else Err 10) }
        ensures after { entries_of self.new ≡ inserted (entries_of self.old) (room_of self.old) start value }
        ensures slots { slots_of self.new ≡ (if is_some (lookup (entries_of self.old) start) then slots_of self.old else lent.pushed self.old.slots (record { start = start; value = value })) }
        ensures refused { has_slot (entries_of self.old) (room_of self.old) ≡ false → slots_of self.new ≡ slots_of self.old }
        ensures past { drop 4096 (slots_of self.new) ≡ drop 4096 (slots_of self.old) }
        ensures room { room_of self.new ≡ room_of self.old }
        ensures lent { self.new.slots.memory.ghost_name ≡ self.old.slots.memory.ghost_name }
    {
        if self.count() >= self.room() {
            return Err(Refusal::NoSlot);
        }
        if self.find(start).is_some() {
            return Ok(());
        }
        let slot = Slot { start, value };
        self.slots.push(slot).map_err(|_| Refusal::NoSlot)
    }

    // Frees every slot. None is written.
    pub fn clear(&mut self)
        ensures after { entries_of self.new ≡ [] }
        ensures slots { slots_of self.new ≡ slots_of self.old }
        ensures lent { self.new.slots.memory.ghost_name ≡ self.old.slots.memory.ghost_name }
    {
        self.slots.truncate(0);
    }
}

// What the slots hold for a start: that of the first that has it. A `for`, since a `find` and a `map` take a step more for each slot.
fn look<V: Copy>(slots: &[Slot<V>], start: usize) -> Option<V>
    ensures { result ≡ lookup (entries slots.now) start }
{
    for slot in slots {
        if slot.start == start {
            return Some(slot.value);
        }
    }
    None
}
