//! A list of distinct slots.
ghost use Rattle.std.specs.Prelude.{◌≡◌, ◌<◌, ◌≤◌, ◌⊎◌, true, false, [], ◌∷◌, ◌++◌, length, slice_get, option_copied, IfOk, Contains};
ghost use Rattle.ld_graph.specs.Slots.{AreDistinct};
ghost use Rattle.ld_graph.specs.Buckets.{bucket_of, Emptied};

use ld_base::NoMemory;
use std::alloc::Global;
use std::marker::Model;

/// A list of distinct slots with a bound on their number, seen by contracts as its slots in the
/// order in which they came, and the bound.
///
/// A slot is found by the bucket that it falls into. There are four times as many buckets as the
/// list has room for slots, or more, so most of them are empty; their number is a power of two, so
/// that a mask picks one. A list without room may have none.
#[derive(Drop)]
pub struct SlotList {
    slots: Vec<u32>,
    // for each slot the one before it in its bucket, as its index and one, or 0
    before: Vec<u32>,
    // for each bucket its last slot, as its index and one, or 0
    heads: Vec<u32>,
    room: u32,
}

impl Model for SlotList {
    ghost use Rattle.ld_graph.specs.Slots.{Slots};
    ghost use Rattle.std.specs.Prelude.{vec_capacity};
    ghost use Rattle.ld_graph.specs.Buckets.{IsSlotList};

    ghost Value = { Slots };

    ghost view = { λ l. record { items = l.slots.items; room = l.room } };

    ghost invariant = { λ l. IsSlotList l.slots.items l.before.items l.heads.items l.room
        (vec_capacity l.slots) (vec_capacity l.before) };
}

impl SlotList {
    /// An empty list that takes `room` slots without asking for memory again.
    pub fn with_room(alloc: Global, room: u32) -> Result<SlotList, NoMemory>
        ensures empty { IfOk result (λ l. l.items ≡ []) }
        ensures room { IfOk result (λ l. l.room ≡ room) }
    {
        let slots = Vec::with_capacity(alloc, room as usize)?;
        let before = Vec::with_capacity(alloc, room as usize)?;
        let mut heads = Vec::new(alloc);
        heads.resize(bucket_count(room), 0)?;
        Ok(SlotList {
            slots,
            before,
            heads,
            room,
        })
    }

    /// An empty list without room, which takes no memory.
    pub fn new(alloc: Global) -> SlotList
        ensures empty { result.items ≡ [] }
        ensures room { result.room ≡ 0 }
    {
        SlotList {
            slots: Vec::new(alloc),
            before: Vec::new(alloc),
            heads: Vec::new(alloc),
            room: 0,
        }
    }

    /// Puts a slot at the end, if it is not in the list.
    pub fn put(&mut self, slot: u32)
        requires { Contains self.old.items slot ⊎ (length self.old.items < self.old.room) }
        ensures kept { Contains self.old.items slot → self.new.items ≡ self.old.items }
        ensures added { (Contains self.old.items slot → ⊥)
            → self.new.items ≡ self.old.items ++ slot ∷ [] }
        ensures room { self.new.room ≡ self.old.room }
    {
        if self.contains(slot) {
            return;
        }
        self.add(slot);
    }

    /// Empties the list and keeps its room, in time that grows with its length alone.
    pub fn clear(&mut self)
        ensures empty { self.new.items ≡ [] }
        ensures room { self.new.room ≡ self.old.room }
    {
        if self.slots.is_empty() {
            return;
        }
        empty_buckets(&mut self.heads, &self.slots);
        self.slots.clear();
        self.before.clear();
    }

    /// The number of slots.
    pub fn len(&self) -> usize
        ensures value { result ≡ length self.now.items }
        ensures room { result ≤ self.now.room }
    {
        self.slots.len()
    }

    /// How many slots it can hold in all.
    pub fn room(&self) -> u32
        ensures { result ≡ self.now.room }
    {
        self.room
    }

    /// The slot at an index counted from 0; None exactly where the index is not below the length.
    pub fn get(&self, index: usize) -> Option<&u32>
        ensures { option_copied result ≡ slice_get self.now.items index }
    {
        self.slots.get(index)
    }

    /// The slots as a slice, none of them twice.
    pub fn as_slice(&self) -> &[u32]
        ensures value { result.now ≡ self.now.items }
        ensures once { AreDistinct self.now.items }
        ensures room { length self.now.items ≤ self.now.room }
    {
        self.slots.as_slice()
    }

    /// Whether the slot is in the list: it looks at those of one bucket alone.
    pub fn contains(&self, slot: u32) -> bool
        ensures yes { result ≡ true → Contains self.now.items slot }
        ensures no { result ≡ false → Contains self.now.items slot → ⊥ }
    {
        if self.slots.is_empty() {
            return false;
        }
        let mut link = self.heads[bucket_of(slot, self.heads.len())];
        'bucket: while link > 0 {
            let index = (link - 1) as usize;
            if self.slots[index] == slot {
                return true;
            }
            link = self.before[index];
        }
        false
    }

    /// Puts a slot at the end that is not in the list.
    fn add(&mut self, slot: u32)
        requires new { Contains self.old.items slot → ⊥ }
        requires room { length self.old.items < self.old.room }
        ensures items { self.new.items ≡ self.old.items ++ slot ∷ [] }
        ensures room { self.new.room ≡ self.old.room }
    {
        let bucket = bucket_of(slot, self.heads.len());
        let last = self.heads[bucket];
        self.slots.push(slot).unwrap();
        self.before.push(last).unwrap();
        self.heads[bucket] = self.slots.len() as u32;
    }
}

/// How many buckets a list with room for this many slots has.
fn bucket_count(room: u32) -> usize
    ensures { 0 < result }
{
    ((room as usize + 1) * 4).next_power_of_two()
}

/// The bucket of a slot: its product with an odd number near 2^32 over the golden ratio spreads the
/// slots that differ by a fixed step, and a mask leaves the lower bits of what is spread.
fn bucket_of(slot: u32, buckets: usize) -> usize
    requires { 0 < buckets }
    ensures value { result ≡ bucket_of slot buckets }
    ensures below { result < buckets }
{
    (slot as u64 * 2_654_435_761 >> 16) as usize & (buckets - 1)
}

/// Empties the buckets of the slots.
fn empty_buckets(heads: &mut Vec<u32>, slots: &[u32])
    requires { 0 < length heads.old.items }
    ensures { Emptied slots.now heads.old.items heads.new.items (length slots.now) }
{
    for slot in slots {
        let bucket = bucket_of(*slot, heads.len());
        heads[bucket] = 0;
    }
}
