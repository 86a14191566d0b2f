// The suffix minima of a stream's last values, in lent words: a monotone deque. An entry comes behind those that it does not take over from; the oldest leaves at the front. Word 0 has the
// front's slot and the number of entries, which stand one behind the other from word 1 + front on. Where they pass the last of the slots, each stands once more as many words lower, so that
// a front that has moved over all of them starts anew at the first.
#![tactic(auto)]

ghost use Rattle.std.specs.Prelude.{◌≡◌, ◌+◌, ◌*◌, ◌<◌, ◌≤◌, leb, length};
ghost use Rattle.history.specs.Minima.{takes_over};
ghost use Rattle.packing.specs.Packing.{value_in, place_in};
ghost use Rattle.deque.specs.Words.{entry_word, entry_at};
ghost use Rattle.deque.specs.Calls.{Cleared, Boundary, SlotAfter, Alone, Repeated, Put, Arrived};

use history::{Minimum, Position};

// The most slots that a deque has.
pub const MOST_SLOTS: usize = 4096;

// How many entries are tried one by one, from the last one down, before the search goes on by halves: mostly few are taken over.
const NEAR: usize = 8;

// Whether a later value takes over from an entry: the choice among equal values, and the one comparison of values here. That of `blocks` is the same test, of two values: both have the definition
// of `history` in their contracts, and what is alike is a `<`.
fn takes_over(later: i32, entry: u64) -> bool
    ensures { result ≡ takes_over later (value_in entry) }
{
    later < packing::unpack(entry).value
}

// No entries.
pub fn clear(area: &mut [u64])
    ensures { Cleared area.old area.new }
{
    if 0 < area.len() {
        area[0] = 0;
    }
}

// A deque's header: its slots, the slot of the front entry, and how many entries stand from there on. The words stay a parameter beside it, for the C interface and as there is no heap: each call
// is lent them anew. In `ranges` a struct over the words was tried: each method that writes then owes a clause that they are the same words still.
#[derive(Clone, Copy)]
struct Ring {
    slots: usize,
    front: usize,
    count: usize,
    ghost few: { slots ≤ 4096 },
    ghost within: { front < slots },
}

impl Ring {
    ghost use Rattle.deque.specs.Left.{gone, Rest, Left};

    // Whether the front entry has to leave: as many positions as there are slots have come since.
    fn is_gone(self, area: &[u64], place: Position) -> bool
        requires { self.slots < length area.now }
        ensures { result ≡ gone area.now self.slots self.front place }
    {
        let front = packing::unpack(area[1 + self.front]).place;
        u64::from(front.0) + self.slots as u64 <= u64::from(place.0)
    }

    // The slot behind the front's: after the last one comes the first.
    fn slot_after(self) -> usize
        ensures { SlotAfter self.slots self.front result }
    {
        if self.front + 1 < self.slots {
            return self.front + 1;
        }
        0
    }

    // Without the front entry, where that has to leave; nothing, where it is the only one.
    fn without_gone(self, area: &[u64], place: Position) -> Option<Ring>
        requires { self.slots < length area.now }
        ensures { Rest area.now self.slots self.front self.count place result }
    {
        if !self.is_gone(area, place) {
            return Some(self);
        }
        if self.count <= 1 {
            return None;
        }
        Some(Ring {
            slots: self.slots,
            front: self.slot_after(),
            count: self.count - 1,
        })
    }

    // What is left of the entries when one comes at a position. Nothing, where none is, or where the header cannot be the deque's. Its two numbers are halves of one word, which is read here alone
    // and written by `put` and `alone`: a type with conversions for it would serve these three lines, and be no plainer.
    fn left(area: &[u64], slots: usize, place: Position) -> Option<Ring>
        requires { (0 < slots) × (slots ≤ 4096) × (slots < length area.now) }
        ensures { Left area.now slots place result }
    {
        let front = (area[0] / 65536) as usize;
        let count = (area[0] % 65536) as usize;
        if slots <= front {
            return None;
        }
        let ring = Ring {
            slots,
            front,
            count,
        }
        .without_gone(area, place)?;
        if slots <= ring.count {
            return None;
        }
        Some(ring)
    }

    // The first of the entries that a value takes over, or how many there are where it takes over none.
    fn taken_over(self, area: &[u64], v: i32) -> usize
        requires { (self.count < self.slots) × (2 * self.slots ≤ length area.now) }
        ensures { Boundary area.now self.front self.count v result }
    {
        let front = self.front;
        halves::first_near_top(
            self.count,
            NEAR,
            |k: usize| -> bool
                requires { 1 + front + k < length area.now }
                ensures { result ≡ takes_over v (entry_at area.entry.now front k).value }
            { takes_over(v, area[1 + front + k]) },
        )
    }

    // An entry comes behind those that it does not take over from. What is returned is the front entry then.
    fn put(self, area: &mut [u64], m: Minimum) -> Minimum
        requires { (self.count < self.slots) × (2 * self.slots ≤ length area.old) }
        ensures { Put area.old area.new self.slots self.front self.count m result }
    {
        let k = self.taken_over(area, m.value);
        let at = 1 + self.front + k;
        let word = packing::pack(m);
        area[at] = word;
        repeat(area, self.slots, at, word);
        area[0] = (self.front * 65536 + k + 1) as u64;
        packing::unpack(area[1 + self.front])
    }
}

// An entry that is the only one.
fn alone(area: &mut [u64], m: Minimum) -> Minimum
    requires { 1 < length area.old }
    ensures { Alone area.old area.new m result }
{
    area[1] = packing::pack(m);
    area[0] = 1;
    m
}

// A word beyond the slots stands once more, as many words lower.
fn repeat(area: &mut [u64], slots: usize, at: usize, word: u64)
    requires { at < length area.old }
    ensures { Repeated area.old area.new slots at word }
{
    if slots < at {
        area[at - slots] = word;
    }
}

// A value comes at the next position, and the one that is as many positions older as there are slots leaves. What is returned is the least of those that are left. A header that cannot be the
// deque's counts as that of no entries.
pub fn arrive(area: &mut [u64], slots: usize, m: Minimum) -> Minimum
    ensures { Arrived area.old area.new slots m result }
{
    if slots < 1 || MOST_SLOTS < slots || area.len() < 2 * slots {
        return m;
    }
    match Ring::left(area, slots, m.place) {
        Some(ring) => ring.put(area, m),
        None => alone(area, m),
    }
}
