// The stack of source document 000 in a lane: an entry for each run of rows that share a range minimum.
#![tactic(auto)]

ghost use Rattle.std.specs.Prelude.{◌≡◌, ◌+◌};
ghost use Rattle.layout.specs.Words.{Under, bottom, Room};
ghost use Rattle.stack.specs.Calls.{Lowered, Pushed, Entered, Looked, Advanced};
ghost use Rattle.stack.specs.Private.{is_above, Parted, starts_after, Located};

use layout::{Extent, Held, Place};

// How many entries are looked at one by one: from the top down for a value, and from the bottom up for a row's run. What lies behind them is searched by halves.
const LOOKS: usize = 5;

// The lowest of a stack's places whose entry is above a word, or its height where none is: some looks from the top down, and then by halves (source document 000, Theorem 3).
fn taken_over(area: &[u64], e: Extent, word: u64) -> Place
    requires { Room area.now e.height.0 }
    ensures { Parted area.now e.lane e.height word result }
{
    let lane = e.lane;
    Place(halves::first_near_top(
        e.height.0,
        LOOKS,
        |k: usize| -> bool
            requires { Room area.now (k + 1) }
            ensures { result ≡ is_above area.entry.now lane word (record { 0 = k }) }
        { word < area[lane.least(Place(k))] },
    ))
}

// A value comes, as a word. The entries above it are popped, and the lowest of them holds it from then on, with all their runs. The new height.
pub fn lower(area: &mut [u64], e: Extent, word: u64) -> Place
    ensures { Lowered area.old area.new e.lane e.height word result }
{
    if !layout::has_room(area, e.height.0) {
        return e.height;
    }
    let top = taken_over(area, e, word);
    if e.height <= top {
        return e.height;
    }
    area[e.lane.least(top)] = word;
    Place(top.0 + 1)
}

// The row after the last gets a minimum. Source document 000's Mark pushes the value, "unless it is there already": where the top entry is the same word the row joins its run.
// The new height.
#[inline(always)]
pub fn push(area: &mut [u64], e: Extent, word: u64) -> Place
    ensures { Pushed area.old area.new e.lane e.height e.rows word result }
{
    if layout::MOST_ROWS <= e.height.0 {
        return e.height;
    }
    if !layout::has_room(area, e.height.0 + 1) {
        return e.height;
    }
    if Place(0) < e.height {
        if area[e.lane.least(Place(e.height.0 - 1))] == word {
            return e.height;
        }
    }
    area[e.lane.least(e.height)] = word;
    area[e.lane.first(e.height)] = e.rows.0 as u64;
    Place(e.height.0 + 1)
}

// The entry at a place: the word of a minimum.
pub fn entry_at(area: &[u64], e: Extent, place: Place) -> Option<u64>
    ensures { Entered area.now e.lane e.height place result }
{
    if !layout::has_room(area, e.height.0) {
        return None;
    }
    if e.height <= place {
        return None;
    }
    Some(area[e.lane.least(place)])
}

// The run that has a row, from the run that has the row before it: the same, or the next one where it starts at the row.
pub fn advance(area: &[u64], e: Extent, place: Place, row: Held) -> Place
    ensures { Advanced area.now e.lane e.height place row result }
{
    if !layout::has_room(area, e.height.0) {
        return place;
    }
    if e.height <= place {
        return place;
    }
    let next = Place(place.0 + 1);
    if e.height <= next {
        return place;
    }
    if row < Held(area[e.lane.first(next)] as usize) {
        return place;
    }
    next
}

// The place whose run has a row: a predecessor search over the runs' first rows (source document 000, Theorem 3). It is the highest place whose run starts at the row or before it. Of mixed
// values the lowest run is the longest, with about half of all rows, the next one with half of the others, and so on: so some looks from the bottom up come first.
fn covering(area: &[u64], e: Extent, held: Held) -> Place
    requires { Under bottom e.height × Room area.now e.height.0 }
    ensures { Located area.now e.lane e.height held result }
{
    let lane = e.lane;
    Place(halves::first_near_bottom(
        e.height.0 - 1,
        LOOKS,
        |k: usize| -> bool
            requires { Room area.now (k + 2) }
            ensures { result ≡ starts_after area.entry.now lane held (record { 0 = k + 1 }) }
        { held < Held(area[lane.first(Place(k + 1))] as usize) },
    ))
}

// The minimum that the stack has for a row, as a word.
pub fn least_at(area: &[u64], e: Extent, held: Held) -> Option<u64>
    ensures { Looked area.now e.lane e.height held result }
{
    if !layout::has_room(area, e.height.0) {
        return None;
    }
    if e.height == Place(0) {
        return None;
    }
    Some(area[e.lane.least(covering(area, e, held))])
}
