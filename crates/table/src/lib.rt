// The marks of a lane: rows in the order of their positions, and hash chains that lead to them. No head is cleared when a lane is taken into use: a bucket with a row of
// this use has a head of this use, and from any other head a walk meets only rows of other positions.
#![tactic(auto)]

ghost use Rattle.std.specs.Prelude.{◌≡◌, ◌+◌, ◌*◌, ◌<◌, ◌≤◌};
ghost use Rattle.layout.specs.Words.{Lower, row₀, Room};
ghost use Rattle.table.specs.Marks.{bucket_of};
ghost use Rattle.table.specs.Calls.{Sought, Inserted, Released};
ghost use Rattle.table.specs.Private.{is_after, Halved, Walked};

use history::Position;
use layout::{Extent, Held, Lane};

// The links that a walk along a chain follows at most. What lies further is found by halves.
const LINKS: usize = 4;

// The hash bucket of a position among as many as a lane has room for rows. Positions come at regular distances when a player plays in time; the multiplication, modulo 2^32, spreads
// them, and the sum those at just the distances that the multiplication would crowd.
fn bucket(p: Position, capacity: Held) -> usize
    requires { Lower row₀ capacity × (capacity.0 ≤ 8207) }
    ensures { (result < capacity.0) × (result ≡ bucket_of p capacity) }
{
    let q = p.0;
    let x = q.wrapping_add(q / 2048).wrapping_mul(2654435769);
    x as usize * capacity.0 / 4294967296
}

// The mark of a row that is active at a position. That of a closed one is a word lower; both are read in `ranges::carry`. No type has these conversions: they would serve three lines.
fn active_mark(p: Position) -> u64
    ensures { result ≡ 2 * p.0 + 1 }
{
    2 * u64::from(p.0) + 1
}

// The row of the active mark at a position by halves: the rows are in the order of their positions, and it is the one before the first whose mark is after the one sought.
fn by_halves(area: &[u64], lane: Lane, rows: Held, p: Position) -> Option<Held>
    requires { Lower row₀ rows × Room area.now rows.0 }
    ensures { Halved area.now lane rows p result }
{
    let sought = active_mark(p);
    let behind = halves::first_where(
        rows.0,
        |n: usize| -> bool
            requires { Room area.now (n + 1) }
            ensures { result ≡ is_after area.entry.now lane sought (record { 0 = n }) }
        { sought < area[lane.mark(Held(n))] },
    );
    let held = Held(behind.saturating_sub(1));
    if area[lane.mark(held)] == sought {
        return Some(held);
    }
    None
}

// Further along the chain that has a row: some links, and then by halves. A chain leads to ever earlier rows, and so to ever earlier positions. It stays a call: most searches end before it.
#[inline(never)]
fn further(area: &[u64], lane: Lane, rows: Held, p: Position, from: Held) -> Option<Held>
    requires { Lower from rows × Room area.now rows.0 }
    ensures { Walked area.now lane rows p from result }
{
    let sought = active_mark(p);
    let mut top = from;
    for _ in 0..LINKS {
        let g = Held(area[lane.link(top)] as usize);
        if top <= g {
            return None;
        }
        let mark = area[lane.mark(g)];
        if mark == sought {
            return Some(g);
        }
        if mark < sought {
            return None;
        }
        top = g;
    }
    by_halves(area, lane, rows, p)
}

// The row of the active mark at a position, in a lane. The walk ends on any contents.
#[inline(always)]
pub fn find(area: &[u64], e: Extent, p: Position) -> Option<Held>
    ensures { Sought area.now e.lane e.rows e.capacity p result }
{
    if !layout::has_room(area, e.capacity.0) {
        return None;
    }
    if e.rows == Held(0) {
        return None;
    }
    if e.capacity < e.rows {
        return None;
    }
    let g = Held(area[e.lane.head(bucket(p, e.capacity))] as usize);
    if e.rows <= g {
        return None;
    }
    if area[e.lane.mark(g)] == active_mark(p) {
        return Some(g);
    }
    further(area, e.lane, e.rows, p, g)
}

// The next row becomes an active mark at a position, at the head of its bucket's chain; with no row to spare nothing is done.
#[inline(always)]
pub fn insert(area: &mut [u64], e: Extent, p: Position)
    ensures { Inserted area.old area.new e.lane e.rows e.capacity p }
{
    if !layout::has_room(area, e.capacity.0) {
        return;
    }
    if e.capacity <= e.rows {
        return;
    }
    let head = e.lane.head(bucket(p, e.capacity));
    let older = area[head];
    area[e.lane.mark(e.rows)] = active_mark(p);
    area[e.lane.link(e.rows)] = older;
    area[head] = e.rows.0 as u64;
}

// The mark of a row in use is closed; its row stays. With no such row nothing is done.
pub fn release(area: &mut [u64], e: Extent, held: Held)
    ensures { Released area.old area.new e.lane e.rows held }
{
    if !layout::has_room(area, e.rows.0) {
        return;
    }
    if e.rows <= held {
        return;
    }
    let at = e.lane.mark(held);
    area[at] = area[at] / 2 * 2;
}
