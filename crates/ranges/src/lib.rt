// The marks that the lent words hold, each with its range minimum. This is all that the engine knows of the words: they are opened, a value comes, a mark is appended, a mark
// is closed, a mark is looked up. No call does more than a fixed number of steps, but for searches by halves: source document 000, Lemma 7 and Theorem 3, "in real time".
// What is on the way of most calls is inlined, here and in `table` and `stack`; `table::further` and `share` stay calls (docs/DECISIONS.md, 90).
#![tactic(auto)]

ghost use Rattle.std.specs.Prelude.{◌≡◌, ◌<◌, ◌≤◌, length};
ghost use Rattle.ranges.specs.Calls.{Opened, Valued, Marked, LookedUp, Closed};
ghost use Rattle.ranges.specs.Private.{Chosen, LowerOf, UpToStart, UpToNow, ClosedNext, Appended, Joined, Carried, Remains, Stepped, Merged, Finished, size_for, Turned, Share, Shared};

use history::{Minimum, Position};
use layout::{Extent, Held, Lane, Place, Role};

// Words of any content are opened: four empty lanes. Where they are too few nothing is done.
pub fn open(area: &mut [u64])
    ensures { Opened area.old area.new }
{
    if area.len() < 576 {
        return;
    }
    area[..layout::HEADER].fill(0);
    layout::write(area, Role::Active, Lane(0).empty(Held(layout::FIRST_ROWS)));
    layout::write(area, Role::Younger, Lane(1).empty(Held(0)));
    layout::write(area, Role::Older, Lane(2).empty(Held(0)));
    layout::write(area, Role::Next, Lane(3).empty(Held(0)));
}

// A value comes: it lowers each mark's range minimum that is above it. Only the active lane's stack has to know: its lowest entry counts for the marks of the lanes before it.
pub fn value(area: &mut [u64], m: Minimum)
    ensures { Valued area.old area.new m }
{
    if area.len() < layout::HEADER {
        return;
    }
    let active = layout::read(area, Role::Active);
    let top = stack::lower(area, active, packing::pack(m));
    area[Role::Active.height()] = top.0 as u64;
}

// The role of the lane in which a position's mark stands.
// That the words have a header is asked of callers, here and below: a struct over the words with that as a ghost field proves too, but each of its methods that writes would have to say
// that the words are the same ones still, a clause for a clause.
fn role_of(area: &[u64], p: Position) -> Role
    requires { 32 ≤ length area.now }
    ensures { Chosen area.now p result }
{
    if area[Role::Active.start()] <= u64::from(p.0) {
        return Role::Active;
    }
    if area[Role::Younger.start()] <= u64::from(p.0) {
        return Role::Younger;
    }
    Role::Older
}

// The lower of a word and of the lowest entry of a role's lane.
fn below(area: &[u64], role: Role, word: u64) -> u64
    ensures { LowerOf area.now role word result }
{
    let e = layout::read(area, role);
    let Some(least) = stack::entry_at(area, e, Place(0)) else {
        return word;
    };
    word.min(least)
}

// A mark's minimum up to where the active lane starts, from its own lane's.
fn up_to_start(area: &[u64], role: Role, word: u64) -> u64
    ensures { UpToStart area.now role word result }
{
    match role {
        Role::Active => word,
        Role::Younger => word,
        Role::Older => below(area, Role::Younger, word),
        Role::Next => word,
    }
}

// A mark's minimum up to now, from its own lane's.
fn up_to_now(area: &[u64], role: Role, word: u64) -> u64
    ensures { UpToNow area.now role word result }
{
    match role {
        Role::Active => word,
        Role::Younger => below(area, Role::Active, word),
        Role::Older => below(area, Role::Active, up_to_start(area, Role::Older, word)),
        Role::Next => word,
    }
}

// The range minimum of the active mark at a position.
pub fn look_up(area: &[u64], p: Position) -> Option<Minimum>
    ensures { LookedUp area.now p result }
{
    if area.len() < layout::HEADER {
        return None;
    }
    let role = role_of(area, p);
    let e = layout::read(area, role);
    let held = table::find(area, e, p)?;
    let word = stack::least_at(area, e, held)?;
    Some(packing::unpack(up_to_now(area, role, word)))
}

// The active mark at a position is closed; where there is none nothing is done. Whether there was one. "The Close command is applied to all the structures, including the
// destination structure": a mark that was carried is closed in the next lane too.
pub fn close(area: &mut [u64], p: Position) -> bool
    ensures { Closed area.old area.new p result }
{
    if area.len() < layout::HEADER {
        return false;
    }
    let role = role_of(area, p);
    let e = layout::read(area, role);
    let Some(held) = table::find(area, e, p) else {
        return false;
    };
    table::release(area, e, held);
    if role != Role::Active {
        close_carried(area, p);
    }
    true
}

// A mark that was carried is closed in the next lane.
fn close_carried(area: &mut [u64], p: Position)
    ensures { ClosedNext area.old area.new p }
{
    let e = layout::read(area, Role::Next);
    if let Some(held) = table::find(area, e, p) {
        table::release(area, e, held);
    }
}

// A mark at a position after all others of a lane joins them, with its range minimum as a word. With no row to spare nothing is done. The lane as it is then.
#[inline(always)]
fn append(area: &mut [u64], e: Extent, p: Position, word: u64) -> Extent
    ensures { Appended area.old area.new e p word result }
{
    if !layout::has_room(area, e.capacity.0) {
        return e;
    }
    if e.capacity <= e.rows {
        return e;
    }
    if e.rows.0 < e.height.0 {
        return e;
    }
    table::insert(area, e, p);
    let height = stack::push(area, e, word);
    Extent {
        rows: Held(e.rows.0 + 1),
        height,
        ..e
    }
}

// A mark at a position after all others of a role's lane joins them, with its range minimum as a word, and the header has its rows and its height as they are then.
// The lane and its room stay, so that two words are written, and not the four of `layout::write`.
#[inline(always)]
fn join(area: &mut [u64], role: Role, p: Position, word: u64)
    requires { 32 ≤ length area.old }
    ensures { Joined area.old area.new role p word }
{
    let e = layout::read(area, role);
    let grown = append(area, e, p, word);
    area[role.rows()] = grown.rows.0 as u64;
    area[role.height()] = grown.height.0 as u64;
}

// A row is carried into the next lane, if its mark is active, with its minimum as a word.
#[inline(always)]
fn carry(area: &mut [u64], e: Extent, held: Held, word: u64)
    ensures { Carried area.old area.new e held word }
{
    if !layout::has_room(area, e.rows.0) {
        return;
    }
    if e.rows <= held {
        return;
    }
    let mark = area[e.lane.mark(held)];
    if mark % 2 == 0 {
        return;
    }
    let p = Position((mark / 2 % 4294967296) as u32);
    join(area, Role::Next, p, word);
}

// Whether a row of a role's lane is left to be carried.
fn has_left(area: &[u64], role: Role) -> bool
    requires { 32 ≤ length area.now }
    ensures { Remains area.now role result }
{
    Held(area[role.left()] as usize) < Held(area[role.rows()] as usize)
}

// The next row of a lane is carried, if one is left.
#[inline(always)]
fn step(area: &mut [u64], role: Role)
    requires { 32 ≤ length area.old }
    ensures { Stepped area.old area.new role }
{
    let e = layout::read(area, role);
    let held = Held(area[role.left()] as usize);
    let place = Place(area[role.run()] as usize);
    if e.rows <= held {
        return;
    }
    let Some(entry) = stack::entry_at(area, e, place) else {
        return;
    };
    let word = up_to_start(area, role, entry);
    carry(area, e, held, word);
    let next = Held(held.0 + 1);
    let run = stack::advance(area, e, place, next);
    layout::write_left(area, role, next, run);
}

// One row of the merge: the older lane's come first.
#[inline(always)]
fn merge_row(area: &mut [u64])
    requires { 32 ≤ length area.old }
    ensures { Merged area.old area.new }
{
    if has_left(area, Role::Older) {
        step(area, Role::Older);
    } else {
        step(area, Role::Younger);
    }
}

// When every row is carried, the next lane is the older one from then on, and there is no younger one.
fn finish(area: &mut [u64])
    requires { 32 ≤ length area.old }
    ensures { Finished area.old area.new }
{
    if has_left(area, Role::Older) {
        return;
    }
    if has_left(area, Role::Younger) {
        return;
    }
    let younger = layout::read(area, Role::Younger);
    let older = layout::read(area, Role::Older);
    let next = layout::read(area, Role::Next);
    let start = area[Role::Active.start()];
    layout::write(area, Role::Older, next);
    layout::write(area, Role::Younger, younger.lane.empty(younger.capacity));
    layout::write(area, Role::Next, older.lane.empty(next.capacity));
    area[Role::Younger.start()] = start;
    layout::write_left(area, Role::Older, Held(0), Place(0));
    layout::write_left(area, Role::Younger, Held(0), Place(0));
}

// The rows that the active lane gets room for: 17 and as many again as are active, and at least so many that each mark has to carry two of the rows that are left.
fn size_for(active: usize, left: usize) -> usize
    requires { (active < 4096) × (left ≤ 16414) }
    ensures { result ≡ size_for active left }
{
    (2 * active + 17).max(left.div_ceil(2))
}

// When the active lane is full, it becomes the younger one, the free lane takes its place, and the merge into the next lane begins. Source document 000, Lemma 7: "When this active
// structure gets full we mark it as static and ask for a new structure".
fn turn(area: &mut [u64], active: usize, p: Position)
    requires { 32 ≤ length area.old }
    ensures { Turned area.old area.new active p }
{
    if layout::MOST_MARKS <= active {
        return;
    }
    let full = layout::read(area, Role::Active);
    if full.rows < full.capacity {
        return;
    }
    let free = layout::read(area, Role::Younger);
    if free.rows != Held(0) {
        return;
    }
    let older = layout::read(area, Role::Older);
    if layout::MOST_ROWS < older.rows.0 {
        return;
    }
    if layout::MOST_ROWS < full.rows.0 {
        return;
    }
    let next = layout::read(area, Role::Next);
    let start = area[Role::Active.start()];
    let size = size_for(active, older.rows.0 + full.rows.0);
    layout::write(area, Role::Active, free.lane.empty(Held(size)));
    layout::write(area, Role::Younger, full);
    layout::write(area, Role::Next, next.lane.empty(Held(2 * active + 17)));
    area[Role::Active.start()] = u64::from(p.0);
    area[Role::Younger.start()] = start;
    layout::write_left(area, Role::Older, Held(0), Place(0));
    layout::write_left(area, Role::Younger, Held(0), Place(0));
}

// A mark's share of a merge: two rows, and the end if none is left. It stays a call, the one of a Mark.
#[inline(never)]
fn share(area: &mut [u64])
    requires { 32 ≤ length area.old }
    ensures { Share area.old area.new }
{
    merge_row(area);
    merge_row(area);
    finish(area);
}

// A mark's share of the merge, if one is under way: if there is a younger lane.
fn merge(area: &mut [u64])
    requires { 32 ≤ length area.old }
    ensures { Shared area.old area.new }
{
    if Held(area[Role::Younger.rows()] as usize) == Held(0) {
        return;
    }
    share(area);
}

// A mark at the present position joins the others, of which so many are active, with its range minimum.
pub fn mark(area: &mut [u64], active: usize, p: Position, m: Minimum)
    ensures { Marked area.old area.new active p m }
{
    if area.len() < layout::HEADER {
        return;
    }
    turn(area, active, p);
    join(area, Role::Active, p, packing::pack(m));
    merge(area);
}
