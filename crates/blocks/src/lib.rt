// A static range minimum over blocks: document 02, point 3. A finished take, which is a lent list of values, stands beside its index, the least of each block of 64 values. One call builds
// the index, one searches a range of the take, and one hands back a stretch of it. What the rough reading of point 6 shares with these is public, too: how many blocks there are, how many end
// before a place, the least of any values, and which refusal is due.
#![tactic(auto)]

ghost use Rattle.std.specs.Prelude.{◌≡◌, ◌+◌, ◌*◌, ◌^◌, ◌<◌, ◌≤◌, length};
ghost use Rattle.std.specs.List.{position};
ghost use Rattle.std.specs.Ordering.{int_eq};
ghost use Rattle.history.specs.Minima.{takes_over};
ghost use Rattle.history.specs.Replies.{number_told};
ghost use Rattle.blocks.specs.Takes.{minimum_from, block_of, block_count, blocks_before, build_refusal, search_refusal, least_of};
ghost use Rattle.blocks.specs.Calls.{Builds, Searches, Stretches};
ghost use Rattle.blocks.specs.Private.{PlaceOf, shifted, lower_of, OfBlocks, Covers};

use history::{RangeMinimum, Refusal};

// A place in a take, counted from 0.
#[derive(Clone, Copy, Default, PartialEq, Eq, PartialOrd, Ord)]
pub struct Offset(pub usize);

// The least value of a range, and where it stands.
pub type Found = RangeMinimum<Offset>;

// A take and an index that has an entry for each of its blocks, whatever the entries are.
#[derive(Clone, Copy)]
pub struct Indexed<'a> {
    pub take: &'a [i32],
    pub index: &'a [i32],
    pub ghost fitting: { length index.now ≡ block_count (length take.now) },
}

// How many blocks a take has.
pub fn block_count(n: usize) -> usize
    ensures { result ≡ block_count n }
{
    n.div_ceil(64)
}

// A block of a take. The last one may be shorter.
fn block(take: &[i32], b: usize) -> &[i32]
    requires { b < block_count (length take.now) }
    ensures { result.now ≡ block_of take.now b }
{
    let from = 64 * b;
    &take[from..take.len().min(from + 64)]
}

// Whether a later value takes over from the least before it: the choice among equal values.
fn takes_over(later: i32, least: i32) -> bool
    ensures { result ≡ takes_over later least }
{
    later < least
}

// The least value, of one value at least, which is asked here and below: no slice type of the library is never empty. A fold that begins with the first and goes over all of them, since a block of 64 is made into whole vectors. By `copied().min()` 64 values take 229 instructions, so 179.
fn least_value(values: &[i32]) -> i32
    requires { 0 < length values.now }
    ensures { result ≡ (minimum_from values.now 0).value }
{
    values.iter().fold(values[0], |least, v| {
        if takes_over(*v, least) { *v } else { least }
    })
}

// The same of any values: of none, nothing.
pub fn least_of(values: &[i32]) -> Option<i32>
    ensures { result ≡ least_of values.now }
{
    if values.is_empty() {
        return None;
    }
    Some(least_value(values))
}

// The first offset where `v` stands, if it is one of the values.
fn first_at(values: &[i32], v: i32) -> Option<usize>
    ensures { result ≡ position (λ w. int_eq w v) values.now }
{
    values.iter().position(|w| *w == v)
}

// The place of the least value, where that is `v`: the first that equals it, since among equal values the earliest counts. If `v` is not
// the least, an offset all the same, and no `None`: where the index is not the take's a search shows a place of its own choice, and does not fail.
fn place_of(values: &[i32], v: i32) -> Offset
    requires { 0 < length values.now }
    ensures { PlaceOf values.now v result }
{
    Offset(first_at(values, v).unwrap_or(0))
}

// The least value of a part of a take that begins at `from`, and its place in the take.
fn least_from(from: usize, part: &[i32]) -> Found
    requires some { 0 < length part.now }
    requires inside { from + length part.now < 2 ^ 64 }
    ensures { result ≡ shifted from (minimum_from part.now 0) }
{
    let value = least_value(part);
    let place = place_of(part, value);
    Found {
        value,
        place: Offset(from + place.0),
    }
}

// The least of many values, block by block, so that the place is looked for in one block alone. A `for`: a fold would carry the value and its block as a pair, and be no plainer.
fn least_of_many(values: &[i32]) -> Found
    requires { 0 < length values.now }
    ensures { (result ≡ minimum_from values.now 0) × (result.place.0 < length values.now) }
{
    let mut value = values[0];
    let mut at = 0;
    for (b, part) in values.chunks(64).enumerate() {
        let v = least_value(part);
        if takes_over(v, value) {
            value = v;
            at = b;
        }
    }
    let place = place_of(block(values, at), value);
    Found {
        value,
        place: Offset(64 * at + place.0),
    }
}

// The lower of the least of one range and that of a later one.
fn lower(earlier: Found, later: Found) -> Found
    ensures { result ≡ lower_of earlier later }
{
    if takes_over(later.value, earlier.value) {
        later
    } else {
        earlier
    }
}

// How many blocks of `n` values end at `e` or before it, where `e` is at most `n`. The last block ends where the take does, though it may be shorter.
pub fn blocks_before(n: usize, e: usize) -> usize
    ensures { result ≡ blocks_before n e }
{
    if e == n { block_count(n) } else { e / 64 }
}

impl<'a> Indexed<'a> {
    // The least of the blocks from `first` to before `end`, all of which are wholly inside a range: its value and its block come from the index, its place in that block from the take.
    fn least_of_blocks(self, first: usize, end: usize) -> Found
        requires { (first < end) × (end ≤ length self.index.now) }
        ensures { OfBlocks self.entry.take.now self.entry.index.now first end result }
    {
        let entry = least_of_many(&self.index[first..end]);
        let value = entry.value;
        let within = entry.place;
        let b = first + within.0;
        let place = place_of(block(self.take, b), value);
        Found {
            value,
            place: Offset(64 * b + place.0),
        }
    }

    // The least of the range from `i` to before `e`. The blocks wholly inside go from the first that begins at `i` or behind it to before `end`; where there is none, all of the range lies in edge
    // blocks. Before them and behind them are the edge blocks' parts, where there are any.
    fn least_within(self, i: usize, e: usize) -> Found
        requires { (i < e) × (e ≤ length self.take.now) }
        ensures { Covers self.entry.take.now self.entry.index.now i e result }
    {
        let take = self.take;
        let first = block_count(i);
        let end = blocks_before(take.len(), e);
        if end <= first {
            return least_from(i, &take[i..e]);
        }
        let from = 64 * first;
        let to = 64 * end;
        let mut found = self.least_of_blocks(first, end);
        if i < from {
            found = lower(least_from(i, &take[i..from]), found);
        }
        if to < e {
            found = lower(found, least_from(to, &take[to..e]));
        }
        found
    }
}

// What is due for the length of an index of so many entries, beside a take of so many values: 15, where it does not fit.
fn fit(values: usize, entries: usize) -> Result<(), Refusal>
    ensures { number_told result ≡ build_refusal values entries }
{
    if entries != block_count(values) {
        return Err(Refusal::OtherIndexLength);
    }
    Ok(())
}

// What is due to a search of a take of so many values, with an index of so many entries, from `i` to `j`: 15 for an index of another length, then 14 for a range that the take does not have.
// The ends of a range stay two numbers, here and in what asks this: C passes them so, and a `RangeInclusive` would be taken apart again in each.
pub fn due(values: usize, entries: usize, i: usize, j: usize) -> Result<(), Refusal>
    ensures { number_told result ≡ search_refusal values entries i j }
{
    fit(values, entries)?;
    if j < i || values <= j {
        return Err(Refusal::RangeOutOfTake);
    }
    Ok(())
}

// Writes the index of a take, an entry for each block. Refused with 15 for an index of another length.
pub fn build(take: &[i32], index: &mut [i32]) -> Result<(), Refusal>
    ensures { Builds take.now index.old index.new result }
{
    fit(take.len(), index.len())?;
    // The entry stays written by its number: of what `iter_mut()` writes in a `zip` with the blocks a proof learns no more than the length (tried), and with `block(take, b)` for each entry of
    // `iter_mut().enumerate()` a block takes 192 instructions, so 160, and building misses the bar of 1.2 times a scan.
    for (b, part) in take.chunks(64).enumerate() {
        index[b] = least_value(part);
    }
    Ok(())
}

// The least value from `i` to `j`, both included, and its place in the take, where the index was built from that take. Refused where a refusal is due.
pub fn search(take: &[i32], index: &[i32], i: usize, j: usize) -> Result<Found, Refusal>
    ensures { Searches take.now index.now i j result }
{
    due(take.len(), index.len(), i, j)?;
    let stored = Indexed { take, index };
    Ok(stored.least_within(i, j + 1))
}

// The stretch from `i` to `j`, both included, as a part of the caller's own take. It is empty where `i` exceeds `j` or `j` is not below the take's length.
pub fn stretch(take: &[i32], i: usize, j: usize) -> &[i32]
    ensures { Stretches take.entry.ref_ptr take.now i j result.ref_ptr result.now }
{
    if j < i || take.len() <= j {
        return &take[..0];
    }
    &take[i..j + 1]
}
