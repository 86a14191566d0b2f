// A search of a stored take with a budget: document 02, point 6, a rough reading first. A look reads one index entry or one value of the take. The looks have a fixed order, and a budget of B
// looks allows the first B of them; what they show bounds the least value of the range from above and from below.
#![tactic(auto)]

ghost use Rattle.std.specs.Prelude.{◌≡◌, ◌+◌, ◌*◌, ◌^◌, ◌<◌, ◌≤◌, length, IsSome};
ghost use Rattle.rough.specs.Looks.{looks_used, figures_after, rough_reading, told};
ghost use Rattle.rough.specs.Private.{lower_of, Sees, SeesEntries, SeesValues, low_by, CutsAt};

use blocks::Indexed;
use history::Refusal;

// What the looks show: how many were used; the high figure, the least value that is known to be in the range, if one is; and the low figure, which the least of the range is not below where the
// index was built from that take.
#[derive(Clone, Copy)]
pub struct Figures {
    pub looks: usize,
    pub high: Option<i32>,
    pub low: i32,
}

// What is left of the budget after some looks, and the least of what they showed.
#[derive(Clone, Copy)]
struct Seen {
    rest: usize,
    least: Option<i32>,
}

// The same of index entries: the least of all, and of those whose blocks are wholly inside the range.
#[derive(Clone, Copy)]
struct Entries {
    rest: usize,
    all: Option<i32>,
    whole: Option<i32>,
}

// Where a range is cut: its blocks wholly inside go from `inner` to before `outer`; its values in other blocks to before `left`, and from `right` on.
#[derive(Clone, Copy)]
struct Cuts {
    inner: usize,
    outer: usize,
    left: usize,
    right: usize,
}

// The lower of two, where both are known.
fn lower(earlier: Option<i32>, later: Option<i32>) -> Option<i32>
    ensures { result ≡ lower_of earlier later }
{
    match (earlier, later) {
        (Some(u), Some(v)) => Some(u.min(v)),
        _ => earlier.or(later),
    }
}

// Looks at some values, left to right, as far as the budget goes.
fn look(values: &[i32], budget: usize) -> Seen
    ensures { Sees values.now budget result }
{
    let seen = budget.min(values.len());
    Seen {
        rest: budget - seen,
        least: blocks::least_of(&values[..seen]),
    }
}

// Looks at the index entries of blocks that meet the range: of those before the blocks wholly inside, of these, and of those behind them.
fn look_at_entries(before: &[i32], inside: &[i32], behind: &[i32], budget: usize) -> Entries
    ensures { SeesEntries before.now inside.now behind.now budget result }
{
    let left = look(before, budget);
    let whole = look(inside, left.rest);
    let right = look(behind, whole.rest);
    Entries {
        rest: right.rest,
        all: lower(lower(left.least, whole.least), right.least),
        whole: whole.least,
    }
}

// Looks at the range's values in blocks only partly inside: at those before the blocks wholly inside, and then at those behind them.
fn look_at_values(before: &[i32], behind: &[i32], budget: usize) -> Seen
    ensures { SeesValues before.now behind.now budget result }
{
    let left = look(before, budget);
    let right = look(behind, left.rest);
    Seen {
        rest: right.rest,
        least: lower(left.least, right.least),
    }
}

// The low figure, where `entries` looks read all entries, and `full` are all looks: the least number of 32 bits, then the least entry, then the high figure.
fn low_figure(
    budget: usize,
    entries: usize,
    full: usize,
    least: Option<i32>,
    high: Option<i32>,
) -> i32
    requires { (entries ≤ budget → IsSome least) × (full ≤ budget → IsSome high) }
    ensures { Some result ≡ low_by budget entries full least high }
{
    if budget < entries {
        i32::MIN
    } else if budget < full {
        least.unwrap()
    } else {
        high.unwrap()
    }
}

// The blocks wholly inside the range from `i` to `j`, of a take of `n` values, and where the range's other values end and begin again.
fn cut(n: usize, i: usize, j: usize) -> Cuts
    requires { (i ≤ j) × (j < n) × (n < 2 ^ 63) }
    ensures { CutsAt n i j result }
{
    let inner = blocks::block_count(i);
    let outer = inner.max(blocks::blocks_before(n, j + 1));
    Cuts {
        inner,
        outer,
        left: (64 * inner).min(j + 1),
        right: (64 * outer).min(j + 1),
    }
}

// What the looks that the budget allows show of the range from `i` to `j`. The blocks that meet it go from `first` to before `end`.
fn figures_of(stored: Indexed, i: usize, j: usize, budget: usize) -> Figures
    requires { (i ≤ j) × (j < length stored.take.now) }
    ensures { told (Ok result) ≡ figures_after stored.entry.take.now stored.entry.index.now i j (looks_used (length stored.entry.take.now) i j budget) }
{
    let take = stored.take;
    let index = stored.index;
    let first = i / 64;
    let end = j / 64 + 1;
    let cuts = cut(take.len(), i, j);
    let entries = look_at_entries(
        &index[first..cuts.inner],
        &index[cuts.inner..cuts.outer],
        &index[cuts.outer..end],
        budget,
    );
    let edges = look_at_values(&take[i..cuts.left], &take[cuts.right..j + 1], entries.rest);
    let high = lower(entries.whole, edges.least);
    let full = end - first + (cuts.left - i + (j + 1 - cuts.right));
    Figures {
        looks: budget - edges.rest,
        high,
        low: low_figure(budget, end - first, full, entries.all, high),
    }
}

// A rough reading of the range from `i` to `j`, both included, with a budget of looks. Refused where a search is, with no look and no figure.
pub fn read(
    take: &[i32],
    index: &[i32],
    i: usize,
    j: usize,
    budget: usize,
) -> Result<Figures, Refusal>
    ensures { told result ≡ rough_reading take.now index.now i j budget }
{
    blocks::due(take.len(), index.len(), i, j)?;
    Ok(figures_of(Indexed { take, index }, i, j, budget))
}
