// Searches among numbered things by halves, of which a caller's test says one by one on which side the sought place is. Nothing here knows what is searched. The `while` loop stays: it counts
// no index, and what is left is halved, which no iterator says; std's `partition_point` wants a slice, and the things here stand apart.
#![tactic(auto)]

ghost use Rattle.std.specs.Prelude.{◌≡◌, true, false, ℕ, ◌+◌, ◌<◌, ◌≤◌};

// The first of the numbers from `from` on, before `to`, of which a test holds, where it holds of all from there on, or `to`: by halves. The last of which it does not hold is the one before.
fn first_between<F: Fn(usize) -> bool>(from: usize, to: usize, test: F) -> usize
    requires order { (from ≤ to) × (to < 9223372036854775808) }
    requires asked { (k : ℕ) → from ≤ k → k < to → F.pre test k }
    ensures within { (from ≤ result) × (result ≤ to) }
    ensures here { result < to → F.post test result true }
    ensures before { (k : ℕ) → from ≤ k → k + 1 ≡ result → F.post test k false }
{
    let mut low = from;
    let mut high = to;
    while low < high {
        let middle = (low + high) / 2;
        if test(middle) {
            high = middle;
        } else {
            low = middle + 1;
        }
    }
    low
}

// The first of so many numbers of which a test holds, where it holds of all from there on, or how many there are: by halves.
pub fn first_where<F: Fn(usize) -> bool>(count: usize, test: F) -> usize
    requires few { count < 9223372036854775808 }
    requires asked { (k : ℕ) → k < count → F.pre test k }
    ensures within { result ≤ count }
    ensures here { result < count → F.post test result true }
    ensures before { (k : ℕ) → k + 1 ≡ result → F.post test k false }
{
    first_between(0, count, test)
}

// The same, where it is mostly one of the first: some looks from the bottom up come first.
pub fn first_near_bottom<F: Fn(usize) -> bool>(count: usize, looks: usize, test: F) -> usize
    requires few { count < 9223372036854775808 }
    requires asked { (k : ℕ) → k < count → F.pre test k }
    ensures within { result ≤ count }
    ensures here { result < count → F.post test result true }
    ensures before { (k : ℕ) → k + 1 ≡ result → F.post test k false }
{
    for k in 0..looks {
        if k == count {
            return k;
        }
        if test(k) {
            return k;
        }
    }
    first_between(looks, count, test)
}

// The same, where it is mostly one of the last: some looks from the top down come first. They count down by hand: by `for k in (count.saturating_sub(looks)..count).rev()`, which is proved as well, a
// value of the window takes 52 to 57 instructions, so 44 to 48, and the window misses its bar, the instructions of a plain program.
pub fn first_near_top<F: Fn(usize) -> bool>(count: usize, looks: usize, test: F) -> usize
    requires few { count < 9223372036854775808 }
    requires asked { (k : ℕ) → k < count → F.pre test k }
    ensures within { result ≤ count }
    ensures here { result < count → F.post test result true }
    ensures before { (k : ℕ) → k + 1 ≡ result → F.post test k false }
{
    let mut top = count;
    for _ in 0..looks {
        if top == 0 {
            return top;
        }
        if !test(top - 1) {
            return top;
        }
        top -= 1;
    }
    first_where(top, test)
}
