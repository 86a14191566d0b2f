// What the program `played` compares: lent words with a pattern and with other words, and a session with another. Each is held to what it says, so that a line of the program's output that says 0 or
// "equal" can fail.
#![tactic(auto)]

ghost use Rattle.std.specs.Prelude.{◌≡◌};
ghost use Rattle.compare.specs.Words.{pattern_at, Filled, differing_words, off_pattern};
ghost use Rattle.compare.specs.Answers.{Compared};

use history::Session;

// What an area is filled with: no two words alike.
fn pattern(i: usize) -> u64
    ensures { result ≡ pattern_at i }
{
    18446744073709551615 - i as u64
}

pub fn fill(area: &mut [u64])
    ensures { Filled area.old area.new }
{
    for (i, word) in area.iter_mut().enumerate() {
        *word = pattern(i);
    }
}

// How many words from an index on do not hold the pattern.
// The slice begins there: `skip` on the iterator would go over all words before it. A sum, since a loop that counts what a `filter` leaves takes five times as long.
pub fn off_pattern(area: &[u64], from: usize) -> usize
    ensures { result ≡ off_pattern area.now from }
{
    let from = from.min(area.len());
    area[from..]
        .iter()
        .enumerate()
        .map(|(k, word)| usize::from(*word != pattern(from + k)))
        .sum()
}

// How many words of two areas differ.
pub fn differing<const N: usize>(a: &[u64; N], b: &[u64; N]) -> usize
    ensures { result ≡ differing_words a.now b.now }
{
    a.iter().zip(b).filter(|(x, y)| x != y).count()
}

// Whether two sessions are equal in all six things that they hold.
pub fn is_same(a: Session, b: Session) -> bool
    ensures { Compared a b result }
{
    // The derived equality, under a name whose contract holds it to all six, so that an edit that leaves one of them out is refused.
    a == b
}
