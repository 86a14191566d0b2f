// The theorems of document 02's points, cited under their statements and used clause by clause, of the functions as they stand in the source (proofs/). The code here makes runs of the
// window, so that the claim over all of them speaks of something, and writes an example of the limiter's output and of `lookup`'s.
#![tactic(auto)]

ghost use Rattle.std.specs.Prelude.{◌≡◌, length, take};
ghost use Rattle.window.specs.Windows.{session_of, blank};
ghost use Rattle.window.specs.Calls.{Opens, Does};
ghost use Rattle.requests.specs.Witness.{asked, leaving, lines, session_left, unopened, RunExists};
ghost use Rattle.requests.specs.Private.{Valued};
ghost use Rattle.requests.specs.Limiter.{output};
ghost use Rattle.requests.specs.Lookup.{found};

use window::Window;

// The calls of `Witness.leaving`. The first is lent no words.
fn leave(s: Window, area: &mut [u64; 4], other: &mut [u64; 5]) -> Window
    ensures { Valued 4 s area.old area.new (asked leaving) result }
{
    let none = window::value(s, &mut other[0..0], -9);
    let third = window::value(none.session, area, 2);
    let fourth = window::value(third.session, area, 2);
    fourth.session
}

// The run: an opening, the calls of `Witness.entering`, of which one is lent five words, and those that follow.
pub fn window_run() -> Window
    ensures { RunExists 2 4 lines Opens Does result × (result ≡ session_left) }
{
    let mut area = [7u64; 4];
    let mut other = [7u64; 5];
    let opened = window::open(&mut area, 2);
    let first = window::value(opened.session, &mut area, 3);
    let longer = window::value(first.session, &mut other, -9);
    let second = window::value(longer.session, &mut area, 1);
    leave(second.session, &mut area, &mut other)
}

// The run after a refused opening: the calls of `Witness.unopened`.
pub fn refused_run() -> Window
    ensures { RunExists 3 5 unopened Opens Does result × (result ≡ session_of (blank 0 0)) }
{
    let mut area = [7u64; 5];
    let mut other = [7u64; 6];
    let opened = window::open(&mut area, 3);
    let first = window::value(opened.session, &mut area, 3);
    let second = window::value(first.session, &mut other, 1);
    let third = window::value(second.session, &mut other[0..0], 2);
    third.session
}

// The limiter's whole output for W = 2 on 4 words and the values 3, 1, 2, 2.
pub fn limiter_example(out: &mut [u8; 540710]) -> usize
    ensures { take result out.new ≡ output }
{
    let bytes = [
        2, 0, 0, 0, 4, 0, 0, 0, 3, 0, 0, 0, 1, 0, 0, 0, 2, 0, 0, 0, 2, 0, 0, 0,
    ];
    readout::write(&bytes, out)
}

// The whole output of `lookup` for the values 5 and −3, an index of one entry and a search of both.
pub fn lookup_example(out: &mut [u8; 300532]) -> usize
    ensures { take result out.new ≡ found }
{
    let bytes = [
        2, 0, 0, 0, 5, 0, 0, 0, 253, 255, 255, 255, 1, 0, 0, 0, 1, 0, 0, 0, 0, 1, 0, 0, 0, 0, 0, 0,
        0,
    ];
    listing::write(&bytes, out)
}
