// The look-ahead window of document 02, point 2: an opening, and a value after which the least of the last W values is told, over words that the caller lends.
// The session goes in with each call and a new one comes out; all else that outlives a call is in the words. No struct holds both: each call may be lent other words, and C passes them so.
#![tactic(auto)]

ghost use Rattle.std.specs.Prelude.{◌≡◌, IfOk};
ghost use Rattle.history.specs.Replies.{number_told};
ghost use Rattle.history.specs.Answers.{answered};
ghost use Rattle.history.specs.Minima.{next};
ghost use Rattle.window.specs.Windows.{opening_refusal};
ghost use Rattle.window.specs.Promises.{window_of};
ghost use Rattle.window.specs.Calls.{Opens, Does};

use history::{Answer, Minimum, Outcome, Position, Refusal};

// The window's session: N, W and the present position. It is unopened just when N is 0.
#[derive(Clone, Copy, PartialEq, Eq)]
pub struct Window {
    pub words: usize,
    pub width: usize,
    pub present: Position,
}

// A session with no opening: all its numbers are 0, and it is no `None`, since the papers rule so, and C has none.
const UNOPENED: Window = Window {
    words: 0,
    width: 0,
    present: Position(0),
};

// Whether n words serve a window of the last `width` values: 12, then 13.
fn serve(n: usize, width: usize) -> Result<(), Refusal>
    ensures { number_told result ≡ opening_refusal n width }
{
    if width < 1 {
        return Err(Refusal::WidthOutOfRange);
    }
    if deque::MOST_SLOTS < width {
        return Err(Refusal::WidthOutOfRange);
    }
    if n < 2 * width {
        return Err(Refusal::TooFewWords);
    }
    Ok(())
}

// A window of the last `width` values is opened, whatever the words hold.
pub fn open(area: &mut [u64], width: usize) -> Answer<Window>
    ensures { Opens width area.old area.new result }
{
    Answer::of(UNOPENED, try_open(area, width))
}

// The session of an opened window, or why none is opened.
fn try_open(area: &mut [u64], width: usize) -> Outcome<Window>
    ensures { Opens width area.old area.new (answered (window_of 0 0 0) result) }
{
    let n = area.len();
    serve(n, width)?;
    deque::clear(area);
    let after = Window {
        words: n,
        width,
        present: Position(0),
    };
    Ok((None, after))
}

// The next value of the stream. The one that is W older leaves, and the least of those in the window is told. After a refusal the session comes back equal.
pub fn value(s: Window, area: &mut [u64], v: i32) -> Answer<Window>
    ensures { Does s v area.old area.new result }
{
    Answer::of(s, take_value(s, area, v))
}

// The least after a value and the session then, or why the value is refused.
// `always`, since LLVM else inlines it too late: a loop of values would ask each time again whether the length is N.
#[inline(always)]
fn take_value(s: Window, area: &mut [u64], v: i32) -> Outcome<Window>
    ensures { Does s v area.old area.new (answered s result) }
{
    history::lent(s.words, area.len())?;
    let next = s.present.next()?;
    let least = deque::arrive(
        area,
        s.width,
        Minimum {
            value: v,
            place: next,
        },
    );
    Ok((Some(least), Window { present: next, ..s }))
}
