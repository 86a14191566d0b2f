// The level engine: an opening and the four commands of source document 000, over words that the caller lends.
// The session goes in with each call and a new one comes out; all else that outlives a call is in the words. No struct holds both: each call may be lent other words.
#![tactic(auto)]

ghost use Rattle.std.specs.Prelude.{◌≡◌, ◌<◌, length};
ghost use Rattle.history.specs.declared.Command.TheVariants.{Value, Mark, Query, Close};
ghost use Rattle.history.specs.Replies.{number_told, lent_refusal};
ghost use Rattle.history.specs.Minima.{stands_at};
ghost use Rattle.history.specs.Answers.{answered};
ghost use Rattle.history.specs.Histories.{limit_of};
ghost use Rattle.engine.specs.Promises.{fresh_session};
ghost use Rattle.engine.specs.Calls.{Opens, Does};
ghost use Rattle.engine.specs.Private.{Within};

use history::{Answer, Command, Event, Minimum, Outcome, Position, Refusal, Session, Standing};

// A session with no opening: all its numbers are 0, and it is no `None`, since document 01 rules so ("unopened just when its N is 0").
const UNOPENED: Session = Session {
    words: 0,
    limit: 0,
    present: Position(0),
    last: 0,
    active: 0,
    standing: Standing::None,
};

// How many marks an area of n words is opened for: K of document 01.
fn limit_of(n: usize) -> usize
    ensures { result ≡ limit_of n }
{
    (n.saturating_sub(512) / 64).min(layout::MOST_MARKS)
}

// An area is opened, whatever its words hold. Only words 0 to 511 are written.
pub fn open(area: &mut [u64]) -> Answer<Session>
    ensures { Opens area.old area.new result }
{
    Answer::of(UNOPENED, try_open(area))
}

// The session of an opened area, or why it is not opened.
fn try_open(area: &mut [u64]) -> Outcome<Session>
    ensures { Opens area.old area.new (answered (fresh_session 0 0) result) }
{
    let n = area.len();
    if n < 576 {
        return Err(Refusal::AreaTooShort);
    }
    ranges::open(area);
    let after = Session {
        words: n,
        limit: limit_of(n),
        ..UNOPENED
    };
    Ok((None, after))
}

// What each command asks first: 4 without an opening, then 5 for another length. The usual case stands before both: of their two tests the compiler else makes one, of three instructions more.
fn lent(s: Session, area: &[u64]) -> Result<(), Refusal>
    ensures { number_told result ≡ lent_refusal s.words (length area.now) 0 }
{
    let n = area.len();
    if n == s.words {
        if n != 0 {
            return Ok(());
        }
    }
    history::lent(s.words, n)
}

// The next value of the stream: it lowers each active mark's range minimum that is above it.
pub fn value(s: Session, area: &mut [u64], v: i32) -> Answer<Session>
    ensures { Does s (Value v) area.old area.new result }
{
    Answer::of(s, take_value(s, area, v))
}

// The session after a value, or why it is refused.
fn take_value(s: Session, area: &mut [u64], v: i32) -> Outcome<Session>
    ensures { Does s (Value v) area.old area.new (answered s result) }
{
    lent(s, area)?;
    let next = s.present.next()?;
    ranges::value(
        area,
        Minimum {
            value: v,
            place: next,
        },
    );
    let transition = history::transition_of(Event::Value, s.standing);
    let after = Session {
        present: next,
        last: v,
        standing: transition.after,
        ..s
    };
    Ok((None, after))
}

// The range minimum of a mark at the present position: the last value, there.
fn at_present(s: Session) -> Minimum
    ensures { result ≡ stands_at s.last s.present }
{
    Minimum {
        value: s.last,
        place: s.present,
    }
}

// The present position becomes an active mark.
pub fn mark(s: Session, area: &mut [u64]) -> Answer<Session>
    ensures { Does s Mark area.old area.new result }
{
    Answer::of(s, take_mark(s, area))
}

// The session after a Mark, or why it is refused. Nothing is written before it is known to be accepted.
fn take_mark(s: Session, area: &mut [u64]) -> Outcome<Session>
    ensures { Does s Mark area.old area.new (answered s result) }
{
    lent(s, area)?;
    let transition = history::transition_of(Event::Mark, s.standing);
    if let Some(why) = transition.due {
        return Err(why);
    }
    if s.active == s.limit {
        return Err(Refusal::Full);
    }
    if layout::MOST_MARKS <= s.active {
        return Err(Refusal::Full);
    }
    ranges::mark(area, s.active, s.present, at_present(s));
    let after = Session {
        active: s.active + 1,
        standing: transition.after,
        ..s
    };
    Ok((None, after))
}

// Whether a position can be an active mark at all: none is before the first or after the present one.
fn within(s: Session, i: Position) -> bool
    ensures { Within s i result }
{
    Position(0) < i && i <= s.present
}

// The range minimum since an active mark. The area is only read.
pub fn query(s: Session, area: &[u64], i: Position) -> Answer<Session>
    ensures { Does s (Query i) area.now area.now result }
{
    Answer::of(s, find(s, area, i))
}

// The range minimum since an active mark, with the session as it is, or why the Query is refused.
fn find(s: Session, area: &[u64], i: Position) -> Outcome<Session>
    ensures { Does s (Query i) area.now area.now (answered s result) }
{
    lent(s, area)?;
    if !within(s, i) {
        return Err(Refusal::NotActive);
    }
    let least = ranges::look_up(area, i).ok_or(Refusal::NotActive)?;
    Ok((Some(least), s))
}

// An active mark is forgotten.
pub fn close(s: Session, area: &mut [u64], i: Position) -> Answer<Session>
    ensures { Does s (Close i) area.old area.new result }
{
    Answer::of(s, take_close(s, area, i))
}

// The session after a Close, or why it is refused.
fn take_close(s: Session, area: &mut [u64], i: Position) -> Outcome<Session>
    ensures { Does s (Close i) area.old area.new (answered s result) }
{
    lent(s, area)?;
    if !within(s, i) {
        return Err(Refusal::NotActive);
    }
    if s.active == 0 {
        return Err(Refusal::NotActive);
    }
    if !ranges::close(area, i) {
        return Err(Refusal::NotActive);
    }
    let transition = history::transition_of(history::close_event(s.present, i), s.standing);
    let after = Session {
        active: s.active - 1,
        standing: transition.after,
        ..s
    };
    Ok((None, after))
}

// Any command. A match is plainest: what a command carries differs by its kind.
pub fn apply(s: Session, area: &mut [u64], command: Command) -> Answer<Session>
    ensures { Does s command area.old area.new result }
{
    match command {
        Command::Value(v) => value(s, area, v),
        Command::Mark => mark(s, area),
        Command::Query(i) => query(s, area, i),
        Command::Close(i) => close(s, area, i),
    }
}
