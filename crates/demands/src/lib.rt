// A run that is really made, so that the theorems over all runs speak of something; and the theorems, cited (proofs/Cited) and applied (proofs/Applied).
// Each call has the session that the last one returned, and is lent the words that were opened, but for two in `elsewhere`. A second run follows a refused
// opening, and document 01's example is written.
#![tactic(auto)]

ghost use Rattle.std.specs.Prelude.{◌≡◌, ◌++◌, length, take};
ghost use Rattle.history.specs.Histories.{session_of, blank};
ghost use Rattle.engine.specs.Calls.{Opens, Does};
ghost use Rattle.demands.specs.Witness as Witness;
ghost use Rattle.demands.specs.Witness.{asked, lines, session_left, unopened, RunExists};
ghost use Rattle.transcript.specs.Examples as transcript;
ghost use Rattle.demands.specs.Private.{Commanded};

use history::{Command, Position, Session};

// The calls of `Witness.filling`. Two of them go through `apply`. Session and words are two parameters, as in the calls: each may be lent other words.
fn filling(s: Session, area: &mut [u64; 640]) -> Session
    ensures { Commanded 640 s area.old area.new (asked Witness.filling) result }
{
    let value = engine::value(s, area, 4);
    let full = engine::mark(value.session, area);
    let close = engine::close(full.session, area, Position(1));
    let closed = engine::apply(close.session, area, Command::Query(Position(1)));
    let mark = engine::apply(closed.session, area, Command::Mark);
    let again = engine::close(mark.session, area, Position(3));
    let last = engine::mark(again.session, area);
    last.session
}

// The calls of `Witness.elsewhere` and those that follow. Words of another length are lent, and none.
fn elsewhere(s: Session, area: &mut [u64; 640], other: &mut [u64; 641]) -> Session
    ensures { Commanded 640 s area.old area.new (asked (Witness.elsewhere ++ Witness.filling)) result }
{
    let longer = engine::value(s, other, -9);
    let value = engine::value(longer.session, area, -3);
    let query = engine::query(value.session, area, Position(1));
    let mark = engine::mark(query.session, area);
    let none = engine::query(mark.session, &other[0..0], Position(1));
    filling(none.session, area)
}

// The calls of `Witness.marking` and those that follow.
fn marking(s: Session, area: &mut [u64; 640], other: &mut [u64; 641]) -> Session
    ensures { Commanded 640 s area.old area.new (asked lines) result }
{
    let early = engine::mark(s, area);
    let value = engine::value(early.session, area, 5);
    let mark = engine::mark(value.session, area);
    let again = engine::mark(mark.session, area);
    elsewhere(again.session, area, other)
}

// The run, from its opening on.
pub fn one_run() -> Session
    ensures { RunExists 640 lines Opens Does result × (result ≡ session_left) }
{
    let mut area = [0u64; 640];
    let mut other = [0u64; 641];
    let opened = engine::open(&mut area);
    marking(opened.session, &mut area, &mut other)
}

// The run after a refused opening: the calls of `unopened`.
pub fn refused_run() -> Session
    ensures { RunExists 575 unopened Opens Does result × (result ≡ session_of (blank 0 0)) }
{
    let mut area = [0u64; 575];
    let mut other = [0u64; 640];
    let opened = engine::open(&mut area);
    let value = engine::value(opened.session, &mut area, 5);
    let mark = engine::mark(value.session, &mut other);
    mark.session
}

// Document 01's example, through the stream program's `write`: these bytes, that output, whole.
pub fn example(out: &mut [u8; 180364]) -> usize
    ensures { take result out.new ≡ (transcript.example).output }
{
    let bytes = [
        1, 12, 0, 0, 0, 2, 1, 253, 255, 255, 255, 3, 1, 0, 0, 0, 4, 1, 0, 0, 0, 3, 1, 0, 0, 0,
    ];
    transcript::write(&bytes, out)
}
