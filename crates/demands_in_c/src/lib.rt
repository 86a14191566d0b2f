// The run of `demands` once more, of the calls that C makes, so that the demands over them speak of something; and the theorems, cited (proofs/Cited) and applied (proofs/Applied).
// Each call has the session that the last one returned, and is lent the words that were opened, but for two in `elsewhere`. A second run follows a refused opening.
#![tactic(auto)]

ghost use Rattle.std.specs.Prelude.{◌≡◌, ◌++◌};
ghost use Rattle.demands.specs.Witness as Witness;
ghost use Rattle.demands.specs.Witness.{asked};
ghost use Rattle.firmware.specs.Sessions.{OpensInNumbers, DoesInNumbers};
ghost use Rattle.demands_in_c.specs.Witness.{session_left, unopened_left, in_c, RunExists};
ghost use Rattle.demands_in_c.specs.Private.{Commanded};

use firmware::SessionNumbers;

// The calls of `Witness.filling`. Session and words are two parameters, as in the calls: each may be lent other words.
fn filling(s: SessionNumbers, area: &mut [u64; 640]) -> SessionNumbers
    ensures { Commanded 640 s area.old area.new (asked Witness.filling) result }
{
    let value = firmware::filkotar_value(s, area, 4);
    let full = firmware::filkotar_mark(value.session, area);
    let close = firmware::filkotar_close(full.session, area, 1);
    let closed = firmware::filkotar_query(close.session, area, 1);
    let mark = firmware::filkotar_mark(closed.session, area);
    let again = firmware::filkotar_close(mark.session, area, 3);
    let last = firmware::filkotar_mark(again.session, area);
    last.session
}

// The calls of `Witness.elsewhere` and those that follow. Words of another length are lent, and none.
fn elsewhere(s: SessionNumbers, area: &mut [u64; 640], other: &mut [u64; 641]) -> SessionNumbers
    ensures { Commanded 640 s area.old area.new (asked (Witness.elsewhere ++ Witness.filling)) result }
{
    let longer = firmware::filkotar_value(s, other, -9);
    let value = firmware::filkotar_value(longer.session, area, -3);
    let query = firmware::filkotar_query(value.session, area, 1);
    let mark = firmware::filkotar_mark(query.session, area);
    let none = firmware::filkotar_query(mark.session, &other[0..0], 1);
    filling(none.session, area)
}

// The calls of `Witness.marking` and those that follow.
fn marking(s: SessionNumbers, area: &mut [u64; 640], other: &mut [u64; 641]) -> SessionNumbers
    ensures { Commanded 640 s area.old area.new (asked Witness.lines) result }
{
    let early = firmware::filkotar_mark(s, area);
    let value = firmware::filkotar_value(early.session, area, 5);
    let mark = firmware::filkotar_mark(value.session, area);
    let again = firmware::filkotar_mark(mark.session, area);
    elsewhere(again.session, area, other)
}

// The run, from its opening on.
pub fn one_run() -> SessionNumbers
    ensures { RunExists 640 (in_c Witness.lines) OpensInNumbers DoesInNumbers result × (result ≡ session_left) }
{
    let mut area = [0u64; 640];
    let mut other = [0u64; 641];
    let opened = firmware::filkotar_open(&mut area);
    marking(opened.session, &mut area, &mut other)
}

// The run after a refused opening: the calls of `Witness.unopened`.
pub fn refused_run() -> SessionNumbers
    ensures { RunExists 575 (in_c Witness.unopened) OpensInNumbers DoesInNumbers result × (result ≡ unopened_left) }
{
    let mut area = [0u64; 575];
    let mut other = [0u64; 640];
    let opened = firmware::filkotar_open(&mut area);
    let value = firmware::filkotar_value(opened.session, &mut area, 5);
    let mark = firmware::filkotar_mark(value.session, &mut other);
    mark.session
}
