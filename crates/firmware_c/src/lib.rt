// The library for the pedal's C firmware: each function of include/filkotar.h under its name, with the promise of the crate `firmware`, which it calls.
// Each stands here once more for the C interface: a static library exports what its own crate declares, and nothing that it only passes on.
#![tactic(auto)]

ghost use Rattle.std.specs.Prelude.{◌≡◌};
ghost use Rattle.history.specs.declared.Command.TheVariants.{Value, Mark, Query, Close};
ghost use Rattle.gain.specs.Gains.{gain_of};
ghost use Rattle.firmware.specs.Sessions as Sessions;
ghost use Rattle.firmware.specs.Windows as Windows;
ghost use Rattle.firmware.specs.Takes.{BuildsInNumbers, SearchesInNumbers};
ghost use Rattle.firmware.specs.Readings.{ReadsInNumbers};

use firmware::{
    AnswerNumbers, FoundNumbers, ReadingNumbers, SessionNumbers, WindowNumbers, WindowOutcome,
};

#[unsafe(no_mangle)]
pub extern "C" fn filkotar_open(area: &mut [u64]) -> AnswerNumbers
    ensures { Sessions.OpensInNumbers area.old area.new result }
{
    firmware::filkotar_open(area)
}

#[unsafe(no_mangle)]
pub extern "C" fn filkotar_value(s: SessionNumbers, area: &mut [u64], v: i32) -> AnswerNumbers
    ensures { Sessions.DoesInNumbers s (Value v) area.old area.new result }
{
    firmware::filkotar_value(s, area, v)
}

#[unsafe(no_mangle)]
pub extern "C" fn filkotar_mark(s: SessionNumbers, area: &mut [u64]) -> AnswerNumbers
    ensures { Sessions.DoesInNumbers s Mark area.old area.new result }
{
    firmware::filkotar_mark(s, area)
}

#[unsafe(no_mangle)]
pub extern "C" fn filkotar_query(s: SessionNumbers, area: &[u64], position: u32) -> AnswerNumbers
    ensures { Sessions.DoesInNumbers s (Query (record { 0 = position })) area.now area.now result }
{
    firmware::filkotar_query(s, area, position)
}

#[unsafe(no_mangle)]
pub extern "C" fn filkotar_close(
    s: SessionNumbers,
    area: &mut [u64],
    position: u32,
) -> AnswerNumbers
    ensures { Sessions.DoesInNumbers s (Close (record { 0 = position })) area.old area.new result }
{
    firmware::filkotar_close(s, area, position)
}

#[unsafe(no_mangle)]
pub extern "C" fn filkotar_gain(v: i32) -> u16
    ensures { result ≡ gain_of v }
{
    firmware::filkotar_gain(v)
}

#[unsafe(no_mangle)]
pub extern "C" fn filkotar_window_open(area: &mut [u64], width: usize) -> WindowOutcome
    ensures { Windows.OpensInNumbers width area.old area.new result }
{
    firmware::filkotar_window_open(area, width)
}

#[unsafe(no_mangle)]
pub extern "C" fn filkotar_window_value(s: WindowNumbers, area: &mut [u64], v: i32) -> WindowOutcome
    ensures { Windows.DoesInNumbers s v area.old area.new result }
{
    firmware::filkotar_window_value(s, area, v)
}

#[unsafe(no_mangle)]
pub extern "C" fn filkotar_build(take: &[i32], index: &mut [i32]) -> u32
    ensures { BuildsInNumbers take.now index.old index.new result }
{
    firmware::filkotar_build(take, index)
}

#[unsafe(no_mangle)]
pub extern "C" fn filkotar_search(take: &[i32], index: &[i32], i: usize, j: usize) -> FoundNumbers
    ensures { SearchesInNumbers take.now index.now i j result }
{
    firmware::filkotar_search(take, index, i, j)
}

#[unsafe(no_mangle)]
pub extern "C" fn filkotar_rough(
    take: &[i32],
    index: &[i32],
    i: usize,
    j: usize,
    budget: usize,
) -> ReadingNumbers
    ensures { ReadsInNumbers take.now index.now i j budget result }
{
    firmware::filkotar_rough(take, index, i, j, budget)
}
