// What the pedal's C firmware calls, under the names and with the promises of include/filkotar.h; `firmware_c` exports it. The modules say how sessions and answers cross, as structs of numbers.
#![tactic(auto)]

ghost use Rattle.std.specs.Prelude.{◌≡◌};
ghost use Rattle.history.specs.declared.Command.TheVariants.{Value, Mark, Query, Close};
ghost use Rattle.gain.specs.Gains.{gain_of};
ghost use Rattle.firmware.specs.Sessions as Sessions;
ghost use Rattle.firmware.specs.Windows as Windows;
ghost use Rattle.firmware.specs.Takes.{BuildsInNumbers, SearchesInNumbers};
ghost use Rattle.firmware.specs.Readings.{ReadsInNumbers};

use history::{Position, Session};
pub use readings::ReadingNumbers;
pub use sessions::{AnswerNumbers, SessionNumbers};
pub use takes::FoundNumbers;
use window::Window;
pub use windows::{WindowNumbers, WindowOutcome};

mod readings;
mod sessions;
mod takes;
mod windows;

// The level engine of document 01: the opening of an area.
#[unsafe(no_mangle)]
pub extern "C" fn filkotar_open(area: &mut [u64]) -> AnswerNumbers
    ensures { Sessions.OpensInNumbers area.old area.new result }
{
    let a = engine::open(area);
    AnswerNumbers::of(SessionNumbers::from(a.session), a.reply)
}

// The engine's next value.
#[unsafe(no_mangle)]
pub extern "C" fn filkotar_value(s: SessionNumbers, area: &mut [u64], v: i32) -> AnswerNumbers
    ensures { Sessions.DoesInNumbers s (Value v) area.old area.new result }
{
    let a = engine::value(Session::from(s), area, v);
    AnswerNumbers::of(s.after(a), a.reply)
}

// The present position becomes an active mark.
#[unsafe(no_mangle)]
pub extern "C" fn filkotar_mark(s: SessionNumbers, area: &mut [u64]) -> AnswerNumbers
    ensures { Sessions.DoesInNumbers s Mark area.old area.new result }
{
    let a = engine::mark(Session::from(s), area);
    AnswerNumbers::of(s.after(a), a.reply)
}

// The range minimum since an active mark. The session is the one handed in.
#[unsafe(no_mangle)]
pub extern "C" fn filkotar_query(s: SessionNumbers, area: &[u64], position: u32) -> AnswerNumbers
    ensures { Sessions.DoesInNumbers s (Query (record { 0 = position })) area.now area.now result }
{
    AnswerNumbers::of(
        s,
        engine::query(Session::from(s), area, Position(position)).reply,
    )
}

// An active mark is forgotten.
#[unsafe(no_mangle)]
pub extern "C" fn filkotar_close(
    s: SessionNumbers,
    area: &mut [u64],
    position: u32,
) -> AnswerNumbers
    ensures { Sessions.DoesInNumbers s (Close (record { 0 = position })) area.old area.new result }
{
    let a = engine::close(Session::from(s), area, Position(position));
    AnswerNumbers::of(s.after(a), a.reply)
}

// Document 02, point 1: "The pedal's C firmware calls the gain with a number and gets a number."
#[unsafe(no_mangle)]
pub extern "C" fn filkotar_gain(v: i32) -> u16
    ensures { result ≡ gain_of v }
{
    gain::gain(v)
}

// Document 02, point 2: the opening of a window of the last `width` values.
#[unsafe(no_mangle)]
pub extern "C" fn filkotar_window_open(area: &mut [u64], width: usize) -> WindowOutcome
    ensures { Windows.OpensInNumbers width area.old area.new result }
{
    WindowOutcome::from(window::open(area, width))
}

// The window's next value.
#[unsafe(no_mangle)]
pub extern "C" fn filkotar_window_value(s: WindowNumbers, area: &mut [u64], v: i32) -> WindowOutcome
    ensures { Windows.DoesInNumbers s v area.old area.new result }
{
    WindowOutcome::from(window::value(Window::from(s), area, v))
}

// Document 02, point 3: writes the index of a take.
#[unsafe(no_mangle)]
pub extern "C" fn filkotar_build(take: &[i32], index: &mut [i32]) -> u32
    ensures { BuildsInNumbers take.now index.old index.new result }
{
    u32::from(history::reply_number(blocks::build(take, index)))
}

// The least value of a take from `i` to `j`, both included, and its place, where the index was built from that take.
#[unsafe(no_mangle)]
pub extern "C" fn filkotar_search(take: &[i32], index: &[i32], i: usize, j: usize) -> FoundNumbers
    ensures { SearchesInNumbers take.now index.now i j result }
{
    FoundNumbers::from(blocks::search(take, index, i, j))
}

// Document 02, point 6: a rough reading of a take from `i` to `j`, both included, with a budget of looks.
#[unsafe(no_mangle)]
pub extern "C" fn filkotar_rough(
    take: &[i32],
    index: &[i32],
    i: usize,
    j: usize,
    budget: usize,
) -> ReadingNumbers
    ensures { ReadsInNumbers take.now index.now i j budget result }
{
    ReadingNumbers::from(rough::read(take, index, i, j, budget))
}
