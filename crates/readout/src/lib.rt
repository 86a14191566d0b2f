// The limiter, but for its input and output: a window is opened and values go through it, all as bytes, and all that is printed of them is written into an array.
#![tactic(auto)]

mod lines;

ghost use Rattle.std.specs.Prelude.{◌≡◌, ◌+◌, ◌<◌, ◌≤◌, min, length, take};
ghost use Rattle.io.specs.Counts.{IsPrefixLen};
ghost use Rattle.text.specs.Pages.{HasRoom, Puts};
ghost use Rattle.readout.specs.Input.{values_of};
ghost use Rattle.readout.specs.Output.{printed, printed_of, output_of};
ghost use Rattle.readout.specs.Private.{Performs, Follows};

use following::Progress;
use numbers::number_at;
use text::{Input, Ordinal, Page};
use window::Window;

// The number of words to lend, of which there are no more than 8,192.
fn capped(words: u32) -> usize
    ensures { result ≡ min words 8192 }
{
    (words as usize).min(8192)
}

// The next value, with its line, for which there is room. Its running number has no more than five digits. `Progress` is what this shares with the stream program's: the call and the line differ,
// and both would be closures. The words and the page stay two parameters, here and below, since a struct of both would be taken apart in each: the call is lent the words, the line goes on the page.
fn perform(
    progress: Progress<Window>,
    area: &mut [u64],
    v: i32,
    page: &mut Page<'_>,
) -> Progress<Window>
    requires number { progress.read < 99999 }
    requires room { HasRoom page.old 33 }
    ensures performs { Performs progress v area.old area.new page.old page.new result }
    ensures few { page.new.used ≤ page.old.used + 33 }
{
    let answer = window::value(progress.session, area, v);
    let n = Ordinal {
        n: progress.read + 1,
    };
    lines::value(page, n, answer.reply);
    progress.after(answer)
}

// The values go to the session one after the other, all that have their four bytes.
fn follow(
    input: Input<'_, 65536>,
    area: &mut [u64],
    session: Window,
    page: &mut Page<'_>,
) -> Progress<Window>
    requires some { 8 ≤ length input.bytes.now }
    requires room { HasRoom page.old 540606 }
    ensures follows { Follows session (values_of input.entry.bytes.now) area.old area.new page.old page.new result }
    ensures few { page.new.used ≤ page.old.used + 540606 }
{
    let mut progress = Progress::new(session);
    for four in input.bytes[8..].chunks_exact(4) {
        progress = perform(progress, area, numbers::value_at(four, 0), page);
    }
    progress
}

// A window on the words lent, from its opening to its last line.
fn run(input: Input<'_, 65536>, area: &mut [u64], page: &mut Page<'_>)
    requires some { 8 ≤ length input.bytes.now }
    requires room { HasRoom page.old 540710 }
    ensures text { Puts page.old (printed (length area.old) input.entry.bytes.now) page.new }
{
    let bytes = input.bytes;
    let opened = window::open(area, number_at(bytes, 0) as usize);
    lines::opening(page, opened.reply);
    let progress = follow(input, area, opened.session, page);
    let left = bytes.len() % 4;
    page.put_stop(left, bytes.len() - left);
    lines::end(page, progress.read, progress.accepted);
}

// All that is printed of bytes that are all read. There is no heap, so that the words lent are the first of an array of fixed length.
// Never inlined: `main` would fill its array for what is printed twice.
#[inline(never)]
fn play(input: Input<'_, 65536>, page: &mut Page<'_>)
    requires room { HasRoom page.old 540710 }
    ensures text { Puts page.old (printed_of input.entry.bytes.now) page.new }
{
    if input.bytes.len() < 8 {
        lines::no_window(page);
        return;
    }
    let words = capped(number_at(input.bytes, 4));
    let mut area = [0u64; 8192];
    run(input, &mut area[..words], page);
}

// Writes all that is printed of an input, of which no more than the first 65,536 bytes are read, and returns how many bytes that is: a number of bytes at the start of `out`, which is what
// `Counts` says. There is room for the lines of 16,382 values, of 33 bytes each, and for the first and the last lines.
// Three programs have such a `write`, of other sizes and of a `play` of their own. One over a closure would be these three lines, under clauses that say of any closure what it puts on a page.
pub fn write(bytes: &[u8], out: &mut [u8; 540710]) -> usize
    ensures out_after { take result out.new ≡ output_of bytes.now }
    ensures prefix_len { IsPrefixLen result out.new }
{
    let mut page = Page::new(out);
    play(Input::new(bytes), &mut page);
    page.used
}
