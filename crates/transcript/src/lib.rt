// The stream program of document 01, but for its input and output: commands as bytes go through the engine, and all that is printed of them is written into an array.
#![tactic(auto)]

mod lines;

ghost use Rattle.std.specs.Prelude.{◌≡◌, ◌+◌, ◌*◌, ◌<◌, ◌≤◌, length, take};
ghost use Rattle.io.specs.Counts.{IsPrefixLen};
ghost use Rattle.reading.specs.Kinds.{bytes_of};
ghost use Rattle.text.specs.Pages.{HasRoom, Puts};
ghost use Rattle.transcript.specs.Streams.{stream_of};
ghost use Rattle.transcript.specs.Output.{printed, output_of};
ghost use Rattle.transcript.specs.Private.{Performs, Follows};

use following::Progress;
use history::{Command, Session};
use text::{Input, Ordinal, Page};

// The next command, with its line, for which there is room. Its running number has no more than five digits. `Progress` is what this shares with the limiter's: the call and the line differ, and
// both would be closures. The words and the page stay two parameters, here and below, since a struct of both would be taken apart in each: the call is lent the words, the line goes on the page.
fn perform(
    progress: Progress<Session>,
    area: &mut [u64],
    command: Command,
    page: &mut Page<'_>,
) -> Progress<Session>
    requires number { progress.read < 99999 }
    requires room { HasRoom page.old 35 }
    ensures performs { Performs progress command area.old area.new page.old page.new result }
    // the line takes eleven bytes at most for each byte of the command, as many as that of a Mark that is refused with 10 and whose running number has five digits
    ensures few { page.new.used ≤ page.old.used + 11 * bytes_of command }
{
    let answer = engine::apply(progress.session, area, command);
    let n = Ordinal {
        n: progress.read + 1,
    };
    lines::answer(page, n, command, answer.reply);
    progress.after(answer)
}

// The commands of a stream go to the session one after the other, until it ends or one cannot be read. An iterator over the commands would be no plainer: why one cannot be read, and where, is
// printed behind them.
fn follow(
    input: Input<'_, 16384>,
    area: &mut [u64],
    session: Session,
    page: &mut Page<'_>,
) -> Progress<Session>
    requires room { HasRoom page.old 180271 }
    ensures follows { Follows session area.old area.new input.entry.bytes.now page.old page.new result }
    ensures few { page.new.used ≤ page.old.used + 180271 }
{
    let mut progress = Progress::new(session);
    let mut at = 0;
    loop {
        match reading::read(&input.bytes[at..]) {
            Ok(None) => return progress,
            Ok(Some(next)) => {
                progress = perform(progress, area, next.command, page);
                at += next.length;
            }
            Err(why) => {
                lines::stop(page, at, why);
                return progress;
            }
        }
    }
}

// A stream from its opening to its last line.
fn play(input: Input<'_, 16384>, page: &mut Page<'_>)
    requires room { HasRoom page.old 180364 }
    ensures text { Puts page.old (printed 4352 (stream_of input.entry.bytes.now)) page.new }
{
    let mut area = [0u64; 4352];
    let opened = engine::open(&mut area);
    let session = opened.session;
    lines::taps(page, session.limit);
    let progress = follow(input, &mut area, session, page);
    let last = progress.session;
    lines::end(page, progress.read, progress.accepted, last.active);
}

// Writes all that is printed of a stream, of which no more than the first 16,384 bytes are read, and returns how many bytes that is: a number of bytes at the start of `out`, which is what
// `Counts` says. There is room for eleven bytes for each byte that is read, and for the first and the last lines.
// Three programs have such a `write`, of other sizes and of a `play` of their own. One over a closure would be these three lines, under clauses that say of any closure what it puts on a page.
pub fn write(bytes: &[u8], out: &mut [u8; 180364]) -> usize
    ensures out_after { take result out.new ≡ output_of bytes.now }
    ensures prefix_len { IsPrefixLen result out.new }
{
    let mut page = Page::new(out);
    play(Input::new(bytes), &mut page);
    page.used
}
