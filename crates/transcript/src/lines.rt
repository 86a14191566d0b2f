// The lines that document 01 has the stream program print, each put on a page where there is room for the longest such line.
ghost use Rattle.std.specs.Prelude.{◌≡◌, ◌+◌, ◌<◌, ◌≤◌};
ghost use Rattle.history.specs.Replies.{number_of, told};
ghost use Rattle.text.specs.Pages.{HasRoom, Puts};
ghost use Rattle.transcript.specs.Lines.{letter_of, taps_line, answer_line, stop_line, end_line};

use history::{Command, Refusal, Reply};
use text::{Ordinal, Page};

pub fn taps(page: &mut Page<'_>, limit: usize)
    requires { HasRoom page.old 26 }
    ensures text { Puts page.old (taps_line limit) page.new }
    ensures few { page.new.used ≤ page.old.used + 26 }
{
    page.put_last(b"taps ", limit);
}

// A function, and no `From`: both types are another crate's.
fn letter(command: Command) -> u8
    ensures { result ≡ letter_of command }
{
    match command {
        Command::Value(_) => b'V',
        Command::Mark => b'M',
        Command::Query(_) => b'Q',
        Command::Close(_) => b'C',
    }
}

// The line of the n-th command.
pub fn answer(page: &mut Page<'_>, n: Ordinal, command: Command, reply: Reply)
    requires { HasRoom page.old 35 }
    ensures text { Puts page.old (answer_line n.n command (told reply)) page.new }
    ensures few { page.new.used ≤ page.old.used + 35 }
{
    page.put_ordinal(n, &[b' ', letter(command), b' ']);
    page.put_last_reply(reply);
}

#[tactic(auto, using(text::proofs::Decimals::word_few))]
pub fn stop(page: &mut Page<'_>, offset: usize, why: Refusal)
    requires { HasRoom page.old 47 }
    ensures text { Puts page.old (stop_line offset (number_of why)) page.new }
    ensures few { page.new.used ≤ page.old.used + 47 }
{
    page.put_numbered(b"stop ", offset as u64);
    page.put_last(b" ", usize::from(u8::from(why)));
}

#[tactic(auto, using(text::proofs::Decimals::word_few))]
pub fn end(page: &mut Page<'_>, read: usize, accepted: usize, active: usize)
    requires { HasRoom page.old 67 }
    ensures text { Puts page.old (end_line read accepted active) page.new }
    ensures few { page.new.used ≤ page.old.used + 67 }
{
    page.put_numbered(b"end ", read as u64);
    page.put_numbered(b" ", accepted as u64);
    page.put_last(b" ", active);
}
