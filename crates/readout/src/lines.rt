// The lines that the limiter prints, each put on a page where there is room for the longest such line.
ghost use Rattle.std.specs.Prelude.{◌+◌, ◌<◌, ◌≤◌};
ghost use Rattle.history.specs.Replies.{told};
ghost use Rattle.text.specs.Pages.{HasRoom, Puts};
ghost use Rattle.readout.specs.Lines.{no_window_line, open_line, value_line, end_line};

use history::Reply;
use text::{Ordinal, Page};

pub fn no_window(page: &mut Page<'_>)
    requires { HasRoom page.old 10 }
    ensures text { Puts page.old no_window_line page.new }
    ensures few { page.new.used ≤ page.old.used + 10 }
{
    page.put(b"no window\n");
}

// What it has in common with the line of `lookup`'s building is `put_last_reply`: the text differs, and what the reply shows.
pub fn opening(page: &mut Page<'_>, reply: Reply)
    requires { HasRoom page.old 32 }
    ensures text { Puts page.old (open_line (told reply)) page.new }
    ensures few { page.new.used ≤ page.old.used + 32 }
{
    page.put(b"open ");
    page.put_last_reply(reply);
}

// The line of the n-th value.
pub fn value(page: &mut Page<'_>, n: Ordinal, reply: Reply)
    requires { HasRoom page.old 33 }
    ensures text { Puts page.old (value_line n.n (told reply)) page.new }
    ensures few { page.new.used ≤ page.old.used + 33 }
{
    page.put_ordinal(n, b" ");
    page.put_last_reply(reply);
}

#[tactic(auto, using(text::proofs::Decimals::word_few))]
pub fn end(page: &mut Page<'_>, read: usize, accepted: usize)
    requires { HasRoom page.old 46 }
    ensures text { Puts page.old (end_line read accepted) page.new }
    ensures few { page.new.used ≤ page.old.used + 46 }
{
    page.put_numbered(b"end ", read as u64);
    page.put_last(b" ", accepted);
}
