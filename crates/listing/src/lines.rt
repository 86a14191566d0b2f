// The lines that `lookup` prints, each put on a page where there is room for the longest such line.
ghost use Rattle.std.specs.Prelude.{ℕ, ◌+◌, ◌*◌, ◌<◌, ◌≤◌, ◌++◌, length};
ghost use Rattle.blocks.specs.Takes.{told, told_building};
ghost use Rattle.rough.specs.Looks.{told as toldReading};
ghost use Rattle.text.specs.Writing.{decimal_of};
ghost use Rattle.text.specs.Pages.{HasRoom, Puts};
ghost use Rattle.listing.specs.Lines.{no_take_line, build_line, index_line, search_line, ends_text, stretch_line, figure_text, reading_text, rough_line, set_line, end_line};

use blocks::{Found, Offset};
use history::{RangeMinimum, Refusal};
use rough::Figures;
use text::{Ordinal, Page, Place};

// A place in a take, as it is shown: a type of its own, since the trait and the place are other crates'.
#[derive(Clone, Copy)]
struct Shown(Offset);

impl Place for Shown {
    ghost number = { λ place. place.0.0 };

    ghost digits = { 20 };

    #[tactic(auto, using(text::proofs::Decimals::word_few))]
    fn number(self) -> u64 {
        let place = self.0;
        place.0 as u64
    }
}

pub fn no_take(page: &mut Page<'_>)
    requires { HasRoom page.old 8 }
    ensures text { Puts page.old no_take_line page.new }
    ensures few { page.new.used ≤ page.old.used + 8 }
{
    page.put(b"no take\n");
}

pub fn build(page: &mut Page<'_>, reply: Result<(), Refusal>)
    requires { HasRoom page.old 43 }
    ensures text { Puts page.old (build_line (told_building reply)) page.new }
    ensures few { page.new.used ≤ page.old.used + 43 }
{
    page.put(b"build ");
    page.put_last_reply(reply);
}

// The line of an index: each entry has no more than eleven bytes, and a space before it.
pub fn index(page: &mut Page<'_>, entries: &[i32])
    requires { HasRoom page.old (12 * length entries.now + 6) }
    ensures text { Puts page.old (index_line entries.now) page.new }
    ensures few { page.new.used ≤ page.old.used + 12 * length entries.now + 6 }
{
    page.put(b"index");
    for entry in entries {
        page.put_value(*entry);
    }
    page.end_line();
}

// The lines of requests share how they begin, a running number and a text, which is `Page`'s: what stands behind these differs.

// The line of the n-th request, a search.
pub fn search(page: &mut Page<'_>, n: Ordinal, reply: Result<Found, Refusal>)
    requires { HasRoom page.old 50 }
    ensures text { Puts page.old (search_line n.n (told reply)) page.new }
    ensures few { page.new.used ≤ page.old.used + 50 }
{
    page.put_ordinal(n, b" search ");
    page.put_last_reply(reply.map(|found| RangeMinimum {
        value: found.value,
        place: Shown(found.place),
    }));
}

// The first and the last of some values, where there are any. By index: with `first` and `last` (tried) the proof does not close.
fn ends(page: &mut Page<'_>, part: &[i32])
    requires { HasRoom page.old 24 }
    ensures text { Puts page.old (ends_text part.now) page.new }
    ensures few { page.new.used ≤ page.old.used + 24 }
{
    if part.is_empty() {
        return;
    }
    page.put_value(part[0]);
    page.put_value(part[part.len() - 1]);
}

// The line of the n-th request, a stretch.
#[tactic(auto, using(text::proofs::Decimals::word_few))]
pub fn stretch(page: &mut Page<'_>, n: Ordinal, part: &[i32])
    requires { HasRoom page.old 59 }
    ensures text { Puts page.old (stretch_line n.n part.now) page.new }
    ensures few { page.new.used ≤ page.old.used + 59 }
{
    page.put_ordinal(n, b" stretch ");
    page.put_number(part.len() as u64);
    ends(page, part);
    page.end_line();
}

// A figure behind a space, or `-` where there is none.
fn figure(page: &mut Page<'_>, known: Option<i32>)
    requires { HasRoom page.old 12 }
    ensures text { Puts page.old (figure_text known) page.new }
    ensures few { page.new.used ≤ page.old.used + 12 }
{
    match known {
        Some(v) => page.put_value(v),
        None => page.put(b" -"),
    }
}

// A rough reading: the reply's number, the looks used and both figures; of a refusal its number, no look and no figure. Where there are figures the number is 0, and the text has no more than
// 46 bytes: twenty digits of looks, and two values. The number stands in each arm, as in `Page::put_reply`: asked for before, by `reply_number`, it would be matched twice.
#[tactic(auto, using(text::proofs::Decimals::word_few, text::proofs::ReplyTexts::number_few, text::proofs::ReplyTexts::zero_few))]
fn reading(page: &mut Page<'_>, reading: Result<Figures, Refusal>)
    requires { HasRoom page.old 46 }
    ensures text { Puts page.old (reading_text (toldReading reading)) page.new }
    ensures few { page.new.used ≤ page.old.used + 46 }
{
    match reading {
        Ok(figures) => {
            page.put_number(0);
            page.put_numbered(b" ", figures.looks as u64);
            figure(page, figures.high);
            page.put_value(figures.low);
        }
        Err(why) => {
            page.put_number(u64::from(u8::from(why)));
            page.put_numbered(b" ", 0);
            page.put(b" - -");
        }
    }
}

// The line of the n-th request, a rough reading.
pub fn rough(page: &mut Page<'_>, n: Ordinal, reply: Result<Figures, Refusal>)
    requires { HasRoom page.old 59 }
    ensures text { Puts page.old (rough_line n.n (toldReading reply)) page.new }
    ensures few { page.new.used ≤ page.old.used + 59 }
{
    page.put_ordinal(n, b" rough ");
    reading(page, reply);
    page.end_line();
}

// The line of the n-th request, a `set`.
pub fn set(page: &mut Page<'_>, n: Ordinal)
    requires { HasRoom page.old 10 }
    ensures text { Puts page.old (set_line n.n) page.new }
    ensures few { page.new.used ≤ page.old.used + 10 }
{
    page.put_ordinal(n, b" set\n");
}

pub fn end(page: &mut Page<'_>, read: usize)
    requires { HasRoom page.old 25 }
    ensures text { Puts page.old (end_line read) page.new }
    ensures few { page.new.used ≤ page.old.used + 25 }
{
    page.put_last(b"end ", read);
}
