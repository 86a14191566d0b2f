// What programs read and write: the bytes that one reads, and text, written from left to right into bytes that are lent: bytes, numbers, signed values and replies. Nothing here knows what
// line they stand in, but for the one line that two programs share.
#![tactic(auto)]

ghost use Rattle.std.specs.Prelude.{◌≡◌, List, [], ◌++◌, ℕ, ◌+◌, ◌<◌, ◌≤◌, length, take};
ghost use Rattle.text.specs.Writing.{decimal_of, signed_text};
ghost use Rattle.text.specs.Pages.{HasRoom, Puts};
ghost use Rattle.text.specs.Parts.{newline, value_text, least_text, shown_text, replied_text};
ghost use Rattle.text.specs.Stops.{stop_lines};

use history::{Position, RangeMinimum, Refusal};

// The bytes that a program reads, no more than so many.
#[derive(Clone, Copy)]
pub struct Input<'a, const MOST: usize> {
    pub bytes: &'a [u8],
    pub ghost most: { length bytes.now ≤ MOST },
}

impl<'a, const MOST: usize> Input<'a, MOST> {
    // The first of the bytes that there are.
    pub fn new(bytes: &'a [u8]) -> Input<'a, MOST>
        ensures { result.bytes.now ≡ take MOST bytes.now }
    {
        Input {
            bytes: &bytes[..bytes.len().min(MOST)],
        }
    }
}

// The running number of a line, which has no more than five digits.
#[derive(Clone, Copy)]
pub struct Ordinal {
    pub n: usize,
    pub ghost few: { n < 100000 },
}

// What a reply may show.
pub trait Shown: Copy {
    // Its text, and how many bytes that has at most.
    ghost text: { Self → List ℕ };

    ghost most: { ℕ };

    fn put_on(self, page: &mut Page<'_>)
        requires { HasRoom page.old most }
        ensures text { Puts page.old (text self) page.new }
        ensures few { page.new.used ≤ page.old.used + most };
}

// Nothing is shown.
impl Shown for () {
    ghost text = { λ _. [] };

    ghost most = { 0 };

    fn put_on(self, _page: &mut Page<'_>) {}
}

// A place that has a number, of so many digits at most.
pub trait Place: Copy {
    ghost number: { Self → ℕ };

    ghost digits: { ℕ };

    fn number(self) -> u64
        ensures number { result ≡ number self }
        ensures few { length (decimal_of (number self)) ≤ digits };
}

// A position of a stream.
impl Place for Position {
    ghost number = { λ place. place.0 };

    ghost digits = { 10 };

    #[tactic(auto, using(crate::proofs::Decimals::place_few))]
    fn number(self) -> u64 {
        u64::from(self.0)
    }
}

// The least value of a range and its place, each behind a space.
impl<P: Place> Shown for RangeMinimum<P> {
    ghost text = { λ least. least_text P.number least };

    ghost most = { 13 + P.digits };

    fn put_on(self, page: &mut Page<'_>) {
        page.put_value(self.value);
        let place = self.place;
        page.put_numbered(b" ", place.number());
    }
}

// What is there, if anything.
impl<T: Shown> Shown for Option<T> {
    ghost text = { λ shown. shown_text T.text shown };

    ghost most = { T.most };

    fn put_on(self, page: &mut Page<'_>) {
        if let Some(shown) = self {
            shown.put_on(page);
        }
    }
}

// Bytes that are lent, and how many of them are written: those at the start. No `fmt::Write`, and no `Display` of what is put: what these promise holds where `Ok` comes back, and nothing says when it
// does, while there is room here for all that is put.
// Each function that puts a text states how much room it asks for and how much it takes at most. The number is the text's own: a type for each line, as the trait above has it, would state the same two clauses.
#[derive(Drop)]
pub struct Page<'a> {
    pub out: &'a mut [u8],
    pub used: usize,
}

impl<'a> Page<'a> {
    // No byte is written yet.
    pub fn new(out: &'a mut [u8]) -> Page<'a>
        ensures same { result.out.ghost_name ≡ out.entry.ghost_name }
        ensures bytes { result.out.now ≡ out.old }
        ensures nothing { result.used ≡ 0 }
    {
        Page { out, used: 0 }
    }

    // Writes a text behind those that are written.
    pub fn put(&mut self, text: &[u8])
        requires { HasRoom self.old (length text.now) }
        ensures { Puts self.old text.now self.new }
    {
        let end = self.used + text.len();
        self.out[self.used..end].copy_from_slice(text);
        self.used = end;
    }

    pub fn put_number(&mut self, n: u64)
        requires { HasRoom self.old (length (decimal_of n)) }
        ensures { Puts self.old (decimal_of n) self.new }
    {
        // there is no heap: `io::decimal` writes into lent bytes, and says how many
        let mut digits = [0u8; 20];
        let k = io::decimal(n, &mut digits);
        self.put(&digits[..k]);
    }

    // A text, and a number behind it.
    pub fn put_numbered(&mut self, text: &[u8], n: u64)
        requires { HasRoom self.old (length (text.now ++ decimal_of n)) }
        ensures { Puts self.old (text.now ++ decimal_of n) self.new }
    {
        self.put(text);
        self.put_number(n);
    }

    // A line's end.
    pub fn end_line(&mut self)
        requires { HasRoom self.old 1 }
        ensures { Puts self.old newline self.new }
    {
        self.put(b"\n");
    }

    // A text, and a number behind it, which end a line.
    #[tactic(auto, using(crate::proofs::Decimals::behind_few))]
    pub fn put_last(&mut self, text: &[u8], n: usize)
        requires { HasRoom self.old (length text.now + 21) }
        ensures text { Puts self.old (text.now ++ (decimal_of n ++ newline)) self.new }
        ensures few { self.new.used ≤ self.old.used + length text.now + 21 }
    {
        self.put_numbered(text, n as u64);
        self.end_line();
    }

    // A running number, and a text behind it.
    #[tactic(auto, using(crate::proofs::Decimals::ordinal_few))]
    pub fn put_ordinal(&mut self, n: Ordinal, text: &[u8])
        requires { HasRoom self.old (5 + length text.now) }
        ensures text { Puts self.old (decimal_of n.n ++ text.now) self.new }
        ensures few { self.new.used ≤ self.old.used + 5 + length text.now }
    {
        self.put_number(n.n as u64);
        self.put(text);
    }

    // A value, which has no more than eleven bytes.
    #[tactic(auto, using(crate::proofs::SignedTexts::size_few, crate::proofs::SignedTexts::signed_few))]
    pub fn put_signed(&mut self, v: i32)
        requires { HasRoom self.old 11 }
        ensures text { Puts self.old (signed_text v) self.new }
        ensures few { self.new.used ≤ self.old.used + 11 }
    {
        if v < 0 {
            self.put(b"-");
        }
        self.put_number(signed::magnitude(v));
    }

    // A value behind a space.
    pub fn put_value(&mut self, v: i32)
        requires { HasRoom self.old 12 }
        ensures text { Puts self.old (value_text v) self.new }
        ensures few { self.new.used ≤ self.old.used + 12 }
    {
        self.put(b" ");
        self.put_signed(v);
    }

    // A reply: its number, and what an acceptance shows.
    #[tactic(auto, using(crate::proofs::ReplyTexts::zero_few, crate::proofs::ReplyTexts::number_few))]
    pub fn put_reply<T: Shown>(&mut self, reply: Result<T, Refusal>)
        requires { HasRoom self.old (3 + T.most) }
        ensures text { Puts self.old (replied_text T.text reply) self.new }
        ensures few { self.new.used ≤ self.old.used + 3 + T.most }
    {
        match reply {
            Ok(shown) => {
                self.put_number(0);
                shown.put_on(self);
            }
            Err(why) => self.put_number(u64::from(u8::from(why))),
        }
    }

    // The same, where it ends a line.
    pub fn put_last_reply<T: Shown>(&mut self, reply: Result<T, Refusal>)
        requires { HasRoom self.old (4 + T.most) }
        ensures text { Puts self.old (replied_text T.text reply ++ newline) self.new }
        ensures few { self.new.used ≤ self.old.used + 4 + T.most }
    {
        self.put_reply(reply);
        self.end_line();
    }

    // The line of the bytes that are left at an offset, where there are any.
    pub fn put_stop(&mut self, left: usize, offset: usize)
        requires { HasRoom self.old 26 }
        ensures text { Puts self.old (stop_lines left offset) self.new }
        ensures few { self.new.used ≤ self.old.used + 26 }
    {
        if left > 0 {
            self.put_last(b"stop ", offset);
        }
    }
}
