// `lookup`, but for its input and output: a take is read, its index built and requests are answered, all as bytes, and all that is printed of them is written into an array.
#![tactic(auto)]

mod lines;

ghost use Rattle.std.specs.Prelude.{◌≡◌, ◌+◌, ◌*◌, ◌<◌, ◌≤◌, length, take};
ghost use Rattle.std.specs.Iterator.{YieldsFirst, item_count};
ghost use Rattle.io.specs.Counts.{IsPrefixLen};
ghost use Rattle.text.specs.Pages.{HasRoom};
ghost use Rattle.listing.specs.Input.{request_at, requests_behind};
ghost use Rattle.listing.specs.Choices.{Prints};
ghost use Rattle.listing.specs.Private.{Within, Headed, Heads, Performs, Follows, Holds, Plays};

use numbers::number_at;
use text::{Input, Ordinal, Page};

// What is asked of a take: its least value over a range, a stretch of it, a rough reading of a range, or another number in its index.
#[derive(Clone, Copy, PartialEq, Eq)]
pub enum Request {
    Search {
        from: usize,
        to: usize,
    },
    Stretch {
        from: usize,
        to: usize,
    },
    Rough {
        from: usize,
        to: usize,
        budget: usize,
    },
    Set {
        entry: usize,
        value: i32,
    },
}

// What the first bytes say: how many values a take has, and how many entries its index has.
#[derive(Clone, Copy)]
struct Heading {
    values: usize,
    entries: usize,
}

// The number of the four bytes at an offset, if they are there and it is no more than `most`.
fn number_within(bytes: &[u8], at: usize, most: usize) -> Option<usize>
    requires { at < 4294967296 }
    ensures { Within bytes.now at most result }
{
    if bytes.len() < at + 4 {
        return None;
    }
    let number = number_at(bytes, at) as usize;
    if number > most {
        return None;
    }
    Some(number)
}

// There is no take of more than 8,192 values, with more than 256 entries, or whose requests would begin behind the bytes' end.
fn read_heading(bytes: &[u8]) -> Option<Heading>
    ensures { Heads bytes.now result }
{
    let values = number_within(bytes, 0, 8192)?;
    let entries = number_within(bytes, 4 + 4 * values, 256)?;
    Some(Heading { values, entries })
}

// The request at an offset, unless its kind is unknown or fewer than 13 bytes are left.
fn request_at(bytes: &[u8], at: usize) -> Option<Request>
    requires { at ≤ length bytes.now }
    ensures { result ≡ request_at bytes.now at }
{
    if bytes.len() - at < 13 {
        return None;
    }
    let a = number_at(bytes, at + 1) as usize;
    let b = number_at(bytes, at + 5);
    let c = number_at(bytes, at + 9);
    match bytes[at] {
        1 => Some(Request::Search {
            from: a,
            to: b as usize,
        }),
        2 => Some(Request::Stretch {
            from: a,
            to: b as usize,
        }),
        3 => Some(Request::Rough {
            from: a,
            to: b as usize,
            budget: c as usize,
        }),
        4 => Some(Request::Set {
            entry: a,
            value: signed::signed_of(b),
        }),
        _ => None,
    }
}

// The requests from an offset on, one after the other, up to where there is none.
#[derive(Drop)]
struct Reader<'a> {
    bytes: &'a [u8],
    at: usize,
    ghost within: { at ≤ length bytes.now },
    ghost few: { length bytes.now ≤ at + 65528 },
}

impl Iterator for Reader<'_> {
    type Item = Request;

    ghost next_gives = { YieldsFirst (λ s. requests_behind s.at s.bytes.now) };

    ghost remaining = { item_count (λ s. requests_behind s.at s.bytes.now) };

    fn next(&mut self) -> Option<Request> {
        let request = request_at(self.bytes, self.at)?;
        self.at += 13;
        Some(request)
    }
}

// A take, and an index beside it, whatever its entries are.
#[derive(Drop)]
struct Stored<'t, 'i> {
    take: &'t [i32],
    index: &'i mut [i32],
}

impl Stored<'_, '_> {
    // The index, to be read.
    fn entries(&self) -> &[i32]
        ensures { result.now ≡ self.now.index.now }
    {
        self.index
    }

    // The n-th request, with its line, for which there is room. A match is plainest: what a request carries differs by its kind.
    fn perform(&mut self, request: Request, n: Ordinal, page: &mut Page<'_>)
        requires { HasRoom page.old 59 }
        ensures performs { Performs self.old self.new n.n request page.old page.new }
        ensures few { page.new.used ≤ page.old.used + 59 }
    {
        match request {
            Request::Search { from, to } => {
                lines::search(page, n, blocks::search(self.take, self.entries(), from, to));
            }
            Request::Stretch { from, to } => {
                lines::stretch(page, n, blocks::stretch(self.take, from, to));
            }
            Request::Rough { from, to, budget } => {
                lines::rough(
                    page,
                    n,
                    rough::read(self.take, self.entries(), from, to, budget),
                );
            }
            Request::Set { entry, value } => {
                if entry < self.index.len() {
                    self.index[entry] = value;
                }
                lines::set(page, n);
            }
        }
    }

    // The requests, one after the other, up to where there is none. How many there are is returned, so they are counted here: `enumerate` would spare no count.
    fn follow(&mut self, requests: Reader<'_>, page: &mut Page<'_>) -> usize
        requires { HasRoom page.old 297360 }
        ensures follows { Follows self.old requests.entry.bytes.now requests.entry.at page.old page.new result }
        ensures few { page.new.used ≤ page.old.used + 297360 }
    {
        let mut read = 0;
        for request in requests {
            read += 1;
            self.perform(request, Ordinal { n: read }, page);
        }
        read
    }

    // All that is printed of a take and its index, from building to the last line.
    fn run(&mut self, requests: Reader<'_>, page: &mut Page<'_>)
        requires holds { Holds requests.bytes.now requests.at self.old }
        requires room { HasRoom page.old 300532 }
        ensures { Plays requests.entry.bytes.now page.old page.new }
    {
        let bytes = requests.bytes;
        let start = requests.at;
        lines::build(page, blocks::build(self.take, self.index));
        lines::index(page, self.entries());
        let read = self.follow(requests, page);
        let at = start + 13 * read;
        page.put_stop(bytes.len() - at, at);
        lines::end(page, read);
    }
}

// A take of so many values, with an index of so many entries. There is no heap, so that they are the first of two arrays of fixed length.
fn load(input: Input<'_, 65536>, heading: Heading, page: &mut Page<'_>)
    requires headed { Headed input.bytes.now heading }
    requires room { HasRoom page.old 300532 }
    ensures { Plays input.entry.bytes.now page.old page.new }
{
    let bytes = input.bytes;
    let mut take = [0i32; 8192];
    let take = &mut take[..heading.values];
    numbers::read_values(bytes, 4, take);
    let mut index = [-1i32; 256];
    let mut stored = Stored {
        take,
        index: &mut index[..heading.entries],
    };
    let requests = Reader {
        bytes,
        at: 8 + 4 * heading.values,
    };
    stored.run(requests, page);
}

// All that is printed of bytes that are all read.
// Never inlined: `main` would fill its array for what is printed twice.
#[inline(never)]
fn play(input: Input<'_, 65536>, page: &mut Page<'_>)
    requires { HasRoom page.old 300532 }
    ensures { Plays input.entry.bytes.now page.old page.new }
{
    match read_heading(input.bytes) {
        Some(heading) => load(input, heading, page),
        None => lines::no_take(page),
    }
}

// Writes all that is printed of an input, of which no more than the first 65,536 bytes are read, and returns how many bytes that is: a number of bytes at the start of `out`, which is what
// `Counts` says. There is room for the first two lines, of 43 and 3,078 bytes, for those of 5,040 requests, of 59 bytes each, and for the last two, of 26 and 25.
// Three programs have such a `write`, of other sizes and of a `play` of their own. One over a closure would be these three lines, under clauses that say of any closure what it puts on a page.
pub fn write(bytes: &[u8], out: &mut [u8; 300532]) -> usize
    ensures prints { Prints bytes.now (take result out.new) }
    ensures prefix_len { IsPrefixLen result out.new }
{
    let mut page = Page::new(out);
    play(Input::new(bytes), &mut page);
    page.used
}
