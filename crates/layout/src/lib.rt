// Where things stand in the lent words: a header of 32 words, then four lanes, row n of lane k in the 8 words from 32 + 8k + 32n on.
// Row n of a lane holds the mark of reduced position n (1 and 2; 0 and 3 are spare), the stack entry at place n (4 and 5; 6 is spare) and the head of hash
// bucket n (7). So the words touched grow with the rows there is room for, and these with the active marks.
// The header has 8 words for each role: the lane that has it, its rows, the rows it has room for, its stack's height (0 to 3), the position that it starts at (4: of the active and
// the younger lane), and the next row that is carried into the next lane, with its run (5 and 6: of the younger and the older one).
#![tactic(auto)]

ghost use Rattle.std.specs.Prelude.{◌≡◌, ◌+◌, ◌*◌, ◌<◌, ◌≤◌, length};
ghost use Rattle.layout.specs.Words.{header_of, emptied, puts, extent_puts, left_puts, base_of};
ghost use Rattle.layout.specs.Calls.{Read, Roomy};

// The words of the header: 8 for each role.
pub const HEADER: usize = 32;

// The most marks that an area is opened for, whatever its length.
pub const MOST_MARKS: usize = 4096;

// The rows of a lane that the first 512 words have room for.
pub const FIRST_ROWS: usize = 15;

// The rows that a lane has room for at most: 2 for each mark, and the first ones.
pub const MOST_ROWS: usize = 8207;

// A reduced position: source document 000's number of a mark among those it keeps, here its row in a lane. A number of rows is the row after the last.
#[derive(Clone, Copy, PartialEq, Eq, PartialOrd, Ord)]
pub struct Held(pub usize);

// A place of a stack, from 0 at its bottom. A stack's height is the place after its top.
#[derive(Clone, Copy, PartialEq, Eq, PartialOrd, Ord)]
pub struct Place(pub usize);

// One of the four lanes: those whose numbers leave the same remainder by 4 are the same. So it derives no comparison, which would tell them apart.
#[derive(Clone, Copy)]
pub struct Lane(pub usize);

// What a lane is for (source document 000, Lemma 7): the active one gets the marks and values; the two older ones, which stand still, are merged into the next one.
#[derive(Clone, Copy, PartialEq, Eq)]
pub enum Role {
    Active,
    Younger,
    Older,
    Next,
}

// A lane, how many rows are in use, how many there is room for, and how high its stack is.
// All that outlives a call stands in the words that the caller lends: so lists are numbers of rows beside words there, and links are numbers of rows.
// The words stay a parameter of their own beside it, in `stack`, `table` and `ranges`: they are the caller's. A struct over both was tried: each method that writes then owes a clause
// that the words are the same ones still.
#[derive(Clone, Copy)]
pub struct Extent {
    pub lane: Lane,
    pub rows: Held,
    pub capacity: Held,
    pub height: Place,
}

// Where the words of a lane's rows stand. That a row, a place or a bucket is at most 8,207 is asked at each: rows and heights come from words of any content, and `has_room` tests
// them once for a call; a type that has the bound would be made, and tested, row by row. Each word has a method, and not one method a kind of word, since a mark is of a row, an entry of a place,
// and a head of a bucket.
impl Lane {
    // The lane with no rows, and room for so many.
    pub fn empty(self, capacity: Held) -> Extent
        ensures { result ≡ emptied self capacity }
    {
        Extent {
            lane: self,
            rows: Held(0),
            capacity,
            height: Place(0),
        }
    }

    // Word f of a row, place or bucket.
    fn word(self, row: usize, f: usize) -> usize
        requires { (row ≤ 8207) × (f < 8) }
        ensures { result ≡ base_of self + 32 * row + f }
    {
        32 + 8 * (self.0 % 4) + 32 * row + f
    }

    // A row's mark.
    pub fn mark(self, held: Held) -> usize
        requires { held.0 ≤ 8207 }
        ensures { result ≡ base_of self + 32 * held.0 + 1 }
    {
        self.word(held.0, 1)
    }

    // The next older row of its bucket.
    pub fn link(self, held: Held) -> usize
        requires { held.0 ≤ 8207 }
        ensures { result ≡ base_of self + 32 * held.0 + 2 }
    {
        self.word(held.0, 2)
    }

    // The word of the stack's entry at a place.
    pub fn least(self, place: Place) -> usize
        requires { place.0 ≤ 8207 }
        ensures { result ≡ base_of self + 32 * place.0 + 4 }
    {
        self.word(place.0, 4)
    }

    // The first row of its run.
    pub fn first(self, place: Place) -> usize
        requires { place.0 ≤ 8207 }
        ensures { result ≡ base_of self + 32 * place.0 + 5 }
    {
        self.word(place.0, 5)
    }

    // The head of a hash bucket.
    pub fn head(self, bucket: usize) -> usize
        requires { bucket ≤ 8207 }
        ensures { result ≡ base_of self + 32 * bucket + 7 }
    {
        self.word(bucket, 7)
    }
}

// Where the words of a role stand in the header: a method for each, so that no other crate has its number. One over an enum of the words would be the same names, and longer calls.
impl Role {
    // Word f of a role.
    fn word(self, f: usize) -> usize
        requires { f < 8 }
        ensures { (result ≡ header_of self + f) × (result < 32) }
    {
        let at = match self {
            Role::Active => 0,
            Role::Younger => 8,
            Role::Older => 16,
            Role::Next => 24,
        };
        at + f
    }

    // The number of the lane that has it.
    fn lane(self) -> usize
        ensures { (result ≡ header_of self) × (result ≤ 24) }
    {
        self.word(0)
    }

    // How many rows are in use.
    pub fn rows(self) -> usize
        ensures { (result ≡ header_of self + 1) × (result < 32) }
    {
        self.word(1)
    }

    // How many rows there is room for.
    fn capacity(self) -> usize
        ensures { (result ≡ header_of self + 2) × (result < 32) }
    {
        self.word(2)
    }

    // How high the stack is.
    pub fn height(self) -> usize
        ensures { (result ≡ header_of self + 3) × (result < 32) }
    {
        self.word(3)
    }

    // The position that the lane starts at: of the active and the younger one.
    pub fn start(self) -> usize
        ensures { (result ≡ header_of self + 4) × (result < 32) }
    {
        self.word(4)
    }

    // The next row that is carried into the next lane: of the younger and the older one.
    pub fn left(self) -> usize
        ensures { (result ≡ header_of self + 5) × (result < 32) }
    {
        self.word(5)
    }

    // The run that has this row.
    pub fn run(self) -> usize
        ensures { (result ≡ header_of self + 6) × (result < 32) }
    {
        self.word(6)
    }
}

// The lane of a role as the header has it; of fewer words than a header's, an empty one, and no `None`: what each caller would do then is what it does with an empty lane, nothing.
pub fn read(area: &[u64], role: Role) -> Extent
    ensures { Read area.now role result }
{
    if area.len() < HEADER {
        return Lane(0).empty(Held(0));
    }
    Extent {
        lane: Lane(area[role.lane()] as usize),
        rows: Held(area[role.rows()] as usize),
        capacity: Held(area[role.capacity()] as usize),
        height: Place(area[role.height()] as usize),
    }
}

// The lane of a role is written into the header.
pub fn write(area: &mut [u64], role: Role, e: Extent)
    requires { 32 ≤ length area.old }
    ensures { area.new ≡ puts (extent_puts role e) area.old }
{
    area[role.lane()] = e.lane.0 as u64;
    area[role.rows()] = e.rows.0 as u64;
    area[role.capacity()] = e.capacity.0 as u64;
    area[role.height()] = e.height.0 as u64;
}

// The next row of a role's lane that is carried, and the run that has it, are written into the header.
pub fn write_left(area: &mut [u64], role: Role, left: Held, run: Place)
    requires { 32 ≤ length area.old }
    ensures { area.new ≡ puts (left_puts role left run) area.old }
{
    area[role.left()] = left.0 as u64;
    area[role.run()] = run.0 as u64;
}

// Whether the words have room for so many rows of each lane.
pub fn has_room(area: &[u64], rows: usize) -> bool
    ensures { Roomy area.now rows result }
{
    if area.len() < HEADER {
        return false;
    }
    rows <= ((area.len() - HEADER) / 32).min(MOST_ROWS)
}
