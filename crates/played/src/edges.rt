// Answers that documents 01 and 02 imply and document 01's examples do not show, a line each.
use crate::board::Board;
use crate::{examples, merges};
use std::io;

// A length other than the opening's is refused, and changes nothing for the next command.
fn other_lengths(rt: &(impl Print + Drop)) -> io::Result<()> {
    let mut area = [0u64; 577];
    let mut board = Board::open_first(rt, &mut area, 576)?;
    for n in [575, 577, 0, 576] {
        board.run_first(n, "V1")?;
    }
    board.end()
}

// After a refused opening every command is refused, whatever is lent.
fn unopened(rt: &(impl Print + Drop)) -> io::Result<()> {
    let mut area = [0u64; 576];
    let mut board = Board::open_first(rt, &mut area, 575)?;
    for n in [575, 576, 0] {
        board.run_first(n, "V1 M Q1 C1")?;
    }
    board.end()
}

// An older mark keeps its dip through many rounds, whose closed marks the merges leave behind. The area is opened for 4,096 marks, and two
// at most are active together: the words from 512 + 64 * 2 on keep the pattern.
#[inline(never)]
fn many_merges(rt: &(impl Print + Drop)) -> io::Result<()> {
    let mut area = [0u64; 262656];
    compare::fill(&mut area);
    let mut board = Board::open(rt, &mut area)?;
    board.run("V9 M V8 M V3 C1")?;
    board.play(262656, 10000, 5)?;
    board.run("Q2 Q1")?;
    board.end_changed(640)
}

pub fn sequences(rt: &(impl Print + Drop)) -> io::Result<()> {
    other_lengths(rt)?;
    // Refusals in a row leave position 2 unmarked, and it is marked once a Close makes room.
    examples::play::<576>(rt, "V1 M V2 M M Q2 C2 M C1 M Q2")?;
    // Among equal values the earliest place counts, also where a greater one stands between them.
    examples::play::<576>(rt, "V3 M V3 V4 V3 Q1")?;
    // Two marks with one dip value, each at its own place: document 02, point 5, with K = 2.
    examples::play::<640>(rt, "V5 M V5 M Q1 Q2")?;
    // Three of them, on words for four marks: one is closed, an equal value takes over from none, and a lower one from all. The words from 512 + 64 * 3 on keep the pattern.
    let equal = ["V5 M V5 M V5 M Q1 Q2 Q3 C2 V5 Q1 Q3 V4 Q1 Q3"];
    merges::play::<768>(rt, &equal, 704)?;
    many_merges(rt)?;
    unopened(rt)
}
