// The played examples of document 01, in its order, a line each.
ghost use Rattle.std.specs.Prelude.{◌*◌, ◌<◌, ◌^◌};

use crate::board::Board;
use std::io;

// Openings of the first words of an area that holds the pattern: the session, and how many words of the whole area, from an index on, each changed. A refused
// opening changes no word, an accepted one none from 512 on.
// Never inlined, here and in `edges::many_merges`: else both areas, of two mebibytes each, would stand in one frame.
#[inline(never)]
pub fn openings(rt: &(impl Print + Drop)) -> io::Result<()> {
    let mut area = [0u64; 262720];
    for (n, from) in [
        (0, 0),
        (511, 0),
        (512, 0),
        (575, 0),
        (576, 512),
        (639, 512),
        (640, 512),
        (262655, 512),
        (262656, 512),
        (262720, 512),
    ] {
        compare::fill(&mut area);
        Board::open_first(rt, &mut area, n)?.end_changed(from)?;
    }
    Ok(())
}

// A script on N words, which are opened. It stays beside `merges::play`, which fills the words before and counts them behind: one function would take a flag for both.
pub fn play<const N: usize>(rt: &(impl Print + Drop), script: &str) -> io::Result<()>
    requires { N * 8 < 2 ^ 63 }
{
    let mut area = [0u64; N];
    let mut board = Board::open(rt, &mut area)?;
    board.run(script)?;
    board.end()
}

fn many_rounds(rt: &(impl Print + Drop)) -> io::Result<()> {
    let mut area = [0u64; 576];
    let mut board = Board::open(rt, &mut area)?;
    board.play(576, 100000, 7)?;
    board.end()
}

// All but the openings and the command bytes, with K = 1.
pub fn sequences(rt: &(impl Print + Drop)) -> io::Result<()> {
    for script in [
        "M",
        "Q0",
        "V5 M Q1",
        "V5 M V5 Q1",
        "V5 M V6 Q1",
        "V- M V+ Q1",
        "V+ M Q1",
        "V1 M M",
        "V1 M C1 M",
        "V1 M V2 M",
        "V1 M V2 C1 M Q2",
        "V1 M V2 M C1 M",
    ] {
        play::<576>(rt, script)?;
    }
    many_rounds(rt)
}
