// Cases of the look-ahead window of document 02, point 2, a line each: openings at the edges of W and of the words, other lengths, no opening, and the last positions.
use crate::board::{self, Board};
use crate::shown::Shown;
use history::Position;
use std::io;
use window::Window;

// What `open_first`, `apply` and `refused` are of the engine. Each calls another crate, by other arguments, and prints another line: a trait over both would be longer, and no plainer.
impl<'a, R: Print + Drop, const N: usize> Board<'a, R, N, Window> {
    // An opening of the first n words, or of all where there are fewer.
    fn open_window(
        rt: &'a R,
        area: &'a mut [u64; N],
        n: usize,
        width: usize,
    ) -> io::Result<Board<'a, R, N, Window>> {
        let lent = board::first(area, n);
        let words = lent.len();
        let answer = window::open(lent, width);
        print!(rt; "window {width} on {words}: {}; ", Shown(answer.reply))?;
        Ok(Board {
            rt,
            area,
            session: answer.session,
        })
    }

    // A value lent the first n words, or all where there are fewer, with its reply.
    fn value(&mut self, n: usize, v: i32) -> io::Result<()> {
        let lent = board::first(self.area, n);
        let words = lent.len();
        let answer = window::value(self.session, lent, v);
        self.session = answer.session;
        print!(self.rt; "lent {words} V {v}: {}; ", Shown(answer.reply))
    }
}

impl<R: Print + Drop> Board<'_, R, 577, Window> {
    // A value that is refused: its reply, how many words of the area it changed, and the session after it.
    fn refused(&mut self, n: usize, v: i32) -> io::Result<()> {
        let before = *self.area;
        self.value(n, v)?;
        print!(self.rt;
            "{} words changed; ",
            compare::differing(&before, self.area)
        )
    }
}

// Openings of the first words of an area that is filled before each, with how many words from an index on it changed:
// "12 at the window's opening for W outside 1 to 4,096; then 13 there for fewer than 2 × W words; both write nothing"
fn openings(rt: &(impl Print + Drop)) -> io::Result<()> {
    let mut area = [0u64; 8193];
    for (n, width, from) in [
        (0, 0, 0),
        (8193, 0, 0),
        (0, 4097, 0),
        (8193, 4097, 0),
        (8193, 9223372036854775808, 0),
        (8193, 18446744073709551615, 0),
        (0, 1, 0),
        (1, 1, 0),
        (2, 1, 2),
        (287, 144, 0),
        (288, 144, 288),
        (289, 144, 288),
        (8191, 4096, 0),
        (8192, 4096, 8192),
        (8193, 4096, 8192),
    ] {
        compare::fill(&mut area);
        Board::open_window(rt, &mut area, n, width)?.end_changed(from)?;
    }
    Ok(())
}

// 5: any other length than the opening's, and the next value is told as if nothing had been.
fn other_lengths(rt: &(impl Print + Drop), area: &mut [u64; 577]) -> io::Result<()> {
    let mut board = Board::open_window(rt, area, 4, 2)?;
    board.value(4, 3)?;
    board.refused(5, -9)?;
    board.refused(3, -9)?;
    board.value(4, 1)?;
    board.refused(0, -9)?;
    board.refused(577, -9)?;
    board.value(4, 2)?;
    board.value(4, 2)?;
    board.end_changed(4)
}

// 4: after an opening that was refused, whatever is lent.
fn unopened(rt: &(impl Print + Drop), area: &mut [u64; 577]) -> io::Result<()> {
    let mut board = Board::open_window(rt, area, 5, 3)?;
    for (n, v) in [(5, 1), (6, 2), (0, 3)] {
        board.refused(n, v)?;
    }
    board.end()
}

// 6: at the last position, in a session made by hand, since no run here is as long. The one before it is accepted, and W = 1 tells the value just given.
fn last_positions(rt: &(impl Print + Drop), area: &mut [u64; 577]) -> io::Result<()> {
    let mut board = Board::open_window(rt, area, 2, 1)?;
    board.session = Window {
        present: Position(u32::MAX - 1),
        ..board.session
    };
    board.value(2, i32::MIN)?;
    board.refused(2, 1)?;
    board.refused(3, 1)?;
    board.end()
}

pub fn sequences(rt: &(impl Print + Drop)) -> io::Result<()> {
    openings(rt)?;
    let mut area = [0u64; 577];
    compare::fill(&mut area);
    other_lengths(rt, &mut area)?;
    unopened(rt, &mut area)?;
    last_positions(rt, &mut area)
}
