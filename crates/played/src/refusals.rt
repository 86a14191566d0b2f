// A case of each refusal of a command, 4 to 11: a refused command changes no word and nothing in the session.
use crate::board::Board;
use history::{Position, Session, Standing};
use std::io;

impl<R: Print + Drop> Board<'_, R, 577> {
    // A refused command, lent the first n words: its reply, how many words of the area it changed, and whether it changed the session.
    fn refused(&mut self, n: usize, script: &str) -> io::Result<()> {
        let before = *self.area;
        let session = self.session;
        self.run_first(n, script)?;
        let changed = compare::differing(&before, self.area);
        let after = if compare::is_same(session, self.session) {
            "equal"
        } else {
            "changed"
        };
        println!(self.rt; "{changed} words changed, session {after}")
    }

    // 7, 5, 8 and 11, up to one active mark.
    fn before_full(&mut self) -> io::Result<()> {
        self.refused(576, "M")?;
        self.run_first(576, "V1")?;
        self.refused(575, "V2")?;
        self.refused(577, "V2")?;
        self.run_first(576, "M")?;
        self.refused(576, "M")?;
        self.refused(576, "Q2")
    }

    // 10, 11 and 9, from one active mark on.
    fn from_full(&mut self) -> io::Result<()> {
        self.run_first(576, "V2")?;
        self.refused(576, "M")?;
        self.refused(576, "C2")?;
        self.run_first(576, "C1 M C2")?;
        self.refused(576, "M")?;
        self.refused(576, "Q2")
    }
}

// 9, 8, 11 and 10 in a merge, which the 16th Mark begins and the 23rd ends.
fn in_merge(rt: &(impl Print + Drop), area: &mut [u64; 577]) -> io::Result<()> {
    let mut board = Board::open(rt, area)?;
    board.run("17*5")?;
    board.refused(577, "M")?;
    board.run_first(577, "V6 M")?;
    for command in ["M", "Q17", "C17"] {
        board.refused(577, command)?;
    }
    board.run_first(577, "V7")?;
    board.refused(577, "M")
}

// A session made by hand at a position that no run here reaches.
fn session_at(present: Position) -> Session {
    Session {
        words: 576,
        limit: 1,
        present,
        last: -8,
        active: 0,
        standing: Standing::Unmarked,
    }
}

// The last position, from a session made by hand, since no run here is as long: it is reached, marked, and shown where the least value stands.
fn to_last_position(rt: &(impl Print + Drop), area: &mut [u64; 577]) -> io::Result<()> {
    let session = session_at(Position(u32::MAX - 1));
    let mut board = Board { rt, area, session };
    board.run_first(576, "V- M Q+")?;
    board.end()
}

// 6, in a session made by hand.
fn at_last_position(rt: &(impl Print + Drop), area: &mut [u64; 577]) -> io::Result<()> {
    let session = session_at(Position(u32::MAX));
    let mut board = Board { rt, area, session };
    board.refused(576, "V1")
}

// 4, after a refused opening.
fn unopened(rt: &(impl Print + Drop), area: &mut [u64; 577]) -> io::Result<()> {
    let mut board = Board::open_first(rt, area, 575)?;
    for (n, command) in [(575, "V1"), (576, "M"), (577, "Q1"), (0, "C1")] {
        board.refused(n, command)?;
    }
    Ok(())
}

pub fn sequences(rt: &(impl Print + Drop)) -> io::Result<()> {
    let mut area = [0u64; 577];
    compare::fill(&mut area);
    let mut board = Board::open_first(rt, &mut area, 576)?;
    board.before_full()?;
    board.from_full()?;
    in_merge(rt, &mut area)?;
    to_last_position(rt, &mut area)?;
    at_last_position(rt, &mut area)?;
    unopened(rt, &mut area)
}
