// Every standing and every step of document 02, point 4: a line says what leads to the standing, what the step is told, and the session
// after it. tests/standings.py works the lines out from the definition's cases.
use crate::board::Board;
use crate::shown::Shown;
use history::{Session, Standing};
use std::io;

// The standing that a step meets, what the step is told, and the session after it.
fn meets(board: &mut Board<'_, impl Print + Drop, 704>, step: &str) -> io::Result<()> {
    print!(board.rt; "{}; ", Shown(board.session.standing))?;
    board.run(step)?;
    board.end()
}

// A Value, a Mark, a Close of the present position, and other commands: a Close of another position and a Query; each after commands that lead to a standing.
fn each_after(rt: &(impl Print + Drop), commands: &str, close: &str) -> io::Result<()> {
    for step in ["V7", "M", close, "C1", "Q1"] {
        let mut area = [0u64; 704];
        let mut board = Board::open(rt, &mut area)?;
        board.run(commands)?;
        meets(&mut board, step)?;
    }
    Ok(())
}

// The same steps at a standing that is put by hand, on words in which both positions are active marks: a session that no call returned. Here each
// step is accepted to which nothing is due.
fn each_put(rt: &(impl Print + Drop), standing: Standing) -> io::Result<()> {
    for step in ["V7", "M", "C2", "C1", "Q1"] {
        let mut area = [0u64; 704];
        let mut board = Board::open(rt, &mut area)?;
        board.run("V5 M V6 M")?;
        board.session = Session {
            standing,
            ..board.session
        };
        print!(rt; "put to ")?;
        meets(&mut board, step)?;
    }
    Ok(())
}

pub fn sequences(rt: &(impl Print + Drop)) -> io::Result<()> {
    for (commands, close) in [
        ("", "C0"),
        ("V5 M V6", "C2"),
        ("V5 M V6 M", "C2"),
        ("V5 M V6 M C2", "C2"),
    ] {
        each_after(rt, commands, close)?;
    }
    for standing in [
        Standing::None,
        Standing::Unmarked,
        Standing::Marked,
        Standing::Closed,
    ] {
        each_put(rt, standing)?;
    }
    Ok(())
}
