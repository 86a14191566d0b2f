// The words that a sequence of calls is lent, with the session that the last call left. Each call prints what it answers, up to a `; `.
ghost use Rattle.std.specs.Prelude.{◌*◌, ◌<◌, ◌^◌};

use crate::rounds;
use crate::script::{self, Step};
use crate::shown::Shown;
use history::{Command, Session};
use std::{fmt, io};

// The engine's, or, with its session for S, the window's.
#[derive(Drop)]
pub struct Board<'a, R: Print + Drop, const N: usize, S: Copy + Drop = Session> {
    pub rt: &'a R,
    pub area: &'a mut [u64; N],
    pub session: S,
    // The words are in memory.
    ghost fits: { N * 8 < 2 ^ 63 },
}

// The first n words of an area, or all where there are fewer.
pub fn first<const N: usize>(area: &mut [u64; N], n: usize) -> &mut [u64] {
    let n = n.min(N);
    &mut area[..n]
}

impl<R: Print + Drop, const N: usize, S: Copy + Drop> Board<'_, R, N, S>
where
    Shown<S>: fmt::Display,
{
    // The last of a line: the session that its calls left.
    pub fn end(&self) -> io::Result<()> {
        println!(self.rt; "{}", Shown(self.session))
    }

    // The same, with how many words from an index on were changed since the area was filled.
    pub fn end_changed(&self, from: usize) -> io::Result<()> {
        let changed = compare::off_pattern(self.area, from);
        println!(self.rt;
            "{}; words changed from {from} on: {changed}",
            Shown(self.session)
        )
    }
}

impl<'a, R: Print + Drop, const N: usize> Board<'a, R, N> {
    // An opening of the whole area.
    pub fn open(rt: &'a R, area: &'a mut [u64; N]) -> io::Result<Board<'a, R, N>> {
        Board::open_first(rt, area, N)
    }

    // An opening of the first n words, or of all where there are fewer.
    pub fn open_first(rt: &'a R, area: &'a mut [u64; N], n: usize) -> io::Result<Board<'a, R, N>> {
        let lent = first(area, n);
        let words = lent.len();
        let answer = engine::open(lent);
        print!(rt; "open {words}: {}; ", Shown(answer.reply))?;
        Ok(Board {
            rt,
            area,
            session: answer.session,
        })
    }

    // A command lent the first n words.
    fn apply(&mut self, n: usize, command: Command) -> io::Result<()> {
        let answer = engine::apply(self.session, first(self.area, n), command);
        self.session = answer.session;
        print!(self.rt; "{}: {}; ", Shown(command), Shown(answer.reply))
    }

    // As many rounds as `turns` says, all of one value, lent the first n words. Prints how many commands were accepted.
    pub fn play(&mut self, n: usize, turns: u32, value: i32) -> io::Result<()> {
        let played = rounds::play(self.session, first(self.area, n), value, turns);
        self.session = played.session;
        print!(self.rt; "{turns} rounds: {} accepted; ", played.accepted)
    }

    // Makes each step of a script in turn, lent the first n words. Of rounds it prints the value before.
    fn apply_each(&mut self, n: usize, script: &str) -> io::Result<()> {
        for step in script
            .split_whitespace()
            .filter_map(|word| word.parse::<Step>().ok())
        {
            match step {
                Step::Call(command) => self.apply(n, command)?,
                Step::Rounds { turns, value } => {
                    print!(self.rt; "V {value}, M, C in ")?;
                    self.play(n, turns, value)?;
                }
            }
        }
        Ok(())
    }

    // Makes each step of a script in turn, lent the whole area.
    pub fn run(&mut self, script: &str) -> io::Result<()> {
        self.apply_each(N, script)
    }

    // The same, lent the first n words, or all where there are fewer.
    pub fn run_first(&mut self, n: usize, script: &str) -> io::Result<()> {
        print!(self.rt; "lent {} ", n.min(N))?;
        self.apply_each(n, script)
    }
}
