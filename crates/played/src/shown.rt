// How a command, a reply, a standing and the sessions are printed.
use history::{Command, Reply, Session, Standing};
use std::fmt;
use window::Window;

// A value of another crate, as it is printed here.
#[derive(Drop)]
pub struct Shown<T>(pub T);

impl fmt::Display for Shown<Command> {
    fn fmt<W: fmt::Write>(&self, f: &mut fmt::Formatter<W>) -> fmt::Result {
        match self.0 {
            Command::Value(v) => write!(f, "V {v}"),
            Command::Mark => write!(f, "M"),
            Command::Query(i) => write!(f, "Q {}", i.0),
            Command::Close(i) => write!(f, "C {}", i.0),
        }
    }
}

// The reply's number, and after an accepted Query, or a value of a window, the least value and its place.
impl fmt::Display for Shown<Reply> {
    fn fmt<W: fmt::Write>(&self, f: &mut fmt::Formatter<W>) -> fmt::Result {
        write!(f, "{}", history::reply_number(self.0))?;
        if let Ok(Some(minimum)) = self.0 {
            write!(f, ", {} at {}", minimum.value, minimum.place.0)?;
        }
        Ok(())
    }
}

impl fmt::Display for Shown<Standing> {
    fn fmt<W: fmt::Write>(&self, f: &mut fmt::Formatter<W>) -> fmt::Result {
        f.write_str(match self.0 {
            Standing::None => "none",
            Standing::Unmarked => "unmarked",
            Standing::Marked => "marked",
            Standing::Closed => "closed",
        })
    }
}

// All six things that a session holds.
impl fmt::Display for Shown<Session> {
    fn fmt<W: fmt::Write>(&self, f: &mut fmt::Formatter<W>) -> fmt::Result {
        let s = self.0;
        write!(
            f,
            "N {}, K {}, present {}, last {}, active {}, {}",
            s.words,
            s.limit,
            s.present.0,
            s.last,
            s.active,
            Shown(s.standing)
        )
    }
}

// All three things that a window's session holds.
impl fmt::Display for Shown<Window> {
    fn fmt<W: fmt::Write>(&self, f: &mut fmt::Formatter<W>) -> fmt::Result {
        let s = self.0;
        write!(f, "N {}, W {}, present {}", s.words, s.width, s.present.0)
    }
}
