// The engine's sessions and answers as structs of numbers. They stay structs of numbers for the C interface: C has no `Option`, no `Result` and no enum of a fixed size.
ghost use Rattle.std.specs.Prelude.{◌≡◌};
ghost use Rattle.history.specs.Replies.{told};
ghost use Rattle.firmware.specs.Sessions.{standing_number, standing_from, session_from, numbers_of, unless_refused, in_numbers};

use history::{Answer, Position, Reply, Session, Standing};

// A session: C's `filkotar_session`.
#[repr(C)]
#[derive(Clone, Copy)]
pub struct SessionNumbers {
    pub words: usize,
    pub limit: usize,
    pub active: usize,
    pub present: u32,
    pub last: i32,
    pub standing: u32,
}

// An answer, C's `filkotar_answer`: the session after the call, the reply's number, and the value and place that it shows, or zeros.
#[repr(C)]
#[derive(Clone, Copy)]
pub struct AnswerNumbers {
    pub session: SessionNumbers,
    pub number: u32,
    pub value: i32,
    pub place: u32,
}

// C's FILKOTAR_NONE to FILKOTAR_CLOSED.
fn standing_number(standing: Standing) -> u32
    ensures { result ≡ standing_number standing }
{
    match standing {
        Standing::None => 0,
        Standing::Unmarked => 1,
        Standing::Marked => 2,
        Standing::Closed => 3,
    }
}

// Of any number: one above 3 counts as 3.
fn standing_from(number: u32) -> Standing
    ensures { result ≡ standing_from number }
{
    match number {
        0 => Standing::None,
        1 => Standing::Unmarked,
        2 => Standing::Marked,
        _ => Standing::Closed,
    }
}

// The session that the numbers stand for.
impl From<SessionNumbers> for Session {
    ghost from_gives = { λ numbers session. session ≡ session_from numbers };

    fn from(s: SessionNumbers) -> Session {
        Session {
            words: s.words,
            limit: s.limit,
            present: Position(s.present),
            last: s.last,
            active: s.active,
            standing: standing_from(s.standing),
        }
    }
}

// A session in numbers.
impl From<Session> for SessionNumbers {
    ghost from_gives = { λ session numbers. numbers ≡ numbers_of session };

    fn from(session: Session) -> SessionNumbers {
        SessionNumbers {
            words: session.words,
            limit: session.limit,
            active: session.active,
            present: session.present.0,
            last: session.last,
            standing: standing_number(session.standing),
        }
    }
}

impl SessionNumbers {
    // The numbers after a call that was handed these: these again where it was refused.
    pub fn after(self, a: Answer<Session>) -> SessionNumbers
        ensures { result ≡ unless_refused self a.session a.reply }
    {
        match a.reply {
            Ok(_) => SessionNumbers::from(a.session),
            Err(_) => self,
        }
    }
}

impl AnswerNumbers {
    // A reply in numbers, and the session after it.
    pub fn of(session: SessionNumbers, reply: Reply) -> AnswerNumbers
        ensures { result ≡ in_numbers session (told reply) }
    {
        // Where nothing is shown, zeros.
        let shown = reply.ok().flatten().unwrap_or_default();
        AnswerNumbers {
            session,
            number: u32::from(history::reply_number(reply)),
            value: shown.value,
            place: shown.place.0,
        }
    }
}
