// A window's session and its answers as structs of numbers. They stay structs of numbers for the C interface: C has no `Option` and no `Result`.
ghost use Rattle.std.specs.Prelude.{◌≡◌};
ghost use Rattle.firmware.specs.Windows.{window_from, outcome_of};

use history::{Answer, Position};
use window::Window;

// A session: C's `filkotar_window`.
#[repr(C)]
#[derive(Clone, Copy)]
pub struct WindowNumbers {
    pub words: usize,
    pub width: usize,
    pub present: u32,
}

// An answer, C's `filkotar_window_answer`: the session after the call, the reply's number, and the value and place that it shows, or zeros.
#[repr(C)]
#[derive(Clone, Copy)]
pub struct WindowOutcome {
    pub session: WindowNumbers,
    pub number: u32,
    pub value: i32,
    pub place: u32,
}

// The session that the numbers stand for.
impl From<WindowNumbers> for Window {
    ghost from_gives = { λ numbers session. session ≡ window_from numbers };

    fn from(s: WindowNumbers) -> Window {
        Window {
            words: s.words,
            width: s.width,
            present: Position(s.present),
        }
    }
}

// An answer of the window, in numbers.
impl From<Answer<Window>> for WindowOutcome {
    ghost from_gives = { λ answer outcome. outcome ≡ outcome_of answer };

    fn from(a: Answer<Window>) -> WindowOutcome {
        let session = a.session;
        // Where nothing is shown, zeros.
        let shown = a.reply.ok().flatten().unwrap_or_default();
        WindowOutcome {
            session: WindowNumbers {
                words: session.words,
                width: session.width,
                present: session.present.0,
            },
            number: u32::from(history::reply_number(a.reply)),
            value: shown.value,
            place: shown.place.0,
        }
    }
}
