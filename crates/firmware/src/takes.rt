// A stored take's replies as numbers. `FoundNumbers` stays a struct of numbers for the C interface: C has no `Result`.
ghost use Rattle.std.specs.Prelude.{◌≡◌};
ghost use Rattle.blocks.specs.Takes.{told};
ghost use Rattle.firmware.specs.Takes.{in_numbers};

use blocks::Found;
use history::Refusal;

// A search's answer, C's `filkotar_found`: the reply's number, and the value and place that it shows, or zeros.
#[repr(C)]
#[derive(Clone, Copy)]
pub struct FoundNumbers {
    pub number: u32,
    pub value: i32,
    pub place: usize,
}

// A reply in numbers.
impl From<Result<Found, Refusal>> for FoundNumbers {
    ghost from_gives = { λ reply numbers. numbers ≡ in_numbers (told reply) };

    fn from(reply: Result<Found, Refusal>) -> FoundNumbers {
        // Where nothing is shown, zeros.
        let found = reply.ok().unwrap_or_default();
        FoundNumbers {
            number: u32::from(history::reply_number(reply)),
            value: found.value,
            place: found.place.0,
        }
    }
}
