// A rough reading as numbers. `ReadingNumbers` stays a struct of numbers, with `known` beside `high`, for the C interface: C has no `Option` and no `Result`.
ghost use Rattle.std.specs.Prelude.{◌≡◌};
ghost use Rattle.rough.specs.Looks.{told};
ghost use Rattle.firmware.specs.Readings.{reading_in_numbers};

use history::Refusal;
use rough::Figures;

// A rough reading's answer, C's `filkotar_reading`: the looks used, the reply's number, 1 where a high figure is known, and the figures that are shown, or zeros.
#[repr(C)]
#[derive(Clone, Copy)]
pub struct ReadingNumbers {
    pub looks: usize,
    pub number: u32,
    pub known: u32,
    pub high: i32,
    pub low: i32,
}

// A reading in numbers.
impl From<Result<Figures, Refusal>> for ReadingNumbers {
    ghost from_gives = { λ reading numbers. numbers ≡ reading_in_numbers (told reading) };

    fn from(reading: Result<Figures, Refusal>) -> ReadingNumbers {
        match reading {
            Ok(figures) => ReadingNumbers {
                looks: figures.looks,
                number: 0,
                known: u32::from(figures.high.is_some()),
                high: figures.high.unwrap_or(0),
                low: figures.low,
            },
            Err(why) => ReadingNumbers {
                looks: 0,
                number: u32::from(u8::from(why)),
                known: 0,
                high: 0,
                low: 0,
            },
        }
    }
}
