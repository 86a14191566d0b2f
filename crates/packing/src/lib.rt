// A minimum as a word and back. The order of words is that of the choice, by value and among equal values by place. Two functions and no `From`, since both types are other crates' own.
#![tactic(auto)]

ghost use Rattle.std.specs.Prelude.{◌≡◌};
ghost use Rattle.packing.specs.Packing.{packed, unpacked};

use history::{Minimum, Position};

// A minimum as a word. The order of words is that of the values and, among equal values, that of the choice: the earlier place is the lower word.
pub fn pack(m: Minimum) -> u64
    ensures { (result ≡ packed m) × (unpacked result ≡ m) }
{
    signed::to_word(m.value) * 4294967296 + u64::from(m.place.0)
}

// The minimum of a word, so that every word has one.
pub fn unpack(word: u64) -> Minimum
    ensures { result ≡ unpacked word }
{
    Minimum {
        value: signed::from_word(word / 4294967296),
        place: Position((word % 4294967296) as u32),
    }
}
