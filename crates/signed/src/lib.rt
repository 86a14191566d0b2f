// A signed value of 32 bits and its other forms. As a word of the area it is offset by 2 ^ 31, so that every value, both ends with it, has a word
// of its own. As an unsigned number of 32 bits it is its two's complement. These are functions and no `From`, since both types are the library's.
#![tactic(auto)]

ghost use Rattle.std.specs.Prelude.{◌≡◌, nat_abs};
ghost use Rattle.signed.specs.Word.{word_of, value_of};
ghost use Rattle.signed.specs.TwosComplement.{signed_of};

pub fn to_word(v: i32) -> u64
    ensures { result ≡ word_of v }
{
    (i64::from(v) + 2147483648).cast_unsigned()
}

// The value of a word's lower half, so that every word has one.
pub fn from_word(w: u64) -> i32
    ensures { result ≡ value_of w }
{
    ((w % 4294967296) as i64 - 2147483648) as i32
}

// The value whose two's complement a number is.
pub fn signed_of(number: u32) -> i32
    ensures { result ≡ signed_of number }
{
    number.cast_signed()
}

// The size of a value. That of the least value fits no i32.
pub fn magnitude(v: i32) -> u64
    ensures { result ≡ nat_abs v }
{
    u64::from(v.unsigned_abs())
}
