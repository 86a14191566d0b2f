// The numbers and the values of four bytes that stand in a program's bytes. What a program takes them for is not known here.
#![tactic(auto)]

ghost use Rattle.std.specs.Prelude.{◌≡◌, ◌+◌, ◌*◌, ◌≤◌, length};
ghost use Rattle.numbers.specs.FourBytes.{number_at, value_at, values_from};

// The number of the four bytes from an offset on. The bytes and an offset are two parameters, and no slice from there on, as the definitions of a program's input have them: each number stands at an
// offset of all bytes, which is printed where reading stops.
pub fn number_at(bytes: &[u8], at: usize) -> u32
    requires { at + 4 ≤ length bytes.now }
    ensures { result ≡ number_at bytes.now at }
{
    endian::little_endian(&bytes[at..at + 4])
}

// The value of the four bytes from an offset on.
pub fn value_at(bytes: &[u8], at: usize) -> i32
    requires { at + 4 ≤ length bytes.now }
    ensures { result ≡ value_at bytes.now at }
{
    signed::signed_of(number_at(bytes, at))
}

// As many values as there is room for, from an offset on.
pub fn read_values(bytes: &[u8], at: usize, values: &mut [i32])
    requires { at + 4 * length values.old ≤ length bytes.now }
    ensures { values.new ≡ values_from (length values.old) at bytes.now }
{
    for (i, value) in values.iter_mut().enumerate() {
        *value = value_at(bytes, at + 4 * i);
    }
}
