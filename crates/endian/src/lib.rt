// Numbers in little-endian bytes, the least significant byte first. What a number stands for is not known here.
#![tactic(auto)]

ghost use Rattle.std.specs.Prelude.{◌≡◌, ◌≤◌, length};
ghost use Rattle.endian.specs.Numbers.{little_endian};

// The number of at most four bytes, so that it fits 32 bits: from the most significant byte, the last, down to the first. It is a loop, since std's `from_le_bytes` takes just four, and a Mark's
// argument has none.
pub fn little_endian(bytes: &[u8]) -> u32
    requires { length bytes.now ≤ 4 }
    ensures { result ≡ little_endian bytes.now }
{
    let mut number: u32 = 0;
    for byte in bytes.iter().rev() {
        number = u32::from(*byte) + 256 * number;
    }
    number
}
