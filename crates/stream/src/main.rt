// The stream program of document 01: reads the bytes of commands from standard input, and writes all that is printed of them to standard output. What that is, is proved in `transcript`.
#![tactic(auto)]

// Three programs have this `main`, of other sizes. One function for them would take `write` under a bound `Fn` that names the size of `out`: tried, and its proof does not close.
// There is no heap: what is read and what is written stand in arrays of fixed length, at their start.
fn main() {
    let mut bytes = [0u8; 16384];
    let n = io::read_full(0, &mut bytes);
    let mut out = [0u8; 180364];
    let used = transcript::write(&bytes[..n], &mut out);
    io::write_all(1, &out[..used]);
}
