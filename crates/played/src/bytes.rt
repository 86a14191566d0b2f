// Command bytes and how they are read, a line each.
use crate::shown::Shown;
use std::io;

fn read(rt: &impl Print, rest: &[u8]) -> io::Result<()> {
    print!(rt; "bytes")?;
    for byte in rest {
        print!(rt; " {byte:02x}")?;
    }
    match reading::read(rest) {
        Ok(None) => println!(rt; ": end"),
        Ok(Some(next)) => println!(rt; ": {}, length {}", Shown(next.command), next.length),
        Err(refusal) => println!(rt; ": {}", u8::from(refusal)),
    }
}

pub fn sequences(rt: &impl Print) -> io::Result<()> {
    let streams: [&[u8]; 7] = [
        &[],
        &[5],
        &[3, 1, 0, 0],
        &[2],
        &[1, 253, 255, 255, 255],
        &[3, 1, 0, 0, 0, 2],
        &[4, 4, 3, 2, 1],
    ];
    for rest in streams {
        read(rt, rest)?;
    }
    Ok(())
}
