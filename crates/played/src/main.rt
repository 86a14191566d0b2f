// The worked examples of document 01 and of document 02, point 5, and answers that follow from them, played on the engine, some through many merges of its lanes; every standing and step of its
// point 4; and cases of its window.
// What each call answers is printed, and the file `stdout` beside this folder says what the documents have it answer, as tests/played.py works it out, and tests/standings.py of the standings.
#![tactic(auto)]

use output::Output;
use std::io;

mod board;
mod bytes;
mod edges;
mod examples;
mod merges;
mod output;
mod refusals;
mod rounds;
mod script;
mod shown;
mod standings;
mod windows;

fn all(rt: &(impl Print + Drop)) -> io::Result<()> {
    examples::openings(rt)?;
    examples::sequences(rt)?;
    bytes::sequences(rt)?;
    edges::sequences(rt)?;
    merges::sequences(rt)?;
    refusals::sequences(rt)?;
    standings::sequences(rt)?;
    windows::sequences(rt)
}

fn main() {
    let _ = all(&Output);
}
