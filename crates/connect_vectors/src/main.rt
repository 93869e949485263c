//! `connect_vectors`: reads calls from standard input, one a line, and prints each line and, below a call, its answer.
//!
//! A line that is empty or begins with `#` is no call and is printed as it is. The calls are in [`call`].
#![tactic(auto)]

mod arrow;
mod call;
mod contents;
mod events;
mod heads;
mod ids;
mod input;
mod lines;
mod messages;
mod shown;
mod texts;
mod web;
mod windows;
mod wire;
mod written;

use std::io::{self, BufRead, BufReader, BufWriter, Write};

fn main(rt: HostRuntime) -> io::Result<()> {
    let alloc = rt.alloc();
    let mut out = BufWriter::new(alloc, io::writer(&rt))?;
    for line in BufReader::new(alloc, rt.reader())?.lines(alloc) {
        let line = line?;
        writeln!(out, "{line}")?;
        if input::is_call(line.as_str()) {
            let answer = call::answer(alloc, line.as_str())?;
            writeln!(out, "  -> {answer}")?;
        }
    }
    out.flush()
}
