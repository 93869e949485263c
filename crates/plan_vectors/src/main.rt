//! `plan_vectors`: reads lines from standard input, and prints each line and, below a call, its answer.
//!
//! `table` and `row` lines are those of scripts, and `set KEY VALUE` sets a session's setting: they hold for the calls behind them, up to an empty
//! line. The calls are in [`call`]. Any other line is a remark.
#![tactic(auto)]

mod call;
mod errors;
mod shown;
mod state;

use std::io::{self, BufRead, BufReader, BufWriter, Write};

fn main(rt: HostRuntime) -> io::Result<()> {
    let alloc = rt.alloc();
    let mut out = BufWriter::new(alloc, io::writer(&rt))?;
    let mut state = state::State::new(alloc);
    for line in BufReader::new(alloc, rt.reader())?.lines(alloc) {
        let line = line?;
        writeln!(out, "{line}")?;
        if let Some(answer) = call::answer(alloc, &mut state, line.as_str())? {
            write!(out, "{answer}")?;
        }
    }
    out.flush()
}
