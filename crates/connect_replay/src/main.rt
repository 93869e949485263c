//! `replay`: reads a script from standard input, plays its asks and prints their sections.
#![tactic(auto)]

mod ask;
mod message;
mod range;
mod reading;
mod replay;
mod section;
mod status;
#[cfg(test)]
mod tests;

use cn_base::{List, StdSink, StdSource, Text};
use replay::replay;
use status::ReplayStatus;
use std::io;
use std::process::ExitCode;

/// The words after the program's name. None where they aren't text or there is no memory for them.
fn words(rt: &HostRuntime) -> Option<List<Text>> {
    let mut words = List::new(rt.alloc());
    for word in std::env::args(rt).ok()?.skip(1) {
        words.push(Text::from_string(word)).ok()?;
    }
    Some(words)
}

fn main(rt: HostRuntime) -> ExitCode {
    let status = match words(&rt) {
        Some(words) => {
            let mut input = StdSource::new(rt.reader());
            let mut output = StdSink::new(io::writer(&rt));
            replay(rt.alloc(), words.as_slice(), &mut input, &mut output)
        }
        None => ReplayStatus::OutOfMemory,
    };
    ExitCode::from(status.exit_code())
}
