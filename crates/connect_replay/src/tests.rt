ghost use Rattle.std.specs.Prelude.{Some};

use crate::replay::replay;
use crate::status::ReplayStatus;
use cn_base::{Bytes, Failed, List, MemorySink, MemorySource, OutOfMemory, Sink, Text};
use std::alloc::Global;
use std::test::Fail;

const BAD: &str = "bad script 1\n";

/// How a run over this script ended, and what it printed.
fn run(alloc: Global, script: &str) -> Result<(ReplayStatus, String), OutOfMemory> {
    let mut input = MemorySource::new(Bytes::of(alloc, script.as_bytes())?, List::new(alloc));
    let mut output = MemorySink::new(alloc, List::new(alloc));
    let status = replay(alloc, &[], &mut input, &mut output);
    let printed = String::from_utf8_lossy(alloc, output.as_slice())?;
    Ok((status, printed))
}

#[test]
fn one_range_is_played(rt: HostRuntime) -> Result<(), Fail> {
    let alloc = rt.alloc();
    let none = "ask a\nid\ncomplete\nrecords 1\n";
    let cases = [
        (
            "ask a range 0 3 1\n",
            "ask a\nid\n0\n1\n2\ncomplete\nrecords 1\n",
        ),
        (
            "ask a range 0 3 1",
            "ask a\nid\n0\n1\n2\ncomplete\nrecords 1\n",
        ),
        ("ask a range 0 0 1\n", none),
        (
            "ask a range 5 -1 -3\n",
            "ask a\nid\n5\n2\ncomplete\nrecords 1\n",
        ),
        ("ask a range 3 0 1", none),
        ("ask a range 0 3 -1", none),
        (
            "ask B_9 range -3 -1 9",
            "ask B_9\nid\n-3\ncomplete\nrecords 1\n",
        ),
        (
            "ask a range 9223372036854775806 9223372036854775807 9223372036854775807",
            "ask a\nid\n9223372036854775806\ncomplete\nrecords 1\n",
        ),
        (
            "ask a range -9223372036854775807 -9223372036854775808 -9223372036854775808",
            "ask a\nid\n-9223372036854775807\ncomplete\nrecords 1\n",
        ),
    ];
    for (script, want) in cases {
        let (status, printed) = run(alloc, script)?;
        assert_eq!(rt; status, ReplayStatus::Done, "{script}");
        assert_eq!(rt; printed.as_str(), want, "{script}");
    }
    let (status, printed) = run(alloc, "ask a range 0 10000 1")?;
    assert_eq!(rt; status, ReplayStatus::Done);
    assert_eq!(rt; printed.as_str().lines().count(), 10_004);
    Ok(())
}

#[test]
fn other_scripts_are_refused(rt: HostRuntime) -> Result<(), Fail> {
    let alloc = rt.alloc();
    let cases = [
        "",
        "\n",
        "ask a range 0 3 0",
        "ask a range 0 10001 1",
        "ask a range 0 3 1\nask b range 0 3 1\n",
        "ask a range 0 3 1\n\n",
        "ask a range 0 3 1\r\n",
        "ask a range -0 3 1",
        "ask a range +1 3 1",
        "ask a range 01 3 1",
        "ask a range 0 9223372036854775808 9223372036854775807",
        "ask a range 0 -9223372036854775809 -9223372036854775808",
        "ask a range 0 3",
        "ask a range 0 3 1 1",
        "ask  a range 0 3 1",
        " ask a range 0 3 1",
        "ask a range 0 3 1 ",
        "ask a table t",
        "ASK a range 0 3 1",
        "ask a-b range 0 3 1",
        "ask é range 0 3 1",
        "ask aaaaaaaaaaaaaaaaaaaaaaaaaaaaaaaaa range 0 3 1",
    ];
    for script in cases {
        let (status, printed) = run(alloc, script)?;
        assert_eq!(rt; status, ReplayStatus::BadScript { line: 1 }, "{script}");
        assert_eq!(rt; printed.as_str(), BAD, "{script}");
    }
    for length in 127..130 {
        let mut script = String::from_str(alloc, "ask a range 0 3 1")?;
        for _ in script.len()..length {
            script.push('1')?;
        }
        assert_eq!(rt;
            run(alloc, script.as_str())?.0,
            ReplayStatus::BadScript { line: 1 }
        );
    }
    Ok(())
}

#[test]
fn a_word_is_refused(rt: HostRuntime) -> Result<(), Fail> {
    let alloc = rt.alloc();
    let words = [Text::of(alloc, "--generate")?];
    let mut input = MemorySource::new(Bytes::new(alloc), List::from_slice(alloc, &[1])?);
    let mut output = MemorySink::new(alloc, List::new(alloc));
    assert_eq!(rt;
        replay(alloc, &words, &mut input, &mut output),
        ReplayStatus::BadWords
    );
    assert_eq!(rt; output.as_slice(), b"bad words\n".as_slice());

    assert_eq!(rt;
        replay(alloc, &[], &mut input, &mut output),
        ReplayStatus::ReadFault
    );
    assert_eq!(rt; output.as_slice(), b"bad words\n".as_slice());
    Ok(())
}

/// A sink that takes ten bytes at a call at most.
struct Narrow {
    inner: MemorySink,
}

impl Sink for Narrow {
    ghost told = { λ s. Some s.inner.told };

    ghost faults = { λ s. s.inner.faults };

    fn write(&mut self, from: &[u8]) -> Result<usize, Failed> {
        self.inner.write(&from[..from.len().min(10)])
    }
}

#[test]
fn a_failing_write_leaves_a_beginning(rt: HostRuntime) -> Result<(), Fail> {
    let alloc = rt.alloc();
    let section = b"ask a\nid\n0\n1\n2\ncomplete\nrecords 1\n";
    for failing in 1..5 {
        let script = Bytes::of(alloc, b"ask a range 0 3 1")?;
        let mut input = MemorySource::new(script, List::new(alloc));
        let mut output = Narrow {
            inner: MemorySink::new(alloc, List::from_slice(alloc, &[failing])?),
        };
        assert_eq!(rt;
            replay(alloc, &[], &mut input, &mut output),
            ReplayStatus::WriteFault
        );
        let Narrow { inner } = output;
        let written = inner.as_slice();
        assert_eq!(rt; written.len() as u64, (failing - 1) * 10);
        assert!(rt; section.starts_with(written));
    }
    Ok(())
}
