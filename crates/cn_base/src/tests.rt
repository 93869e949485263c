ghost use Rattle.std.specs.Prelude.{Some};

use crate::*;
use std::alloc::Global;
use std::io::{Read, Write};
use std::test::Fail;

fn numbers(alloc: Global, numbers: &[u64]) -> Result<List<u64>, OutOfMemory> {
    List::from_slice(alloc, numbers)
}

#[test]
fn memory_source_gives_its_bytes_but_at_its_failing_calls(rt: HostRuntime) -> Result<(), Fail> {
    let alloc = rt.alloc();
    let mut source = MemorySource::new(Bytes::of(alloc, b"abc")?, numbers(alloc, &[2])?);
    let mut steady = SteadySource::new(Bytes::of(alloc, b"abc")?);
    let mut into = [0; 2];
    assert_eq!(rt; source.read(&mut into), Ok(2));
    assert_eq!(rt; into.as_slice(), b"ab".as_slice());
    assert_eq!(rt; source.read(&mut into), Err(Failed));
    assert_eq!(rt; source.read(&mut into), Ok(1));
    assert_eq!(rt; into.as_slice(), b"cb".as_slice());
    assert_eq!(rt; source.read(&mut into), Ok(0));
    assert_eq!(rt; steady.read(&mut into), Ok(2));
    assert_eq!(rt; steady.read(&mut into), Ok(1));
    assert_eq!(rt; steady.read(&mut into), Ok(0));
    Ok(())
}

#[test]
fn sinks_keep_what_they_take(rt: HostRuntime) -> Result<(), Fail> {
    let alloc = rt.alloc();
    let mut sink = MemorySink::new(alloc, numbers(alloc, &[1, 3])?);
    assert_eq!(rt; write_all(&mut sink, b"lost"), Err(Failed));
    assert_eq!(rt; write_all(&mut sink, b"kept"), Ok(()));
    assert_eq!(rt; write_all(&mut sink, b"lost"), Err(Failed));
    assert_eq!(rt; sink.as_slice(), b"kept".as_slice());

    let mut steady = SteadySink::new(alloc, 5)?;
    assert_eq!(rt; write_all(&mut steady, b"abc"), Ok(()));
    assert_eq!(rt;
        write_all(&mut steady, b"def"),
        Ok(()),
        "taken and not kept"
    );
    assert_eq!(rt; write_all(&mut steady, b"g"), Ok(()));
    assert_eq!(rt; steady.as_slice(), b"abc".as_slice());
    Ok(())
}

/// A sink that takes one byte at a call.
struct OneByOne {
    inner: MemorySink,
}

impl Sink for OneByOne {
    ghost told = { λ s. Some s.inner.told };

    ghost faults = { λ s. s.inner.faults };

    fn write(&mut self, from: &[u8]) -> Result<usize, Failed> {
        self.inner.write(&from[..1])
    }
}

#[test]
fn all_is_written_by_short_writes(rt: HostRuntime) -> Result<(), Fail> {
    let alloc = rt.alloc();
    let mut sink = OneByOne {
        inner: MemorySink::new(alloc, numbers(alloc, &[6])?),
    };
    assert_eq!(rt; write_all(&mut sink, b"abc"), Ok(()));
    assert_eq!(rt; write_all(&mut sink, b""), Ok(()));
    assert_eq!(rt; write_all(&mut sink, b"defg"), Err(Failed));
    let OneByOne { inner } = sink;
    assert_eq!(rt; inner.as_slice(), b"abcde".as_slice());
    Ok(())
}

/// A system that gives and takes nothing.
#[derive(Drop)]
struct Broken;

impl Read for Broken {
    fn read(&mut self, _buf: &mut [u8]) -> std::io::Result<usize> {
        Err(std::io::Error::from(std::io::ErrorKind::Other))
    }
}

impl Write for Broken {
    fn write(&mut self, _buf: &[u8]) -> std::io::Result<usize> {
        Ok(0)
    }

    fn flush(&mut self) -> std::io::Result<()> {
        Ok(())
    }
}

#[test]
fn the_system_edge_passes_bytes_and_failures_on(rt: HostRuntime) -> Result<(), Fail> {
    let mut into = [0; 4];
    let mut source = StdSource::new(b"hi".as_slice());
    assert_eq!(rt; source.read(&mut into), Ok(2));
    assert_eq!(rt; into.as_slice(), b"hi\0\0".as_slice());
    assert_eq!(rt; source.read(&mut into), Ok(0));
    assert_eq!(rt; StdSource::new(Broken).read(&mut into), Err(Failed));
    assert_eq!(rt; StdSink::new(Vec::new(rt.alloc())).write(b"hi"), Ok(2));
    assert_eq!(rt;
        StdSink::new(Broken).write(b"hi"),
        Err(Failed),
        "takes nothing"
    );
    Ok(())
}

#[test]
fn copies_are_made(rt: HostRuntime) -> Result<(), Fail> {
    let alloc = rt.alloc();
    let list = numbers(alloc, &[1, 2, 3])?.copy(alloc)?;
    assert_eq!(rt; list.as_slice(), [1, 2, 3].as_slice());
    assert_eq!(rt; *Boxed::new(alloc, 7u32)?.copy(alloc)?.get(), 7);
    assert_eq!(rt; Some(-7i64).copy(alloc)?, Some(-7));
    assert_eq!(rt; true.copy(alloc)?, true);
    assert_eq!(rt; (-7i32).copy(alloc)?, -7);
    let mut bytes = Bytes::new(alloc);
    bytes.append(b"ab")?;
    assert_eq!(rt; bytes.copy(alloc)?.as_slice(), b"ab".as_slice());
    let mut text = Text::new(alloc);
    text.append("aé")?;
    assert_eq!(rt; text.copy(alloc)?.as_str(), "aé");
    let string = String::from_str(alloc, "s")?;
    assert_eq!(rt; Text::from_string(string).as_str(), "s");
    Ok(())
}

fn connection(alloc: Global, sent: &[u8]) -> Result<(SteadySource, SteadySink), OutOfMemory> {
    let input = SteadySource::new(Bytes::of(alloc, sent)?);
    Ok((input, SteadySink::new(alloc, 4)?))
}

/// The first byte that the next connection sends; none at the end of connections.
fn next_byte(acceptor: &mut MemoryAcceptor) -> Result<Option<u8>, Failed> {
    let Some((mut input, _output)) = acceptor.accept()? else {
        return Ok(None);
    };
    let mut into = [0];
    input.read(&mut into)?;
    Ok(Some(into[0]))
}

#[test]
fn memory_acceptor_gives_its_connections_but_at_its_failing_calls(
    rt: HostRuntime,
) -> Result<(), Fail> {
    let alloc = rt.alloc();
    let mut pairs = List::new(alloc);
    pairs.push(connection(alloc, b"a")?)?;
    pairs.push(connection(alloc, b"b")?)?;
    let mut acceptor = MemoryAcceptor::new(pairs, numbers(alloc, &[3])?);
    assert_eq!(rt; acceptor.bind(&Text::of(alloc, "here:1")?), Ok(()));
    assert_eq!(rt; next_byte(&mut acceptor), Ok(Some(b'a')));
    assert_eq!(rt; next_byte(&mut acceptor), Err(Failed));
    assert_eq!(rt; next_byte(&mut acceptor), Ok(Some(b'b')));
    assert_eq!(rt; next_byte(&mut acceptor), Ok(None));
    Ok(())
}

#[test]
fn clocks_pauses_and_ids_tell_what_they_gave(rt: HostRuntime) -> Result<(), Fail> {
    let alloc = rt.alloc();
    let mut clock = FixedClock::new(7);
    assert_eq!(rt; clock.now_ms(), 7);
    assert_eq!(rt; clock.now_ms(), 7);
    let mut pauses = PauseList::new(alloc, 2)?;
    for ms in [50, 200, 800] {
        pauses.pause_ms(ms);
    }
    assert_eq!(rt; pauses.pauses(), [50, 200].as_slice(), "one past the room");
    let mut ids = CountIds::new(u128::MAX);
    assert_eq!(rt; ids.next_id(), u128::MAX);
    assert_eq!(rt; ids.next_id(), 0);
    assert_eq!(rt; ids.next_id(), 1);
    Ok(())
}

#[test]
fn bytes_are_moved_and_turned(rt: HostRuntime) -> Result<(), Fail> {
    let alloc = rt.alloc();
    let mut bytes = Bytes::with_room(alloc, 4)?;
    bytes.append(b"abcd")?;
    bytes.reverse_from(1);
    assert_eq!(rt; bytes.as_slice(), b"adcb".as_slice());
    assert_eq!(rt; bytes.len(), 4);
    let moved = Bytes::from_vec(Vec::from_slice(alloc, b"ab")?);
    assert_eq!(rt; moved.as_slice(), b"ab".as_slice());
    Ok(())
}
