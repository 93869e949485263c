use super::*;
use cn_base::Bytes;
use std::alloc::Global;
use std::process::Abort;
use std::test::Fail;

#[test]
fn a_payload_may_follow_its_head(rt: HostRuntime) -> Result<(), Fail> {
    let mut out = Bytes::new(rt.alloc());
    put_span_head(&mut out, 15, 300)?;
    let head: &[u8] = b"\x7a\xac\x02";
    assert_eq!(rt; out.as_slice(), head);
    for (value, length) in [(0, 1), (127, 1), (128, 2), (u64::MAX, 10)] {
        assert_eq!(rt; varint_length(value), length, "{value}");
    }
    Ok(())
}

#[test]
fn faults_are_printed(rt: HostRuntime) -> Result<(), Fail> {
    let table = [
        (
            WireFault::Truncated { at: 7 },
            "the input ends inside a record, at 7",
        ),
        (
            WireFault::VarintTooLong { at: 1 },
            "a varint of more than ten bytes at 1",
        ),
        (WireFault::BadTag { at: 0 }, "no tag at 0"),
        (WireFault::OutOfMemory, "out of memory"),
    ];
    for (fault, text) in &table {
        let printed = format!(in rt.alloc(); "{fault}")?;
        assert_eq!(rt; printed.as_str(), *text);
    }
    Ok(())
}
