use crate::{Missing, ResponseId, Retained, cut};
use cn_base::{Bytes, List, OutOfMemory, Text};
use cn_types::{Row, Value};
use std::alloc::Global;
use std::test::Fail;

#[test]
fn ids_have_these_texts_and_are_read_back(rt: HostRuntime) -> Result<(), Fail> {
    for (boot, number, place, text) in [
        (1, 5, 1, "00000000-0001-8000-8000-000140000001"),
        (0, 0, 1, "00000000-0000-8000-8000-000000000001"),
        (
            0xffff_ffff_ffff,
            0,
            1,
            "ffffffff-ffff-8000-8000-000000000001",
        ),
        (0, 0xffff_ffff, 1, "00000000-0000-8000-bfff-ffffc0000001"),
        (0, 0, 0x3fff_ffff, "00000000-0000-8000-8000-00003fffffff"),
        (
            0xffff_ffff_ffff,
            0xffff_ffff,
            0x3fff_ffff,
            "ffffffff-ffff-8000-bfff-ffffffffffff",
        ),
    ] {
        let id = ResponseId {
            boot,
            number,
            place,
        };
        if boot < 1 << 48 && place < 1 << 30 {
            assert_eq!(rt; id.to_text(rt.alloc())?.as_str(), text);
        }
        assert_eq!(rt; ResponseId::parse(text), Some(id), "{text}");
    }
    Ok(())
}

#[test]
fn other_texts_are_no_ids(rt: HostRuntime) {
    for text in [
        "",
        "00000000-0001-4000-8000-000140000001",
        "00000000-0001-8000-8000-000140000000",
        "00000000-0001-8001-8000-000140000001",
        "00000000-0001-8000-4000-000140000001",
        "00000000-0001-8000-c000-000140000001",
        "0000000A-0001-8000-8000-000140000001",
        "00000000000180008000000140000001",
        "{00000000-0001-8000-8000-000140000001}",
        "urn:uuid:00000000-0001-8000-8000-000140000001",
        "00000000-0001-8000-8000-000140000001 ",
    ] {
        assert_eq!(rt; ResponseId::parse(text), None, "{text}");
    }
}

/// Pushes so many bytes of this value.
fn push(alloc: Global, window: &mut Retained, value: u8, length: usize) -> Result<(), Fail> {
    let bytes = [value; 256];
    let response = Bytes::of(alloc, bytes.get(..length).ok_or("at most 256 bytes")?)?;
    if window.high() < 4_194_306 {
        window.push(response).ok().ok_or("no memory")?;
    }
    Ok(())
}

#[test]
fn responses_are_kept_while_those_after_them_weigh_less_than_the_buffer(
    rt: HostRuntime,
) -> Result<(), Fail> {
    let mut window = Retained::new(rt.alloc(), 100);
    for (length, first, high, weight) in [
        (40, 1, 1, 40),
        (40, 1, 2, 80),
        (40, 1, 3, 120),
        (40, 2, 4, 120),
        (200, 5, 5, 200),
        (0, 5, 6, 200),
        (99, 5, 7, 299),
        (1, 7, 8, 100),
    ] {
        push(rt.alloc(), &mut window, 1, length)?;
        let found = (window.first_kept(), window.high(), window.weight());
        assert_eq!(rt; found, (first, high, weight));
    }
    Ok(())
}

#[test]
fn a_buffer_of_one_byte_keeps_the_last_response(rt: HostRuntime) -> Result<(), Fail> {
    let mut window = Retained::new(rt.alloc(), 1);
    for (length, first, high, weight) in [
        (5, 1, 1, 5),
        (3, 2, 2, 3),
        (0, 2, 3, 3),
        (0, 2, 4, 3),
        (7, 5, 5, 7),
    ] {
        push(rt.alloc(), &mut window, 1, length)?;
        let found = (window.first_kept(), window.high(), window.weight());
        assert_eq!(rt; found, (first, high, weight));
    }
    Ok(())
}

#[test]
fn kept_places_are_lent_and_released(rt: HostRuntime) -> Result<(), Fail> {
    let mut window = Retained::new(rt.alloc(), 100);
    assert_eq!(rt; window.take(0), Err(Missing::Dropped { first: 1 }));
    assert_eq!(rt; window.take(1), Err(Missing::NotSent { high: 0 }));
    for value in 1..=4 {
        push(rt.alloc(), &mut window, value, 40)?;
    }
    assert_eq!(rt; window.take(1), Err(Missing::Dropped { first: 2 }));
    assert_eq!(rt; window.take(3).ok().ok_or("kept")?, [3; 40].as_slice());
    assert_eq!(rt; window.take(5), Err(Missing::NotSent { high: 4 }));
    for (place, released, first, weight) in [
        (9, false, 2, 120),
        (1, false, 2, 120),
        (2, true, 3, 80),
        (4, true, 5, 0),
        (4, false, 5, 0),
    ] {
        assert_eq!(rt; window.release_until(place), released);
        assert_eq!(rt; (window.first_kept(), window.weight()), (first, weight));
    }
    assert_eq!(rt; window.take(4), Err(Missing::Dropped { first: 5 }));
    push(rt.alloc(), &mut window, 5, 40)?;
    assert_eq!(rt; (window.first_kept(), window.high()), (5, 5));
    assert_eq!(rt; window.take(5).ok().ok_or("kept")?, [5; 40].as_slice());
    Ok(())
}

/// A row of one text of so many bytes, which weighs 4 more.
fn text_row(alloc: Global, length: usize) -> Result<Row, OutOfMemory> {
    let text = Text::from_string("x".repeat(alloc, length)?);
    let mut values = List::new(alloc);
    values.push(Value::Text(text))?;
    Ok(Row(values))
}

#[test]
fn rows_are_cut_by_their_number(rt: HostRuntime) -> Result<(), Fail> {
    let mut rows = List::new(rt.alloc());
    assert_eq!(rt;
        cut(rt.alloc(), rows.as_slice(), 2)?.as_slice(),
        [0].as_slice()
    );
    assert_eq!(rt;
        cut(rt.alloc(), rows.as_slice(), 0)?.as_slice(),
        [0].as_slice()
    );
    for _ in 0..5 {
        rows.push(text_row(rt.alloc(), 1)?)?;
    }
    assert_eq!(rt;
        cut(rt.alloc(), rows.as_slice(), 2)?.as_slice(),
        [2, 4, 5].as_slice()
    );
    assert_eq!(rt;
        cut(rt.alloc(), rows.as_slice(), 5)?.as_slice(),
        [5].as_slice()
    );
    assert_eq!(rt;
        cut(rt.alloc(), rows.as_slice(), 0)?.as_slice(),
        [5].as_slice()
    );
    Ok(())
}

#[test]
fn rows_are_cut_by_their_weight(rt: HostRuntime) -> Result<(), Fail> {
    for (lengths, ends) in [
        // The first two weigh 1 MiB together.
        ([(1 << 20) - 9, 1, 0], [2, 3].as_slice()),
        // They weigh one byte more.
        ([(1 << 20) - 8, 1, 0], [1, 3].as_slice()),
        // A row of more than 1 MiB stands alone.
        ([1, 1 << 20, 1], [1, 2, 3].as_slice()),
    ] {
        let mut rows = List::new(rt.alloc());
        for length in lengths {
            rows.push(text_row(rt.alloc(), length)?)?;
        }
        assert_eq!(rt; cut(rt.alloc(), rows.as_slice(), 0)?.as_slice(), ends);
    }
    Ok(())
}
