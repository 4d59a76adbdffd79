use crate::*;
use cm_base::{Bytes, Items, Name};
use std::alloc::{AllocError, Global};
use std::process::Abort;

fn calls(alloc: Global, numbers: &[u64]) -> Result<CallList, AllocError> {
    Items::from_slice(alloc, numbers)
}

/// A folder of the files `a` with the bytes 1 to 5 and `b` with none.
fn folder(rt: &impl Abort, alloc: Global, failing: &[u64]) -> Result<MemoryFolder, AllocError> {
    let mut files = Items::new(alloc);
    let bytes = Bytes::from_slice(alloc, &[1, 2, 3, 4, 5])?;
    files.push((Name::from_str(alloc, "a")?, bytes))?;
    files.push((Name::from_str(alloc, "b")?, Bytes::new(alloc)))?;
    assert!(rt; has_distinct_names(&files));
    Ok(MemoryFolder::new(files, calls(alloc, failing)?))
}

/// An answer of a read as a letter, and the bytes that were read.
fn shown(answer: &Read) -> (char, &[u8]) {
    match answer {
        Read::Bytes(bytes) => ('b', bytes.as_slice()),
        Read::Absent => ('a', &[]),
        Read::Failed => ('f', &[]),
        Read::NoMemory => ('n', &[]),
    }
}

#[test]
fn a_folder_reads(rt: HostRuntime) -> Result<(), AllocError> {
    let mut folder = folder(&rt, rt.alloc(), &[2])?;
    let rows: [(&str, u64, char, &[u8]); 7] = [
        ("a", 3, 'b', &[1, 2, 3]),
        ("a", 5, 'b', &[1, 2, 3, 4, 5]),
        ("a", 5, 'f', &[]),
        ("a", 6, 'b', &[1, 2, 3, 4, 5]),
        ("a", 0, 'b', &[]),
        ("b", 9, 'b', &[]),
        ("c", 9, 'a', &[]),
    ];
    for (name, most, answer, bytes) in rows {
        let read = folder.read(rt.alloc(), name, most);
        assert!(&rt; shown(&read).0 == answer, "{name} {most}");
        assert!(&rt; shown(&read).1 == bytes, "{name} {most}");
    }
    Ok(())
}

#[test]
fn a_folder_writes(rt: HostRuntime) -> Result<(), AllocError> {
    let mut folder = folder(&rt, rt.alloc(), &[1])?;
    let rows: [(&str, &[u8], Wrote); 4] = [
        ("a", &[7], Wrote::Ok),
        ("a", &[8], Wrote::Failed),
        ("b", &[9, 9], Wrote::Ok),
        ("c", &[], Wrote::Ok),
    ];
    for (name, bytes, answer) in rows {
        let wrote = folder.write(rt.alloc(), name, bytes);
        assert!(&rt; wrote == answer, "{name}");
    }
    assert!(&rt; folder.held("a") == Some(&[7]));
    assert!(&rt; folder.held("b") == Some(&[9, 9]));
    assert!(&rt; folder.held("c") == Some(&[]));
    assert!(&rt; folder.held("d").is_none());
    Ok(())
}

#[test]
fn names_that_stand_twice_are_found(rt: HostRuntime) -> Result<(), AllocError> {
    let alloc = rt.alloc();
    let mut files = Items::new(alloc);
    assert!(&rt; has_distinct_names(&files));
    for (name, distinct) in [("a", true), ("b", true), ("a", false)] {
        files.push((Name::from_str(alloc, name)?, Bytes::new(alloc)))?;
        assert!(&rt; has_distinct_names(&files) == distinct, "{name}");
    }
    Ok(())
}

#[test]
fn a_sink_takes_pieces(rt: HostRuntime) -> Result<(), AllocError> {
    let alloc = rt.alloc();
    let rows: [(u32, &[u8]); 3] = [
        (0, &[1, 2, 1, 2]),
        (1, &[1, 2, 1, 1, 1, 2]),
        (3, &[1, 2, 1, 2, 1, 2, 1, 2]),
    ];
    for (kept, written) in rows {
        let mut sink = MemorySink::new(alloc, calls(alloc, &[1, 2])?, calls(alloc, &[2, 3])?, kept);
        let answers = [Put::Ok, Put::Failed, Put::Failed, Put::NoMemory, Put::Ok];
        for answer in answers {
            let put = sink.put(&[1, 2]);
            assert!(&rt; put == answer, "{kept}");
        }
        assert!(&rt; sink.written() == written, "{kept}");
    }
    Ok(())
}

fn frame(alloc: Global, frame: u32) -> Result<Item, AllocError> {
    let values = Items::from_slice(alloc, &[-1, i64::from(frame)])?;
    Ok(Item::Frame { frame, values })
}

fn event(alloc: Global, frame: u32) -> Result<Item, AllocError> {
    let value = Items::from_slice(alloc, &[i64::MIN])?;
    Ok(Item::Event {
        frame,
        endpoint: 4,
        value,
    })
}

#[test]
fn listeners_hear_items(rt: HostRuntime) -> Result<(), AllocError> {
    let alloc = rt.alloc();
    let mut recorder = Recorder::new(alloc, calls(alloc, &[1, 2])?, calls(alloc, &[2, 3])?);
    let mut meter = Meter::new();
    let answers = [
        Heard::On,
        Heard::Failed,
        Heard::Failed,
        Heard::NoMemory,
        Heard::On,
    ];
    for (at, answer) in answers.iter().enumerate() {
        let item = if at == 4 {
            event(alloc, 4)?
        } else {
            frame(alloc, 0)?
        };
        let heard = recorder.hear(&item);
        assert!(&rt; heard == *answer, "{at}");
        let heard = meter.hear(&item);
        assert!(&rt; heard == Heard::On, "{at}");
    }
    assert!(&rt; recorder.count() == 2);
    assert!(&rt; meter.count() == 5);
    match recorder.heard() {
        [
            Item::Frame { frame, values },
            Item::Event {
                frame: later,
                endpoint,
                value,
            },
        ] => {
            assert!(&rt; *frame == 0 && *later == 4 && *endpoint == 4);
            assert!(&rt; values.as_slice() == [-1, 0].as_slice());
            assert!(&rt; value.as_slice() == [i64::MIN].as_slice());
        }
        _ => assert!(&rt; false),
    }
    Ok(())
}

#[test]
fn boxed_listeners_hear_items(rt: HostRuntime) -> Result<(), AllocError> {
    let alloc = rt.alloc();
    let mut listeners: Vec<Box<dyn Listener>> = Vec::new(alloc);
    listeners.push(Box::new(alloc, Meter::new())?)?;
    let none = Recorder::new(alloc, calls(alloc, &[])?, calls(alloc, &[1])?);
    listeners.push(Box::new(alloc, none)?)?;
    for number in 0..3 {
        let item = frame(alloc, number)?;
        for listener in listeners.iter_mut() {
            listener.hear(&item);
        }
    }
    for (listener, count) in listeners.iter().zip([3, 2]) {
        assert!(&rt; listener.count() == count);
    }
    Ok(())
}
