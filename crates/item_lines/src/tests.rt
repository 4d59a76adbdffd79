use crate::{Told, push_item, tell};
use cm_base::{Flow, HostEnd, HostEnds, Item, Items, Kind, Name, Scalar};
use cm_io::{Listener, MemorySink, Recorder};
use std::alloc::{AllocError, Global};

fn end(
    alloc: Global,
    flow: Flow,
    kind: Kind,
    name: &str,
    shape: &[Scalar],
) -> Result<HostEnd, AllocError> {
    Ok(HostEnd {
        flow,
        kind,
        name: Name::from_str(alloc, name)?,
        shape: Items::from_slice(alloc, shape)?,
        parameter: None,
    })
}

// An input stream, a stream of one number, events, a value of two, and a stream of an array without elements.
fn ends(alloc: Global) -> Result<HostEnds, AllocError> {
    let mut ends = Items::new(alloc);
    let two = [Scalar::Int64, Scalar::Bool];
    ends.push(end(alloc, Flow::Input, Kind::Stream, "in", &[Scalar::Int32])?)?;
    ends.push(end(alloc, Flow::Output, Kind::Stream, "out", &[Scalar::Int32])?)?;
    ends.push(end(alloc, Flow::Output, Kind::Event, "e", &two)?)?;
    ends.push(end(alloc, Flow::Output, Kind::Value, "v", &two)?)?;
    ends.push(end(alloc, Flow::Output, Kind::Stream, "none", &[])?)?;
    Ok(ends)
}

fn frame(alloc: Global, number: u32, values: &[i64]) -> Result<Item, AllocError> {
    Ok(Item::Frame {
        frame: number,
        values: Items::from_slice(alloc, values)?,
    })
}

fn event(alloc: Global, number: u32, value: &[i64]) -> Result<Item, AllocError> {
    Ok(Item::Event {
        frame: number,
        endpoint: 2,
        value: Items::from_slice(alloc, value)?,
    })
}

#[test]
fn lines(rt: HostRuntime) -> Result<(), AllocError> {
    let alloc = rt.alloc();
    let ends = ends(alloc)?;
    let mut line = Vec::new(alloc);
    push_item(
        &mut line,
        ends.as_slice(),
        &frame(alloc, 0, &[-2147483648, i64::MIN, 1])?,
    )?;
    push_item(&mut line, ends.as_slice(), &event(alloc, 1048575, &[9, 0])?)?;
    let text: &[u8] =
        b"frame 0 out=-2147483648 v=[-9223372036854775808,1] none=[]\nevent 1048575 e=[9,0]\n";
    assert!(&rt; line.as_slice() == text);
    Ok(())
}

fn recorder(alloc: Global, failing: &[u64], refusing: &[u64]) -> Result<Recorder, AllocError> {
    let failing = Items::from_slice(alloc, failing)?;
    let refusing = Items::from_slice(alloc, refusing)?;
    Ok(Recorder::new(alloc, failing, refusing))
}

#[test]
fn items_are_put_and_heard(rt: HostRuntime) -> Result<(), AllocError> {
    let alloc = rt.alloc();
    let ends = ends(alloc)?;
    let mut line = Vec::new(alloc);
    let mut out = MemorySink::new(
        alloc,
        Items::from_slice(alloc, &[3])?,
        Items::from_slice(alloc, &[4])?,
        5,
    );
    let mut listeners = Vec::new(alloc);
    listeners.push(recorder(alloc, &[], &[])?)?;
    listeners.push(recorder(alloc, &[1], &[2])?)?;
    listeners.push(recorder(alloc, &[], &[])?)?;
    let rows = [
        Told::Heard,
        Told::ListenerFailed(1),
        Told::ListenerLacksMemory(1),
        Told::PutFailed,
        Told::PutLacksMemory,
    ];
    for (number, answer) in rows.iter().enumerate() {
        let item = frame(alloc, number as u32, &[7, 8, 1])?;
        assert!(&rt; tell(&mut line, &ends, &mut out, &mut listeners, &item) == *answer);
    }
    let text: &[u8] =
        b"frame 0 out=7 v=[8,1] none=[]\nframe 1 out=7 v=[8,1] none=[]\nframe 2 out=7 v=[8,1] none=[]\nframe";
    assert!(&rt; out.written() == text);
    let counts = [3, 1, 1];
    for (listener, count) in listeners.iter().zip(counts) {
        assert!(&rt; listener.count() == count);
    }
    Ok(())
}
