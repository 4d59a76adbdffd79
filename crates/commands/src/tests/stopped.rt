use super::{expect, folder, sink, words};
use crate::run;
use cm_io::Meter;
use std::alloc::{AllocError, Global};
use std::process::Abort;

/// A module that counts its frames at 8 in its memory, from 0 on after `init`, made by hand from the binary format of the Core
/// Specification 1.0.
const COUNTER: [u8; 143] = [
    0x00, 0x61, 0x73, 0x6D, 0x01, 0x00, 0x00, 0x00, // header
    0x01, 0x08, 0x02, 0x60, 0x01, 0x7F, 0x00, 0x60, 0x00, 0x00, // types
    0x02, 0x0D, 0x01, 0x04, 0x68, 0x6F, 0x73, 0x74, 0x04, 0x65, 0x6D, 0x69, 0x74, 0x00, 0x00, // host.emit
    0x03, 0x03, 0x02, 0x01, 0x01, // functions
    0x05, 0x04, 0x01, 0x01, 0x01, 0x01, // a memory of one page
    0x07, 0x19, 0x03, 0x06, 0x6D, 0x65, 0x6D, 0x6F, 0x72, 0x79, 0x02, 0x00, // memory
    0x04, 0x69, 0x6E, 0x69, 0x74, 0x00, 0x01, // init
    0x05, 0x66, 0x72, 0x61, 0x6D, 0x65, 0x00, 0x02, // frame
    0x0A, 0x25, 0x02, 0x09, 0x00, 0x41, 0x00, 0x41, 0x00, 0x36, 0x02, 0x08, 0x0B, // the code of init
    0x19, 0x00, 0x41, 0x00, 0x41, 0x00, 0x28, 0x02, 0x08, 0x41, 0x01, 0x6A, 0x36, 0x02, 0x08, // the code of frame
    0x41, 0x00, 0x41, 0x00, 0x28, 0x02, 0x08, 0x36, 0x02, 0x04, 0x0B, // its output
    0x00, 0x1F, 0x06, 0x63, 0x6D, 0x61, 0x6A, 0x6F, 0x72, // cmajor
    0x01, 0x00, 0x02, // interface 1, latency 0, two endpoints
    0x00, 0x00, 0x02, 0x69, 0x6E, 0x00, 0x01, 0x01, 0x00, 0x00, // in
    0x01, 0x00, 0x03, 0x6F, 0x75, 0x74, 0x04, 0x01, 0x01, 0x00, 0x00, // out
];

/// The state of the counter after so many frames, all of which told it.
fn state(alloc: Global, count: u8) -> Result<Vec<u8>, AllocError> {
    let mut bytes = Vec::from_slice(alloc, b"CMS2\0\0\0\0\x8F\0\0\0")?;
    bytes.extend_from_slice(&COUNTER)?;
    bytes.extend_from_slice(&[0, 0, 1, 0, 0, 0, 0, 0, count, 0, 0, 0, count])?;
    bytes.extend_from_slice(&vec![in alloc; 0u8; 65_535]?)?;
    Ok(bytes)
}

#[test]
fn a_stopped_run_goes_on(rt: HostRuntime) -> Result<(), AllocError> {
    let alloc = rt.alloc();
    let stopped = state(alloc, 2)?;
    let mut folder = folder(
        &rt,
        alloc,
        &[("s", stopped.as_slice()), ("i", b"{\"frames\":2}")],
        &[],
    )?;
    let words = words(alloc, &["resume", "s", "i", "100", "n"])?;
    let mut out = sink(alloc);
    let mut err = sink(alloc);
    let mut listeners: Vec<Meter> = Vec::new(alloc);
    let answer = run(
        alloc,
        &words,
        &mut folder,
        &mut out,
        &mut err,
        &mut listeners,
    );
    assert!(&rt; answer.number() == 0);
    let lines: &[u8] = b"frame 0 out=3\nframe 1 out=4\n";
    assert!(&rt; out.written() == lines);
    let later = state(alloc, 4)?;
    assert!(&rt; folder.held("n") == Some(later.as_slice()));
    Ok(())
}

#[test]
fn a_state_that_has_no_run_is_refused(rt: HostRuntime) -> Result<(), AllocError> {
    let alloc = rt.alloc();
    let first: &[u8] = b"{\"parameters\":{},\"version\":1}";
    let mut folder = folder(&rt, alloc, &[("s", first)], &[])?;
    expect(
        &rt,
        alloc,
        &["resume", "s", "i", "1"],
        &mut folder,
        6,
        b"state refused Version Whole 0\n",
    )
}
