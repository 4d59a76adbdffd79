use crate::run;
use cm_base::{Bytes, Items, Name};
use cm_io::{FileList, MemoryFolder, MemorySink, Meter, has_distinct_names};
use std::alloc::{AllocError, Global};
use std::process::Abort;

mod patches;
mod stopped;

const MANIFEST: &[u8] =
    b"{\"CmajorVersion\":1,\"ID\":\"x.p\",\"version\":\"1.0\",\"name\":\"P\",\"source\":\"p.cmajor\",\"isInstrument\":false}";

const SOURCE: &[u8] =
    b"processor P [[main]] { input stream int in; output stream int out; void main() {\nloop { out <- in; advance(); }\n} }\n";

/// The module of `SOURCE`, made by hand from the binary format of the Core Specification 1.0.
const MODULE: [u8; 123] = [
    0x00, 0x61, 0x73, 0x6D, 0x01, 0x00, 0x00, 0x00, // header
    0x01, 0x08, 0x02, 0x60, 0x01, 0x7F, 0x00, 0x60, 0x00, 0x00, // types
    0x02, 0x0D, 0x01, 0x04, 0x68, 0x6F, 0x73, 0x74, 0x04, 0x65, 0x6D, 0x69, 0x74, 0x00, 0x00, // host.emit
    0x03, 0x03, 0x02, 0x01, 0x01, // functions
    0x05, 0x04, 0x01, 0x01, 0x01, 0x01, // a memory of one page
    0x07, 0x19, 0x03, 0x06, 0x6D, 0x65, 0x6D, 0x6F, 0x72, 0x79, 0x02, 0x00, // memory
    0x04, 0x69, 0x6E, 0x69, 0x74, 0x00, 0x01, // init
    0x05, 0x66, 0x72, 0x61, 0x6D, 0x65, 0x00, 0x02, // frame
    0x0A, 0x11, 0x02, 0x02, 0x00, 0x0B, // the code of init
    0x0C, 0x00, 0x41, 0x00, 0x41, 0x00, 0x28, 0x02, 0x00, 0x36, 0x02, 0x04, 0x0B, // the code of frame
    0x00, 0x1F, 0x06, 0x63, 0x6D, 0x61, 0x6A, 0x6F, 0x72, // cmajor
    0x01, 0x00, 0x02, // interface 1, latency 0, two endpoints
    0x00, 0x00, 0x02, 0x69, 0x6E, 0x00, 0x01, 0x01, 0x00, 0x00, // in
    0x01, 0x00, 0x03, 0x6F, 0x75, 0x74, 0x04, 0x01, 0x01, 0x00, 0x00, // out
];

/// A file's name and its bytes.
type File<'a> = (&'a str, &'a [u8]);

const BOTH: [File<'static>; 2] = [("p.cmajorpatch", MANIFEST), ("p.cmajor", SOURCE)];

fn files(alloc: Global, given: &[File]) -> Result<FileList, AllocError> {
    let mut files = Items::new(alloc);
    for (name, bytes) in given {
        files.push((
            Name::from_str(alloc, name)?,
            Bytes::from_slice(alloc, bytes)?,
        ))?;
    }
    Ok(files)
}

fn folder(
    rt: &impl Abort,
    alloc: Global,
    given: &[File],
    failing: &[u64],
) -> Result<MemoryFolder, AllocError> {
    let files = files(alloc, given)?;
    assert!(rt; has_distinct_names(&files));
    Ok(MemoryFolder::new(files, Items::from_slice(alloc, failing)?))
}

/// Whether the folder still holds these files.
fn holds(folder: &MemoryFolder, given: &[File]) -> bool {
    for (name, bytes) in given {
        if folder.held(name) != Some(*bytes) {
            return false;
        }
    }
    true
}

fn words(alloc: Global, words: &[&str]) -> Result<Vec<String>, AllocError> {
    let mut all = Vec::new(alloc);
    for word in words {
        all.push(String::from_str(alloc, word)?)?;
    }
    Ok(all)
}

fn sink(alloc: Global) -> MemorySink {
    MemorySink::new(alloc, Items::new(alloc), Items::new(alloc), 0)
}

/// Runs the words over the folder, and expects the status and the line on the error stream. Nothing may be
/// put to the output.
fn expect(
    rt: &impl Abort,
    alloc: Global,
    given: &[&str],
    folder: &mut MemoryFolder,
    status: u8,
    line: &[u8],
) -> Result<(), AllocError> {
    let words = words(alloc, given)?;
    let mut out = sink(alloc);
    let mut err = sink(alloc);
    let mut listeners: Vec<Meter> = Vec::new(alloc);
    let answer = run(alloc, &words, folder, &mut out, &mut err, &mut listeners);
    assert!(rt; answer.number() == status, "{line:?}");
    assert!(rt; err.written() == line, "{line:?}");
    assert!(rt; out.written().is_empty());
    Ok(())
}

const COMPILE: [&str; 3] = ["compile", "p.cmajorpatch", "m.wasm"];

#[test]
fn the_example_compiles(rt: HostRuntime) -> Result<(), AllocError> {
    let alloc = rt.alloc();
    let mut folder = folder(&rt, alloc, &BOTH, &[])?;
    expect(&rt, alloc, &COMPILE, &mut folder, 0, b"")?;
    assert!(&rt; folder.held("m.wasm") == Some(&MODULE));
    assert!(&rt; holds(&folder, &BOTH));
    Ok(())
}

#[test]
fn a_patch_is_refused(rt: HostRuntime) -> Result<(), AllocError> {
    let alloc = rt.alloc();
    let without_loop: &[u8] =
        b"processor P [[main]] { input stream int in; output stream int out; void main() {\nout <- 7; advance();\n} }\n";
    let rows: [(&[u8], &[u8], &[u8]); 4] = [
        (MANIFEST, without_loop, b"refused NotYet p.cmajor:1:1\n"),
        (MANIFEST, b"", b"refused NotYet p.cmajor:1:1\n"),
        (
            b"{\"CmajorVersion\":1,",
            SOURCE,
            b"refused ManifestSyntax p.cmajorpatch:0:0\n",
        ),
        (
            b"{\"CmajorVersion\":2,\"ID\":\"x.p\",\"source\":\"p.cmajor\"}",
            SOURCE,
            b"refused ManifestVersion p.cmajorpatch:0:0\n",
        ),
    ];
    for (manifest, source, line) in rows {
        let given = [
            ("p.cmajorpatch", manifest),
            ("p.cmajor", source),
            ("m.wasm", b"old"),
        ];
        let mut folder = folder(&rt, alloc, &given, &[])?;
        expect(&rt, alloc, &COMPILE, &mut folder, 5, line)?;
        assert!(&rt; holds(&folder, &given));
    }
    Ok(())
}

#[test]
fn a_file_is_absent(rt: HostRuntime) -> Result<(), AllocError> {
    let alloc = rt.alloc();
    let in_folder: [File; 2] = [("a/b/p.cmajorpatch", MANIFEST), ("p.cmajor", SOURCE)];
    let rows: [(&[File], &str, &[u8]); 3] = [
        (&BOTH[1..], "p.cmajorpatch", b"absent p.cmajorpatch\n"),
        (&BOTH[..1], "p.cmajorpatch", b"absent p.cmajor\n"),
        (&in_folder, "a/b/p.cmajorpatch", b"absent a/b/p.cmajor\n"),
    ];
    for (given, manifest, line) in rows {
        let mut folder = folder(&rt, alloc, given, &[])?;
        let words = ["compile", manifest, "m.wasm"];
        expect(&rt, alloc, &words, &mut folder, 2, line)?;
        assert!(&rt; holds(&folder, given));
        assert!(&rt; folder.held("m.wasm").is_none());
    }
    Ok(())
}

/// Each call of the folder fails in turn, and then none of those that there are.
#[test]
fn a_call_fails(rt: HostRuntime) -> Result<(), AllocError> {
    let alloc = rt.alloc();
    let rows: [(u64, u8, &[u8]); 4] = [
        (0, 3, b"read fault p.cmajorpatch\n"),
        (1, 3, b"read fault p.cmajor\n"),
        (2, 12, b"write fault m.wasm\n"),
        (3, 0, b""),
    ];
    for (failing, status, line) in rows {
        let mut folder = folder(&rt, alloc, &BOTH, &[failing])?;
        expect(&rt, alloc, &COMPILE, &mut folder, status, line)?;
        assert!(&rt; holds(&folder, &BOTH));
        assert!(&rt; folder.held("m.wasm").is_some() == (status == 0));
    }
    Ok(())
}

/// The text, with spaces behind it up to this length.
fn padded(alloc: Global, text: &[u8], length: usize) -> Result<Vec<u8>, AllocError> {
    let mut bytes = Vec::from_slice(alloc, text)?;
    for _ in text.len()..length {
        bytes.push(b' ')?;
    }
    Ok(bytes)
}

#[test]
fn a_file_is_as_long_as_it_may_be_or_longer(rt: HostRuntime) -> Result<(), AllocError> {
    let alloc = rt.alloc();
    let rows: [(usize, usize, u8, &[u8]); 3] = [
        (1_048_576, 1_048_576, 0, b""),
        (1_048_577, 0, 4, b"too big p.cmajorpatch\n"),
        (0, 1_048_577, 4, b"too big p.cmajor\n"),
    ];
    for (manifest, source, status, line) in rows {
        let manifest = padded(alloc, MANIFEST, manifest)?;
        let source = padded(alloc, SOURCE, source)?;
        let given: [File; 2] = [("p.cmajorpatch", &manifest), ("p.cmajor", &source)];
        let mut folder = folder(&rt, alloc, &given, &[])?;
        expect(&rt, alloc, &COMPILE, &mut folder, status, line)?;
    }
    Ok(())
}

#[test]
fn words_are_no_command(rt: HostRuntime) -> Result<(), AllocError> {
    let alloc = rt.alloc();
    let rows: [&[&str]; 7] = [
        &[],
        &["compile"],
        &["compile", "p.cmajorpatch"],
        &["compile", "p.cmajorpatch", ""],
        &["compile", "", "m.wasm"],
        &["Compile", "p.cmajorpatch", "m.wasm"],
        &["compile", "p.cmajorpatch", "m.wasm", "x"],
    ];
    for words in rows {
        let mut folder = folder(&rt, alloc, &BOTH, &[])?;
        expect(&rt, alloc, words, &mut folder, 1, b"usage\n")?;
        assert!(&rt; holds(&folder, &BOTH));
    }
    Ok(())
}
