//! Patches of several sources.

use super::{COMPILE, File, MODULE, SOURCE, expect, folder, holds, padded};
use std::alloc::AllocError;

const TWO: &[u8] = b"{\"CmajorVersion\":1,\"ID\":\"x.p\",\"source\":[\"p.cmajor\",\"q.cmajor\"]}";

const COMMENTED: &[u8] =
    b"/* a */processor P [[main]] { input stream int in; output stream int out; void main() {// b\nloop { out <- in; advance(); }\n} }\n";

#[test]
fn two_sources_compile(rt: HostRuntime) -> Result<(), AllocError> {
    let alloc = rt.alloc();
    let rows: [(&[u8], &[u8]); 3] = [(COMMENTED, b""), (b"", COMMENTED), (b"// c", SOURCE)];
    for (first, second) in rows {
        let given: [File; 3] = [
            ("p.cmajorpatch", TWO),
            ("p.cmajor", first),
            ("q.cmajor", second),
        ];
        let mut folder = folder(&rt, alloc, &given, &[])?;
        expect(&rt, alloc, &COMPILE, &mut folder, 0, b"")?;
        assert!(&rt; folder.held("m.wasm") == Some(&MODULE));
        assert!(&rt; holds(&folder, &given));
    }
    Ok(())
}

#[test]
fn sources_are_refused_in_phases(rt: HostRuntime) -> Result<(), AllocError> {
    let alloc = rt.alloc();
    let rows: [(&[u8], &[u8], &[u8]); 6] = [
        (
            b"processor",
            b"\nlet c = 1.0f;",
            b"refused Float q.cmajor:2:9\n",
        ),
        (
            b"let c = \"a;\n",
            b"processor",
            b"refused OpenString p.cmajor:1:9\n",
        ),
        (b"processor P", SOURCE, b"refused Grammar p.cmajor:1:12\n"),
        (
            SOURCE,
            b"processor Q { 7 }",
            b"refused Grammar q.cmajor:1:15\n",
        ),
        (SOURCE, SOURCE, b"refused NotYet p.cmajor:1:1\n"),
        (b"", b"", b"refused NotYet p.cmajor:1:1\n"),
    ];
    for (first, second, line) in rows {
        let given: [File; 4] = [
            ("p.cmajorpatch", TWO),
            ("p.cmajor", first),
            ("q.cmajor", second),
            ("m.wasm", b"old"),
        ];
        let mut folder = folder(&rt, alloc, &given, &[])?;
        expect(&rt, alloc, &COMPILE, &mut folder, 5, line)?;
        assert!(&rt; holds(&folder, &given));
    }
    Ok(())
}

#[test]
fn the_first_source_that_is_not_read_decides(rt: HostRuntime) -> Result<(), AllocError> {
    let alloc = rt.alloc();
    let most = padded(alloc, SOURCE, 1_048_575)?;
    let long = padded(alloc, SOURCE, 1_048_577)?;
    let rows: [(&str, &[u8], &str, &[u8], u8, &[u8]); 5] = [
        ("p.cmajor", &most, "q.cmajor", b" ", 0, b""),
        (
            "p.cmajor",
            &most,
            "q.cmajor",
            b"  ",
            4,
            b"too big q.cmajor\n",
        ),
        ("p.cmajor", &long, "r", b"", 4, b"too big p.cmajor\n"),
        ("q.cmajor", &long, "r", b"", 2, b"absent p.cmajor\n"),
        ("p.cmajor", b"$", "r", b"", 2, b"absent q.cmajor\n"),
    ];
    for (name, text, other, others_text, status, line) in rows {
        let given: [File; 3] = [("p.cmajorpatch", TWO), (name, text), (other, others_text)];
        let mut folder = folder(&rt, alloc, &given, &[])?;
        expect(&rt, alloc, &COMPILE, &mut folder, status, line)?;
    }
    Ok(())
}

/// The last of 64 sources has the patch, and the others are one empty file.
#[test]
fn as_many_sources_as_there_may_be(rt: HostRuntime) -> Result<(), AllocError> {
    let alloc = rt.alloc();
    let mut manifest = Vec::from_slice(alloc, b"{\"CmajorVersion\":1,\"ID\":\"x.p\",\"source\":[")?;
    for _ in 0..63 {
        manifest.extend_from_slice(b"\"e\",")?;
    }
    manifest.extend_from_slice(b"\"p.cmajor\"]}")?;
    let given: [File; 3] = [
        ("p.cmajorpatch", &manifest),
        ("e", b""),
        ("p.cmajor", SOURCE),
    ];
    let mut folder = folder(&rt, alloc, &given, &[])?;
    expect(&rt, alloc, &COMPILE, &mut folder, 0, b"")?;
    assert!(&rt; folder.held("m.wasm") == Some(&MODULE));
    Ok(())
}
