ghost use Rattle.std.specs.Prelude.{◌<◌, ◌^◌, length, IfOk};

use cm_base::{Flow, HostEnd, Items, Kind, Name, NoMemory, Range, Scalar};
use std::alloc::Global;
use std::test::*;
use wasm_tree::Interface;
use wasm_writer::write_section;

fn end_of(
    alloc: Global,
    name: &str,
    shape: &[Scalar],
    parameter: Option<Range>,
) -> Result<HostEnd, NoMemory>
    requires named { length name.now < 2 ^ 32 }
    requires shaped { length shape.now < 2 ^ 32 }
    ensures name { IfOk result (λ end. length end.name < 2 ^ 32) }
    ensures shape { IfOk result (λ end. length end.shape < 2 ^ 32) }
{
    Ok(HostEnd {
        flow: Flow::Input,
        kind: Kind::Value,
        name: Name::from_str(alloc, name)?,
        shape: Items::from_slice(alloc, shape)?,
        parameter,
    })
}

#[test]
fn a_section(rt: HostRuntime) -> Result<(), NoMemory> {
    let alloc = rt.alloc();
    let range = Range {
        min: -1,
        max: 10,
        init: 3,
    };
    let shape = [Scalar::Int32, Scalar::Int32, Scalar::Wrap(5), Scalar::Bool];
    let host = [
        end_of(alloc, "gain", &[Scalar::Int32], Some(range))?,
        end_of(alloc, "mixed", &shape, None)?,
    ];
    let section = write_section(alloc, Interface::Blocks(256), 130, &host, &[16, 300])?;
    let wanted: [u8; 40] = [
        0x02, 0x82, 0x01, 0x80, 0x02, 0x02, // interface 2, latency, block, count
        0x00, 0x01, 0x04, 0x67, 0x61, 0x69, 0x6E, 0x10, 0x01, 0x01, 0x00, // gain
        0x01, 0x7F, 0x0A, 0x03, // its range
        0x00, 0x01, 0x05, 0x6D, 0x69, 0x78, 0x65, 0x64, 0xAC, 0x02, // mixed
        0x03, 0x02, 0x00, 0x01, 0x03, 0x05, 0x01, 0x02, 0x00, // its runs
    ];
    assert!(&rt; section.as_slice() == wanted.as_slice());
    Ok(())
}
