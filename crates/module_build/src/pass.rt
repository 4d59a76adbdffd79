ghost use Rattle.std.specs.Prelude.{◌≡◌, ◌≢◌, ◌<◌, ◌^◌, ◌+◌, length, [], IfOk};
ghost use Rattle.module_build.specs.Build.{KeepsForm, HasFormPages};
ghost use Rattle.wasm_writer.specs.Spelling.{IsWritable};
ghost use Rattle.through_meaning.specs.Parts.{host_stream};
ghost use Rattle.module_build.specs.Through.{through_module, through_section, frame_code, init_code};
ghost use Rattle.wasm_tree.specs.Section.{Spelled_section};

use crate::parts::{
    body, description, export_function, export_memory, host_import, number_type, one, page,
    plain_type, two, word,
};
use cm_base::{Bytes, Flow, HostEnd, Items, Kind, Name, NoMemory, Scalar};
use std::alloc::Global;
use wasm_tree::{Code, Exports, FuncBodies, Instr, Interface, LoadOp, Module, StoreOp};
use wasm_writer::write_section;

/// The code of `frame`: the word of the input is copied to the output.
fn frame_body(alloc: Global) -> Result<Code, NoMemory>
    ensures { IfOk result (λ code. code ≡ frame_code) }
{
    let mut code = Items::new(alloc);
    code.push(Instr::I32Const(0))?;
    code.push(Instr::I32Const(0))?;
    code.push(Instr::Load(LoadOp::I32, word(0)))?;
    code.push(Instr::Store(StoreOp::I32, word(4)))?;
    code.push(Instr::End)?;
    Ok(code)
}

/// The code of `init`, which does nothing.
fn init_body(alloc: Global) -> Result<Code, NoMemory>
    ensures { IfOk result (λ code. code ≡ init_code) }
{
    one(alloc, Instr::End)
}

fn exports(alloc: Global) -> Result<Exports, NoMemory>
    ensures { IfOk result (λ entries. entries ≡ (through_module []).exports) }
{
    let mut entries = two(
        alloc,
        export_memory(alloc)?,
        export_function(alloc, "init", 1)?,
    )?;
    entries.push(export_function(alloc, "frame", 2)?)?;
    Ok(entries)
}

fn bodies(alloc: Global) -> Result<FuncBodies, NoMemory>
    ensures { IfOk result (λ bodies. bodies ≡ (through_module []).codes) }
{
    two(
        alloc,
        body(alloc, init_body(alloc)?),
        body(alloc, frame_body(alloc)?),
    )
}

/// The module that passes its input through, described by these bytes.
fn through(alloc: Global, described: Bytes) -> Result<Module, NoMemory>
    ensures { IfOk result (λ m. m ≡ through_module described) }
{
    let types = two(alloc, number_type(alloc)?, plain_type(alloc))?;
    let imports = one(alloc, host_import(alloc)?)?;
    let functions = two(alloc, 1, 1)?;
    let memory = one(alloc, page())?;
    let exports = exports(alloc)?;
    let codes = bodies(alloc)?;
    let customs = one(alloc, description(alloc, described)?)?;
    Ok(Module {
        types,
        imports,
        functions,
        memory,
        globals: Items::new(alloc),
        exports,
        codes,
        segments: Items::new(alloc),
        customs,
    })
}

/// A stream endpoint of one `int32`.
fn stream(alloc: Global, flow: Flow, name: &Name) -> Result<HostEnd, NoMemory>
    ensures { IfOk result (λ end. end ≡ host_stream flow name.now) }
{
    Ok(HostEnd {
        flow,
        kind: Kind::Stream,
        name: Name::from_str(alloc, name.as_str())?,
        shape: one(alloc, Scalar::Int32)?,
        parameter: None,
    })
}

/// What the section `cmajor` says: the input's slot is at address 0, and the output's at 4.
fn describe(alloc: Global, input: &Name, output: &Name) -> Result<Bytes, NoMemory>
    requires input_short { length input.now < 2 ^ 30 }
    requires output_short { length output.now < 2 ^ 30 }
    ensures spelled { IfOk result (Spelled_section (through_section input.now output.now)) }
    ensures short { IfOk result (λ bytes. length bytes < 2 ^ 31 + 2 ^ 30) }
{
    let first = stream(alloc, Flow::Input, input)?;
    let second = stream(alloc, Flow::Output, output)?;
    let host = two(alloc, first, second)?;
    write_section(alloc, Interface::Single, 0, host.as_slice(), &[0, 4])
}

/// The module of the patch that passes this input through to this output.
pub fn build_through(alloc: Global, input: &Name, output: &Name) -> Result<Module, NoMemory>
    requires distinct { input.now ≢ output.now }
    requires input_short { length input.now < 2 ^ 30 }
    requires output_short { length output.now < 2 ^ 30 }
    ensures keeps { IfOk result (KeepsForm input.now output.now) }
    ensures pages { IfOk result (HasFormPages input.now output.now) }
    ensures writable { IfOk result IsWritable }
{
    let described = describe(alloc, input, output)?;
    through(alloc, described)
}
