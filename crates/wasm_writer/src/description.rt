ghost use Rattle.std.specs.Prelude.{◌≡◌, ◌+◌, ◌<◌, ◌≤◌, ◌^◌, List, [], ◌∷◌, ◌++◌, length, All, IfOk, OnOk, Some};
ghost use Rattle.std.specs.List.{flat_map, sum_by};
ghost use Rattle.wasm_tree.specs.declared.interface.Interface.TheVariants.{Blocks};
ghost use Rattle.wasm_tree.specs.Spelled.{Each, Signed};
ghost use Rattle.wasm_tree.specs.Section.{flow_byte, kind_byte, slots_of, Scalar_kind, Runs, Parameter, Spelled_slot, Spelled_interface, Spelled_section};
ghost use Rattle.wasm_writer.specs.Spelling.{signed_bytes};
ghost use Rattle.wasm_writer.specs.Description.{is_same_kind, runs_of, scalar_bytes, run_bytes, Spelled_scalar_run, shape_bytes, parameter_bytes, slot_bytes, interface_bytes, section_contents, IsDescribable, most_bytes};

use crate::encode::put_byte;
use crate::entry::put_name;
use crate::number::{put_indexed, put_narrow, put_unsigned};
use cm_base::{Bytes, Flow, HostEnd, Items, Kind, NoMemory, Range, Scalar};
use std::alloc::Global;
use wasm_tree::Interface;

/// Scalars of one kind that follow one another.
#[derive(Clone, Copy, Drop)]
struct ScalarRun {
    count: u32,
    kind: Scalar,
}

fn byte_of_flow(flow: Flow) -> u8
    ensures { result ≡ flow_byte flow }
{
    match flow {
        Flow::Input => 0,
        Flow::Output => 1,
    }
}

fn byte_of_kind(kind: Kind) -> u8
    ensures { result ≡ kind_byte kind }
{
    match kind {
        Kind::Stream => 0,
        Kind::Value => 1,
        Kind::Event => 2,
    }
}

fn is_same(first: Scalar, second: Scalar) -> bool
    ensures { result ≡ is_same_kind first second }
{
    first == second
}

/// Adds a scalar to the last run where that is of its kind, and else as a run of its own.
fn add_scalar(runs: &mut Vec<ScalarRun>, kind: Scalar) -> Result<(), NoMemory>
    requires { All (λ run. run.count + 1 < 2 ^ 32) runs.now.items }
    ensures { OnOk result ((shape : List Scalar) → runs.old.items ≡ runs_of shape → runs.new.items ≡ runs_of (shape ++ kind ∷ [])) }
{
    let count = runs.len();
    if count > 0 && is_same(runs[count - 1].kind, kind) {
        runs[count - 1].count += 1;
        return Ok(());
    }
    runs.push(ScalarRun { count: 1, kind })?;
    Ok(())
}

/// The runs of a shape, each as long as it can be.
fn runs_in(alloc: Global, shape: &[Scalar]) -> Result<Vec<ScalarRun>, NoMemory>
    requires { length shape.now < 2 ^ 32 }
    ensures { IfOk result (λ runs. runs.items ≡ runs_of shape.now) }
{
    let mut runs = Vec::new(alloc);
    for kind in shape {
        add_scalar(&mut runs, *kind)?;
    }
    Ok(runs)
}

fn put_scalar(out: &mut Vec<u8>, kind: Scalar) -> Result<(), NoMemory>
    ensures appended { OnOk result (out.new.items ≡ out.old.items ++ scalar_bytes kind) }
    ensures spelled { OnOk result (Scalar_kind kind (scalar_bytes kind)) }
{
    match kind {
        Scalar::Int32 => put_byte(out, 0),
        Scalar::Int64 => put_byte(out, 1),
        Scalar::Bool => put_byte(out, 2),
        Scalar::Wrap(count) => put_indexed(out, 3, count),
        Scalar::Clamp(count) => put_indexed(out, 4, count),
    }
}

#[tactic(auto, using(crate::proofs::Parts::joined))]
fn put_run(out: &mut Vec<u8>, run: ScalarRun) -> Result<(), NoMemory>
    ensures appended { OnOk result (out.new.items ≡ out.old.items ++ run_bytes run) }
    ensures spelled { OnOk result (Spelled_scalar_run run (run_bytes run)) }
{
    put_unsigned(out, run.count)?;
    put_scalar(out, run.kind)
}

fn put_each_run(out: &mut Vec<u8>, runs: &[ScalarRun]) -> Result<(), NoMemory>
    ensures appended { OnOk result (out.new.items ≡ out.old.items ++ flat_map run_bytes runs.now) }
    ensures spelled { OnOk result (Each Spelled_scalar_run runs.now (flat_map run_bytes runs.now)) }
{
    for run in runs {
        put_run(out, *run)?;
    }
    Ok(())
}

/// Appends a shape: the count of its runs, and the runs.
fn put_shape(out: &mut Vec<u8>, shape: &[Scalar]) -> Result<(), NoMemory>
    requires { length shape.now < 2 ^ 32 }
    ensures appended { OnOk result (out.new.items ≡ out.old.items ++ shape_bytes shape.now) }
    ensures spelled { OnOk result (Runs shape.now (shape_bytes shape.now)) }
{
    let runs = runs_in(*out.allocator(), shape)?;
    put_unsigned(out, runs.len() as u32)?;
    put_each_run(out, &runs)
}

#[tactic(auto, using(crate::proofs::DescriptionLemmas::range_spelled))]
fn put_range(out: &mut Vec<u8>, range: Range) -> Result<(), NoMemory>
    ensures appended { OnOk result (out.new.items ≡ out.old.items ++ parameter_bytes (Some range)) }
    ensures spelled { OnOk result (Parameter (Some range) (parameter_bytes (Some range))) }
{
    out.push(1)?;
    put_narrow(out, range.min)?;
    put_narrow(out, range.max)?;
    put_narrow(out, range.init)
}

fn put_parameter(out: &mut Vec<u8>, parameter: Option<Range>) -> Result<(), NoMemory>
    ensures appended { OnOk result (out.new.items ≡ out.old.items ++ parameter_bytes parameter) }
    ensures spelled { OnOk result (Parameter parameter (parameter_bytes parameter)) }
{
    match parameter {
        None => put_byte(out, 0),
        Some(range) => put_range(out, range),
    }
}

/// Appends an endpoint and the address of its slot.
#[tactic(auto, using(crate::proofs::DescriptionLemmas::slot_spelled))]
fn put_slot(out: &mut Vec<u8>, end: &HostEnd, address: u32) -> Result<(), NoMemory>
    requires name { length end.now.name < 2 ^ 32 }
    requires shape { length end.now.shape < 2 ^ 32 }
    ensures appended { OnOk result (out.new.items ≡ out.old.items ++ slot_bytes (record { end = end.now; address = address })) }
    ensures spelled { OnOk result (Spelled_slot (record { end = end.now; address = address }) (slot_bytes (record { end = end.now; address = address }))) }
{
    out.push(byte_of_flow(end.flow))?;
    out.push(byte_of_kind(end.kind))?;
    put_name(out, &end.name)?;
    put_unsigned(out, address)?;
    put_shape(out, end.shape.as_slice())?;
    put_parameter(out, end.parameter)
}

/// Appends the endpoints, each with the address of its slot.
fn put_slots(out: &mut Vec<u8>, host: &[HostEnd], addresses: &[u32]) -> Result<(), NoMemory>
    requires describable { IsDescribable host.now }
    requires paired { length addresses.now ≡ length host.now }
    ensures appended { OnOk result (out.new.items ≡ out.old.items ++ flat_map slot_bytes (slots_of host.now addresses.now)) }
    ensures spelled { OnOk result (Each Spelled_slot (slots_of host.now addresses.now) (flat_map slot_bytes (slots_of host.now addresses.now))) }
{
    for (index, end) in host.iter().enumerate() {
        put_slot(out, end, addresses[index])?;
    }
    Ok(())
}

#[tactic(auto, using(crate::proofs::Parts::begins, crate::proofs::Parts::joined))]
fn put_blocks(out: &mut Vec<u8>, block: u32, latency: u32) -> Result<(), NoMemory>
    ensures appended { OnOk result (out.new.items ≡ out.old.items ++ interface_bytes (Blocks block) latency) }
    ensures spelled { OnOk result (Spelled_interface (Blocks block) latency (interface_bytes (Blocks block) latency)) }
{
    out.push(2)?;
    put_unsigned(out, latency)?;
    put_unsigned(out, block)
}

fn put_interface(out: &mut Vec<u8>, interface: Interface, latency: u32) -> Result<(), NoMemory>
    ensures appended { OnOk result (out.new.items ≡ out.old.items ++ interface_bytes interface latency) }
    ensures spelled { OnOk result (Spelled_interface interface latency (interface_bytes interface latency)) }
{
    match interface {
        Interface::Single => put_indexed(out, 1, latency),
        Interface::Blocks(block) => put_blocks(out, block, latency),
    }
}

/// What the custom section `cmajor` says of a module with these endpoints, whose slots have these addresses,
/// in its shortest spelling (docs/MODULE.md, "The section"). The latency is in frames.
pub fn write_section(
    alloc: Global,
    interface: Interface,
    latency: u32,
    host: &[HostEnd],
    addresses: &[u32],
) -> Result<Bytes, NoMemory>
    requires describable { IsDescribable host.now }
    requires paired { length addresses.now ≡ length host.now }
    ensures shortest { IfOk result (λ bytes. bytes ≡ section_contents interface latency (slots_of host.now addresses.now)) }
    ensures spelled { IfOk result (λ bytes. Spelled_section (record { interface = interface; latency = latency; slots = slots_of host.now addresses.now }) bytes) }
    ensures bounded { IfOk result (λ bytes. length bytes ≤ 16 + sum_by most_bytes host.now) }
{
    let mut out = Vec::new(alloc);
    put_interface(&mut out, interface, latency)?;
    put_unsigned(&mut out, host.len() as u32)?;
    put_slots(&mut out, host, addresses)?;
    Ok(Items::from_vec(out))
}
