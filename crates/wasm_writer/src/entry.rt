ghost use Rattle.std.specs.Prelude.{◌≡◌, ◌<◌, ◌≤◌, ◌^◌, ◌++◌, ◌∷◌, [], length, OnOk};
ghost use Rattle.wasm_tree.specs.Spelled.{Utf8Text, Import_kind, Export_kind, Memory, Begins, mutable_byte};
ghost use Rattle.wasm_writer.specs.Size.{capped};
ghost use Rattle.wasm_writer.specs.Spelling.{text_bytes, memory_bytes, import_kind_bytes, export_kind_bytes, code_bytes};

use crate::encode::{Encode, put_each, put_text, put_vector, size_of_each, size_of_vector};
use crate::number::{put_indexed, put_signed, put_unsigned, size_of_signed, size_of_unsigned};
use crate::size::{add, size_of_text};
use crate::types::{put_bounds, size_of_bounds};
use cm_base::{Name, NoMemory};
use wasm_tree::{
    ExportEntry, ExportKind, FuncBody, GlobalVar, Import, ImportKind, Limits, LocalRun, Segment,
};

/// Appends a name behind its length (Core Specification 1.0, 5.2.4).
#[tactic(auto, using(crate::proofs::EntryLemmas::name_spelled))]
pub fn put_name(out: &mut Vec<u8>, name: &Name) -> Result<(), NoMemory>
    requires { length name.now < 2 ^ 32 }
    ensures appended { OnOk result (out.new.items ≡ out.old.items ++ text_bytes name.now) }
    ensures spelled { OnOk result (Utf8Text name.now (text_bytes name.now)) }
{
    put_text(out, name.as_bytes())
}

#[tactic(auto, using(crate::proofs::Parts::begins))]
fn put_memory_kind(out: &mut Vec<u8>, limits: Limits) -> Result<(), NoMemory>
    ensures appended { OnOk result (out.new.items ≡ out.old.items ++ 0x02 ∷ memory_bytes limits) }
    ensures spelled { OnOk result (Begins 0x02 (Memory limits) (0x02 ∷ memory_bytes limits)) }
{
    out.push(0x02)?;
    put_bounds(out, limits.min, limits.max)
}

fn put_import_kind(out: &mut Vec<u8>, kind: ImportKind) -> Result<(), NoMemory>
    ensures appended { OnOk result (out.new.items ≡ out.old.items ++ import_kind_bytes kind) }
    ensures spelled { OnOk result (Import_kind kind (import_kind_bytes kind)) }
{
    match kind {
        ImportKind::Function(type_index) => put_indexed(out, 0x00, type_index),
        ImportKind::Memory(limits) => put_memory_kind(out, limits),
    }
}

fn size_of_import_kind(kind: ImportKind) -> u64
    ensures exact { result ≡ length (import_kind_bytes kind) }
    ensures few { result ≤ 12 }
{
    match kind {
        ImportKind::Function(type_index) => 1 + size_of_unsigned(u64::from(type_index)),
        ImportKind::Memory(limits) => 1 + size_of_bounds(limits.min, limits.max),
    }
}

impl Encode for Import {
    ghost use Rattle.wasm_tree.specs.Spelled.{Imported};
    ghost use Rattle.wasm_writer.specs.Spelling.{import_bytes};

    ghost shortest = { import_bytes };

    ghost spells = { Imported };

    ghost well_formed = { λ _. Unit {0} };

    #[tactic(auto, using(crate::proofs::EntryLemmas::import_spelled, crate::proofs::EntryLemmas::import_sizes))]
    fn encode(&self, out: &mut Vec<u8>) -> Result<(), NoMemory> {
        put_name(out, &self.module)?;
        put_name(out, &self.name)?;
        put_import_kind(out, self.kind)
    }

    #[tactic(auto, using(crate::proofs::Sizes::import_sized))]
    fn size(&self) -> u64 {
        let names = add(
            size_of_text(self.module.as_bytes()),
            size_of_text(self.name.as_bytes()),
        );
        add(names, size_of_import_kind(self.kind))
    }
}

fn put_export_kind(out: &mut Vec<u8>, kind: ExportKind) -> Result<(), NoMemory>
    ensures appended { OnOk result (out.new.items ≡ out.old.items ++ export_kind_bytes kind) }
    ensures spelled { OnOk result (Export_kind kind (export_kind_bytes kind)) }
{
    match kind {
        ExportKind::Function(function) => put_indexed(out, 0x00, function),
        ExportKind::Memory(memory) => put_indexed(out, 0x02, memory),
    }
}

fn size_of_export_kind(kind: ExportKind) -> u64
    ensures exact { result ≡ length (export_kind_bytes kind) }
    ensures few { result ≤ 6 }
{
    match kind {
        ExportKind::Function(function) => 1 + size_of_unsigned(u64::from(function)),
        ExportKind::Memory(memory) => 1 + size_of_unsigned(u64::from(memory)),
    }
}

impl Encode for ExportEntry {
    ghost use Rattle.wasm_tree.specs.Spelled.{Exported};
    ghost use Rattle.wasm_writer.specs.Spelling.{export_bytes};

    ghost shortest = { export_bytes };

    ghost spells = { Exported };

    ghost well_formed = { λ _. Unit {0} };

    #[tactic(auto, using(crate::proofs::EntryLemmas::export_spelled, crate::proofs::EntryLemmas::export_sizes))]
    fn encode(&self, out: &mut Vec<u8>) -> Result<(), NoMemory> {
        put_name(out, &self.name)?;
        put_export_kind(out, self.kind)
    }

    #[tactic(auto, using(crate::proofs::Sizes::export_sized))]
    fn size(&self) -> u64 {
        add(
            size_of_text(self.name.as_bytes()),
            size_of_export_kind(self.kind),
        )
    }
}

fn byte_of_mutable(mutable: bool) -> u8
    ensures { result ≡ mutable_byte mutable }
{
    if mutable { 0x01 } else { 0x00 }
}

impl Encode for GlobalVar {
    ghost use Rattle.wasm_tree.specs.Spelled.{Global, IsConstant};
    ghost use Rattle.wasm_writer.specs.Spelling.{global_bytes};

    ghost shortest = { global_bytes };

    ghost spells = { Global };

    ghost well_formed = { λ global. IsConstant global.value };

    #[tactic(auto, using(crate::proofs::EntryLemmas::global_spelled, crate::proofs::EntryLemmas::global_sizes))]
    fn encode(&self, out: &mut Vec<u8>) -> Result<(), NoMemory> {
        out.push(self.ty.byte())?;
        out.push(byte_of_mutable(self.mutable))?;
        self.value.encode(out)?;
        out.push(0x0B)?;
        Ok(())
    }

    #[tactic(auto, using(crate::proofs::Sizes::global_sized))]
    fn size(&self) -> u64 {
        add(self.value.size(), 3)
    }
}

impl Encode for LocalRun {
    ghost use Rattle.wasm_tree.specs.Spelled.{Locals};
    ghost use Rattle.wasm_writer.specs.Spelling.{locals_bytes};

    ghost shortest = { locals_bytes };

    ghost spells = { Locals };

    ghost well_formed = { λ _. Unit {0} };

    #[tactic(auto, using(crate::proofs::EntryLemmas::locals_spelled))]
    fn encode(&self, out: &mut Vec<u8>) -> Result<(), NoMemory> {
        put_unsigned(out, self.count)?;
        out.push(self.ty.byte())?;
        Ok(())
    }

    #[tactic(auto, using(crate::proofs::Sizes::locals_sized))]
    fn size(&self) -> u64 {
        size_of_unsigned(u64::from(self.count)) + 1
    }
}

/// The size of a body without its own size.
#[tactic(auto, using(crate::proofs::Sizes::code_sized))]
fn size_of_code(body: &FuncBody) -> u64
    ensures { result ≡ capped (length (code_bytes body.now)) }
{
    add(
        size_of_vector(&body.locals),
        size_of_each(body.code.as_slice()),
    )
}

impl Encode for FuncBody {
    ghost use Rattle.wasm_tree.specs.Spelled.{Body};
    ghost use Rattle.wasm_tree.specs.Valid.{IsBodyWithinLimits};
    ghost use Rattle.wasm_writer.specs.Spelling.{body_bytes};

    ghost shortest = { body_bytes };

    ghost spells = { Body };

    ghost well_formed = { IsBodyWithinLimits };

    #[tactic(auto, using(crate::proofs::EntryLemmas::body_spelled, crate::proofs::EntryLemmas::body_sizes))]
    fn encode(&self, out: &mut Vec<u8>) -> Result<(), NoMemory> {
        put_unsigned(out, size_of_code(self) as u32)?;
        put_vector(out, &self.locals)?;
        put_each(out, self.code.as_slice())
    }

    #[tactic(auto, using(crate::proofs::Sizes::body_sized))]
    fn size(&self) -> u64 {
        let contents = size_of_code(self);
        add(size_of_unsigned(contents), contents)
    }
}

impl Encode for Segment {
    ghost use Rattle.wasm_tree.specs.Spelled.{Data};
    ghost use Rattle.wasm_writer.specs.Spelling.{segment_bytes};

    ghost shortest = { segment_bytes };

    ghost spells = { Data };

    ghost well_formed = { λ _. Unit {0} };

    #[tactic(auto, using(crate::proofs::EntryLemmas::segment_spelled, crate::proofs::EntryLemmas::segment_sizes))]
    fn encode(&self, out: &mut Vec<u8>) -> Result<(), NoMemory> {
        put_unsigned(out, self.memory)?;
        out.push(0x41)?;
        put_signed(out, i64::from(self.offset))?;
        out.push(0x0B)?;
        put_text(out, self.bytes.as_slice())
    }

    #[tactic(auto, using(crate::proofs::Sizes::segment_sized))]
    fn size(&self) -> u64 {
        let memory = size_of_unsigned(u64::from(self.memory));
        let offset = size_of_signed(i64::from(self.offset));
        add(memory + offset + 2, size_of_text(self.bytes.as_slice()))
    }
}
