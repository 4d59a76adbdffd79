//! The command `compile`: the patch is read, and its module is written last.

ghost use Rattle.std.specs.Prelude.{IfOk};
ghost use Rattle.commands.specs.Compile.{IsFormModule};
ghost use Rattle.commands.specs.Patch.{AreNames};
ghost use Rattle.commands.specs.Steps.{Ends, ended};
ghost use Rattle.commands.specs.Words.{Compile};

use crate::files::write_file;
use crate::patch::read_patch;
use crate::stop::Stop;
use cm_base::{Bytes, NoMemory};
use cm_front::Through;
use cm_io::Folder;
use module_build::build_through;
use std::alloc::Global;
use wasm_writer::write_module;

/// Writes the module of the manifest's patch to the file `out`.
pub fn compile<F: Folder>(
    alloc: Global,
    folder: &mut F,
    manifest: &str,
    out: &str,
) -> Result<(), Stop>
    ensures { Ends (Compile manifest.now out.now) (F.seen folder.old) (F.seen folder.new) (ended result) }
{
    let patch = read_patch(alloc, folder, manifest)?;
    let bytes = module_bytes(alloc, &patch)?;
    write_file(alloc, folder, out, bytes.as_slice())
}

/// The bytes of the module of the patch with these names.
fn module_bytes(alloc: Global, patch: &Through) -> Result<Bytes, NoMemory>
    requires { AreNames patch.now.input patch.now.output }
    ensures { IfOk result (IsFormModule patch.now.input patch.now.output) }
{
    let module = build_through(alloc, &patch.input, &patch.output)?;
    write_module(alloc, &module)
}
