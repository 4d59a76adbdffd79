//! The command `play`: a module and a script are read and checked, and then the module is run.

ghost use Rattle.std.specs.Prelude.{◌≡◌, ◌<◌, ◌^◌, ◌⊎◌, Ok, length, map, IfOk, IfErr};
ghost use Rattle.cm_base.specs.HostEnds.{IsLawful};
ghost use Rattle.cm_base.specs.Scripts.{IsScriptFor};
ghost use Rattle.cm_io.specs.Seen.{IfTold, OnlyRead};
ghost use Rattle.input_script.specs.Script.{script_in};
ghost use Rattle.item_lines.specs.Hearing.{ear};
ghost use Rattle.item_lines.specs.Telling.{mouth};
ghost use Rattle.wasm_tree.specs.Valid.{Valid as IsValid};
ghost use Rattle.commands.specs.declared.status.FileRef.TheVariants.{Input};
ghost use Rattle.commands.specs.Files.{IsPlayFile};
ghost use Rattle.commands.specs.Playing.{SpellsValid, HasModule, RefusesModule, NoModule, HasScript, RefusesScript, NoScript};
ghost use Rattle.commands.specs.Statuses.{status_of_module};
ghost use Rattle.commands.specs.Steps.{Ends, Stopped, ended};
ghost use Rattle.commands.specs.Told.{TellsFor};
ghost use Rattle.commands.specs.Words.{Play};

use crate::files::read_file;
use crate::status::{FileRef, Status};
use crate::stop::{Stop, about, ended_with};
use cm_base::limits::{MODULE_BYTES, SCRIPT_BYTES};
use cm_base::{FormFail, HostEnds, Script};
use cm_io::{Folder, Listener, Sink};
use input_script::read_script;
use run_lines::tell_run;
use saved_state::nothing_saved;
use std::alloc::Global;
use wasm_reader::read_module;
use wasm_tree::ModuleFail;
use wasm_valid::{Valid, validate};

/// Plays the module of a file over the script of another, with at most `steps` reductions for each part of the run.
pub fn play_files<F: Folder, O: Sink, L: Listener>(
    alloc: Global,
    folder: &mut F,
    wasm: &str,
    input: &str,
    steps: u64,
    out: &mut O,
    listeners: &mut Vec<L>,
) -> Result<(), Stop>
    requires few { length listeners.old.items < 2 ^ 31 }
    ensures ends { Ends (Play wasm.now input.now steps) (F.seen folder.old) (F.seen folder.new) (ended result) }
    ensures told { TellsFor (Play wasm.now input.now steps) (F.seen folder.old).holds
        (record { out = mouth (O.written out.old) (O.faults out.old) (O.refusals out.old); ears = map (λ l. ear (L.heard l) (L.count l) (L.faults l) (L.refusals l)) listeners.old.items })
        (record { out = mouth (O.written out.new) (O.faults out.new) (O.refusals out.new); ears = map (λ l. ear (L.heard l) (L.count l) (L.faults l) (L.refusals l)) listeners.new.items })
        (ended result) }
{
    let valid = about(alloc, wasm, read_valid(alloc, folder, wasm))?;
    let script = about(alloc, input, read_input(alloc, folder, input, valid.host()))?;
    let saved = nothing_saved(alloc, valid.host());
    let end = tell_run(alloc, valid, &saved, &script, steps, out, listeners);
    ended_with(Status::of_run(end))
}

/// The valid module that a file holds.
fn read_valid<F: Folder>(alloc: Global, folder: &mut F, name: &str) -> Result<Valid, Status>
    ensures only_read { OnlyRead (F.seen folder.old) (F.seen folder.new) }
    ensures found { IfOk result (λ valid. IfTold (F.seen folder.old) (λ files. HasModule files name.now valid.of valid.section)) }
    ensures valid { IfOk result (λ valid. IsValid valid.of valid.section) }
    ensures stopped { IfErr result (Stopped (F.seen folder.old) (F.seen folder.new) IsPlayFile (λ files. NoModule files name.now)) }
{
    let bytes = read_file(alloc, folder, name, FileRef::Module, MODULE_BYTES)?;
    valid_module(alloc, bytes.as_slice())
}

/// The valid module that bytes spell.
pub fn valid_module(alloc: Global, bytes: &[u8]) -> Result<Valid, Status>
    ensures found { IfOk result (λ valid. SpellsValid valid.of valid.section bytes.now) }
    ensures refused { IfErr result (λ status. (status ≡ Status.NoMemory) ⊎ RefusesModule bytes.now status) }
{
    let module = match read_module(alloc, bytes) {
        Ok(module) => module,
        Err(fail) => return Err(refusal(fail)),
    };
    match validate(alloc, module, bytes) {
        Ok(valid) => {
            let _valid = valid.module();
            Ok(valid)
        }
        Err(fail) => Err(refusal(fail)),
    }
}

/// The status of a module that isn't read or isn't valid.
fn refusal(fail: ModuleFail) -> Status
    ensures { result ≡ status_of_module fail }
{
    match fail {
        ModuleFail::Refused(refused) => Status::ModuleRefused(refused),
        ModuleFail::NoMemory => Status::NoMemory,
    }
}

/// The script that a file holds for these endpoints.
pub fn read_input<F: Folder>(
    alloc: Global,
    folder: &mut F,
    name: &str,
    host: &HostEnds,
) -> Result<Script, Status>
    requires { IsLawful host.now }
    ensures only_read { OnlyRead (F.seen folder.old) (F.seen folder.new) }
    ensures found { IfOk result (λ script. IfTold (F.seen folder.old) (λ files. HasScript files name.now host.now script)) }
    ensures belongs { IfOk result (IsScriptFor host.now) }
    ensures stopped { IfErr result (Stopped (F.seen folder.old) (F.seen folder.new) (λ f. f ≡ Input) (λ files. NoScript files name.now host.now)) }
{
    let bytes = read_file(alloc, folder, name, FileRef::Input, SCRIPT_BYTES)?;
    script_of(alloc, bytes.as_slice(), host)
}

/// The script that bytes are for these endpoints.
fn script_of(alloc: Global, bytes: &[u8], host: &HostEnds) -> Result<Script, Status>
    requires { IsLawful host.now }
    ensures found { IfOk result (λ script. script_in host.now bytes.now ≡ Ok script) }
    ensures belongs { IfOk result (IsScriptFor host.now) }
    ensures refused { IfErr result (λ status. (status ≡ Status.NoMemory) ⊎ RefusesScript host.now bytes.now status) }
{
    match read_script(alloc, bytes, host) {
        Ok(script) => Ok(script),
        Err(FormFail::Refused(fault)) => Err(Status::InputRefused(fault)),
        Err(FormFail::NoMemory) => Err(Status::NoMemory),
    }
}
