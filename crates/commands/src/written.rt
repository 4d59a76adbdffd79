//! The state file that is written after a run.

ghost use Rattle.std.specs.Prelude.{◌≡◌, ◌<◌, ◌^◌, [], true, IfOk};
ghost use Rattle.std.specs.List.{AllByRecursion};
ghost use Rattle.cm_base.specs.HostEnds.{IsLawful};
ghost use Rattle.cm_base.specs.Scripts.{IsScriptFor};
ghost use Rattle.module_player.specs.Playing.{instance_of};
ghost use Rattle.saved_state.specs.Applied.{AreShort};
ghost use Rattle.saved_state.specs.Version2.{IsCounted, IsVersion2};
ghost use Rattle.wasm_tree.specs.Section.{ends_of};
ghost use Rattle.commands.specs.Resuming.{state_after};

use cm_base::{Bytes, HostEnd, NoMemory, Script, Snapshot};
use module_player::Player;
use saved_state::{Version2, final_values, restore, snapshot_text};
use std::alloc::Global;

/// Whether a count or a length has 4 bytes.
fn is_counted(count: usize) -> bool
    ensures { result ≡ true → count < 2 ^ 32 }
{
    u32::try_from(count).is_ok()
}

/// Whether the names of the endpoints are so short.
fn have_short_names(host: &[HostEnd]) -> bool
    ensures { result ≡ true → AllByRecursion (λ end. IsCounted end.name) host.now }
{
    let mut rest = host;
    while let Some((first, others)) = rest.split_first() {
        if !is_counted(first.name.as_bytes().len()) {
            return false;
        }
        rest = others;
    }
    true
}

/// Whether all that a state file counts has 4 bytes for its count or its length.
fn is_short(host: &[HostEnd], module_bytes: &[u8], snapshot: &Snapshot) -> bool
    ensures { result ≡ true → AreShort host.now module_bytes.now snapshot.now }
{
    have_short_names(host)
        && is_counted(module_bytes.len())
        && is_counted(snapshot.memory.len())
        && is_counted(snapshot.globals.len())
        && is_counted(snapshot.current.len())
}

/// The bytes of the state to which a stopped run comes over a script, whose player stands at its end. A state with more than
/// its form can count isn't written, as one that memory has no room for.
pub fn state_bytes(
    alloc: Global,
    stopped: &Version2,
    script: &Script,
    player: &Player,
) -> Result<Bytes, NoMemory>
    requires live { player.now.live ≡ true }
    requires script { IsScriptFor (ends_of player.now.of.section) script.now }
    ensures { IfOk result (λ bytes. IsVersion2 bytes (state_after stopped.now player.now.of.of player.now.of.section script.now (instance_of player.now []))) }
{
    let host = player.slots().host();
    let saved = restore(alloc, host, &stopped.saved)?;
    let values = final_values(alloc, host, &saved, script)?;
    let snapshot = player.snapshot(alloc)?;
    let module_bytes = stopped.module_bytes.as_slice();
    if !is_short(host.as_slice(), module_bytes, &snapshot) {
        return Err(NoMemory);
    }
    snapshot_text(alloc, host, &values, module_bytes, &snapshot)
}
