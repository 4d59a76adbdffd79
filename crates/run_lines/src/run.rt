// Runs whose items are told.

ghost use Rattle.std.specs.Prelude.{◌≡◌, ◌≢◌, ◌<◌, ◌^◌, length, map, true, IfOk, IfErr};
ghost use Rattle.cm_base.specs.HostEnds.{IsLawful};
ghost use Rattle.cm_base.specs.Scripts.{AreSaved, IsScriptFor};
ghost use Rattle.item_lines.specs.Hearing.{ear};
ghost use Rattle.item_lines.specs.Telling.{mouth};
ghost use Rattle.wasm_tree.specs.HostRun.{host_run};
ghost use Rattle.wasm_tree.specs.Section.{ends_of};
ghost use Rattle.wasm_tree.specs.Stopped.{resumed_run, resumed_stops};
ghost use Rattle.wasm_runner.specs.Snapshots.{Fits};
ghost use Rattle.run_lines.specs.declared.ending.RunEnd.TheVariants.{Ended as RunEnded};
ghost use Rattle.run_lines.specs.Runs.{RunTells, IsLeft, due_of, end_in, script_stops};

use crate::ending::{RunEnd, run_end};
use crate::outlet::Outlet;
use cm_base::{SavedList, Script, Snapshot};
use cm_io::{Listener, Sink};
use item_lines::Told;
use module_player::{Player, play, play_script};
use std::alloc::Global;
use wasm_valid::{Slots, Valid};

// The run, whose items the outlet tells.
fn tell_into<'a, 'b, 'c, O: Sink, L: Listener>(
    alloc: Global,
    valid: Valid,
    saved: &SavedList,
    script: &Script,
    steps: u64,
    outlet: &mut Outlet<'a, 'b, 'c, O, L>,
) -> RunEnd
    requires saved { AreSaved (ends_of valid.section) saved.now }
    requires script { IsScriptFor (ends_of valid.section) script.now }
    requires slots { outlet.old.slots.now ≡ valid.section.slots }
    ensures told { RunTells (ends_of valid.section) (host_run valid.of valid.section saved.now script.now script.now.frames steps)
        (record { out = mouth (O.written outlet.old.out.now) (O.faults outlet.old.out.now) (O.refusals outlet.old.out.now); ears = map (λ l. ear (L.heard l) (L.count l) (L.faults l) (L.refusals l)) outlet.old.listeners.now.items })
        (record { out = mouth (O.written outlet.new.out.now) (O.faults outlet.new.out.now) (O.refusals outlet.new.out.now); ears = map (λ l. ear (L.heard l) (L.count l) (L.faults l) (L.refusals l)) outlet.new.listeners.now.items })
        result }
    ensures out { outlet.new.out.ghost_name ≡ outlet.old.out.ghost_name }
    ensures line { outlet.new.line.ghost_name ≡ outlet.old.line.ghost_name }
    ensures listeners { outlet.new.listeners.ghost_name ≡ outlet.old.listeners.ghost_name }
{
    match play(alloc, valid, saved, script, steps, outlet) {
        Ok(came) => run_end(came, outlet.last),
        Err(_) => RunEnd::NoMemory,
    }
}

// The run, with these slots of the module and room for lines.
fn tell_with<O: Sink, L: Listener>(
    alloc: Global,
    valid: Valid,
    saved: &SavedList,
    script: &Script,
    steps: u64,
    line: &mut Vec<u8>,
    slots: &Slots,
    out: &mut O,
    listeners: &mut Vec<L>,
) -> RunEnd
    requires few { length listeners.old.items < 2 ^ 31 }
    requires saved { AreSaved (ends_of valid.section) saved.now }
    requires script { IsScriptFor (ends_of valid.section) script.now }
    requires slots { slots.now ≡ valid.section.slots }
    ensures told { RunTells (ends_of valid.section) (host_run valid.of valid.section saved.now script.now script.now.frames steps)
        (record { out = mouth (O.written out.old) (O.faults out.old) (O.refusals out.old); ears = map (λ l. ear (L.heard l) (L.count l) (L.faults l) (L.refusals l)) listeners.old.items })
        (record { out = mouth (O.written out.new) (O.faults out.new) (O.refusals out.new); ears = map (λ l. ear (L.heard l) (L.count l) (L.faults l) (L.refusals l)) listeners.new.items })
        result }
{
    let mut outlet = Outlet {
        line,
        slots,
        out,
        listeners,
        last: Told::Heard,
    };
    tell_into(alloc, valid, saved, script, steps, &mut outlet)
}

/// Plays a valid module over a script, with at most `steps` reductions for each part. Its parameters begin with the values that
/// are saved under their names, or else with those of their ranges. The line of each item of the trace is put to `out` as one piece, and then the listeners hear the item, until
/// the run ends, a part doesn't, a line isn't put or a listener doesn't take the item. The memory of the run is taken before
/// its first call.
pub fn tell_run<O: Sink, L: Listener>(
    alloc: Global,
    valid: Valid,
    saved: &SavedList,
    script: &Script,
    steps: u64,
    out: &mut O,
    listeners: &mut Vec<L>,
) -> RunEnd
    requires few { length listeners.old.items < 2 ^ 31 }
    requires saved { AreSaved (ends_of valid.section) saved.now }
    requires script { IsScriptFor (ends_of valid.section) script.now }
    // The items of the module's run are told as they come, all of them or up to one that isn't heard, and it ends by them.
    ensures told { RunTells (ends_of valid.section) (host_run valid.of valid.section saved.now script.now script.now.frames steps)
        (record { out = mouth (O.written out.old) (O.faults out.old) (O.refusals out.old); ears = map (λ l. ear (L.heard l) (L.count l) (L.faults l) (L.refusals l)) listeners.old.items })
        (record { out = mouth (O.written out.new) (O.faults out.new) (O.refusals out.new); ears = map (λ l. ear (L.heard l) (L.count l) (L.faults l) (L.refusals l)) listeners.new.items })
        result }
{
    let slots = match valid.slots(alloc) {
        Ok(slots) => slots,
        Err(_) => return RunEnd::NoMemory,
    };
    let mut line = Vec::new(alloc);
    tell_with(
        alloc, valid, saved, script, steps, &mut line, &slots, out, listeners,
    )
}

// The frames of a script, whose items the outlet tells.
fn frames_into<'a, 'b, 'c, O: Sink, L: Listener>(
    player: &mut Player,
    script: &Script,
    outlet: &mut Outlet<'a, 'b, 'c, O, L>,
) -> RunEnd
    requires live { player.old.live ≡ true }
    requires lawful { IsLawful (ends_of player.old.of.section) }
    requires script { IsScriptFor (ends_of player.old.of.section) script.now }
    requires slots { outlet.old.slots.now ≡ player.old.of.section.slots }
    ensures told { RunTells (ends_of player.old.of.section) (due_of (script_stops player.old script.now))
        (record { out = mouth (O.written outlet.old.out.now) (O.faults outlet.old.out.now) (O.refusals outlet.old.out.now); ears = map (λ l. ear (L.heard l) (L.count l) (L.faults l) (L.refusals l)) outlet.old.listeners.now.items })
        (record { out = mouth (O.written outlet.new.out.now) (O.faults outlet.new.out.now) (O.refusals outlet.new.out.now); ears = map (λ l. ear (L.heard l) (L.count l) (L.faults l) (L.refusals l)) outlet.new.listeners.now.items })
        result }
    ensures left { result ≡ RunEnded → IsLeft (script_stops player.old script.now) player.old.of player.new }
    ensures out { outlet.new.out.ghost_name ≡ outlet.old.out.ghost_name }
    ensures line { outlet.new.line.ghost_name ≡ outlet.old.line.ghost_name }
    ensures listeners { outlet.new.listeners.ghost_name ≡ outlet.old.listeners.ghost_name }
{
    let came = play_script(player, script, outlet);
    run_end(came, outlet.last)
}

// The frames of a script, with these slots of the module and room for lines.
fn frames_with<O: Sink, L: Listener>(
    player: &mut Player,
    script: &Script,
    line: &mut Vec<u8>,
    slots: &Slots,
    out: &mut O,
    listeners: &mut Vec<L>,
) -> RunEnd
    requires few { length listeners.old.items < 2 ^ 31 }
    requires live { player.old.live ≡ true }
    requires lawful { IsLawful (ends_of player.old.of.section) }
    requires script { IsScriptFor (ends_of player.old.of.section) script.now }
    requires slots { slots.now ≡ player.old.of.section.slots }
    ensures told { RunTells (ends_of player.old.of.section) (due_of (script_stops player.old script.now))
        (record { out = mouth (O.written out.old) (O.faults out.old) (O.refusals out.old); ears = map (λ l. ear (L.heard l) (L.count l) (L.faults l) (L.refusals l)) listeners.old.items })
        (record { out = mouth (O.written out.new) (O.faults out.new) (O.refusals out.new); ears = map (λ l. ear (L.heard l) (L.count l) (L.faults l) (L.refusals l)) listeners.new.items })
        result }
    ensures left { result ≡ RunEnded → IsLeft (script_stops player.old script.now) player.old.of player.new }
{
    let mut outlet = Outlet {
        line,
        slots,
        out,
        listeners,
        last: Told::Heard,
    };
    frames_into(player, script, &mut outlet)
}

/// Goes on with the stopped run of a valid module over a script, with at most `steps` reductions for each part: its memory,
/// its mutable globals and its current values are those of the snapshot, neither `init` is called nor a starting value given,
/// and frames count from 0. The items are told as `tell_run` does. The memory of the run is taken before its first call.
///
/// # Errors
/// How the run ended, where it didn't come to its end. Else the player stands where the run stopped, so that its snapshot
/// can be taken.
pub fn tell_resumed<O: Sink, L: Listener>(
    alloc: Global,
    valid: Valid,
    snapshot: &Snapshot,
    script: &Script,
    steps: u64,
    out: &mut O,
    listeners: &mut Vec<L>,
) -> Result<Player, RunEnd>
    requires few { length listeners.old.items < 2 ^ 31 }
    requires fits { Fits valid.of valid.section snapshot.now }
    requires script { IsScriptFor (ends_of valid.section) script.now }
    // The items of the resumed run are told as they come, all of them or up to one that isn't heard, and it ends by them.
    ensures told { RunTells (ends_of valid.section) (resumed_run valid.of valid.section snapshot.now script.now script.now.frames steps)
        (record { out = mouth (O.written out.old) (O.faults out.old) (O.refusals out.old); ears = map (λ l. ear (L.heard l) (L.count l) (L.faults l) (L.refusals l)) listeners.old.items })
        (record { out = mouth (O.written out.new) (O.faults out.new) (O.refusals out.new); ears = map (λ l. ear (L.heard l) (L.count l) (L.faults l) (L.refusals l)) listeners.new.items })
        (end_in result) }
    ensures left { IfOk result (IsLeft (resumed_stops valid.of valid.section snapshot.now script.now script.now.frames steps) valid) }
    ensures early { IfErr result (λ end. end ≢ RunEnded) }
{
    let _lawful = valid.host();
    let slots = match valid.slots(alloc) {
        Ok(slots) => slots,
        Err(_) => return Err(RunEnd::NoMemory),
    };
    let mut player = match Player::resume(alloc, valid, snapshot, steps) {
        Ok(player) => player,
        Err(_) => return Err(RunEnd::NoMemory),
    };
    let mut line = Vec::new(alloc);
    match frames_with(&mut player, script, &mut line, &slots, out, listeners) {
        RunEnd::Ended => Ok(player),
        end => Err(end),
    }
}
