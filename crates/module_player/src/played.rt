// Whole runs.

ghost use Rattle.std.specs.Prelude.{◌≡◌, ◌<◌, ◌++◌, [], ◌∷◌, List, length, slice_get, true, MatchResult};
ghost use Rattle.std.specs.Option.{IfSome};
ghost use Rattle.cm_base.specs.HostEnds.{IsLawful};
ghost use Rattle.cm_base.specs.Parts.{inputs_at, is_event as is_of_events, start_of, start_tasks, start_tasks_of, tasks_of};
ghost use Rattle.cm_base.specs.Scripts.{IsScriptFor, AreSaved};
ghost use Rattle.wasm_tree.specs.Section.{ends_of};
ghost use Rattle.module_player.specs.declared.came.Came.TheVariants.{Ended as CameEnded};
ghost use Rattle.module_player.specs.Playing.{ComesTo, ComesOf, IsSame, IsPlayed};

use crate::came::Came;
use crate::player::{Player, has_ended};
use crate::run::play_script;
use crate::teller::Teller;
use cm_base::{HostEnd, Kind, NoMemory, Range, Saved, SavedList, Script};
use std::alloc::Global;
use wasm_valid::Valid;

// The value with which a parameter starts: the first that is saved under its name, or else that of its range.
fn start_value(end: &HostEnd, range: Range, saved: &[Saved]) -> i64
    ensures { result ≡ start_of end.now range saved.now }
{
    for entry in saved {
        if entry.name.as_bytes() == end.name.as_bytes() {
            return entry.value;
        }
    }
    i64::from(range.init)
}

fn is_event(end: &HostEnd) -> bool
    ensures { result ≡ is_of_events end.now.kind }
{
    matches!(end.kind, Kind::Event)
}

// Gives the endpoint of this number its starting value, if it is a parameter.
fn start_one<T: Teller>(player: &mut Player, number: u32, saved: &[Saved], teller: &mut T) -> Came
    requires live { player.old.live ≡ true }
    requires lawful { IsLawful (ends_of player.old.of.section) }
    requires saved { AreSaved (ends_of player.old.of.section) saved.now }
    requires there { number < length (ends_of player.old.of.section) }
    ensures comes { let ends = ends_of player.old.of.section in IfSome (slice_get ends number) (λ end. ComesOf T.tells player.old (start_tasks_of end number end.parameter saved.now (inputs_at ends [] 0)) teller.old result player.new teller.new) }
    ensures same { IsSame player.old player.new }
    ensures live { result ≡ CameEnded → player.new.live ≡ true }
{
    let end = &player.slots().host().as_slice()[number as usize];
    let range = match end.parameter {
        Some(range) => range,
        None => return Came::Ended,
    };
    let value = start_value(end, range, saved);
    if is_event(end) {
        return player.send_start(number, value, teller);
    }
    player.set(number, &[value]);
    Came::Ended
}

// Gives each parameter its starting value, in declaration order.
fn start_all<T: Teller>(player: &mut Player, saved: &[Saved], teller: &mut T) -> Came
    requires live { player.old.live ≡ true }
    requires lawful { IsLawful (ends_of player.old.of.section) }
    requires saved { AreSaved (ends_of player.old.of.section) saved.now }
    ensures comes { let ends = ends_of player.old.of.section in ComesOf T.tells player.old (start_tasks ends 0 saved.now (inputs_at ends [] 0)) teller.old result player.new teller.new }
    ensures same { IsSame player.old player.new }
    ensures live { result ≡ CameEnded → player.new.live ≡ true }
{
    let count = player.slots().host().len();
    for number in 0..count {
        let came = start_one(player, number as u32, saved, teller);
        if !has_ended(came) {
            return came;
        }
    }
    Came::Ended
}

/// Plays the whole run of a script from before `init` on. It takes no memory.
pub fn play_whole<T: Teller>(
    player: &mut Player,
    saved: &[Saved],
    script: &Script,
    teller: &mut T,
) -> Came
    requires live { player.old.live ≡ true }
    requires lawful { IsLawful (ends_of player.old.of.section) }
    requires saved { AreSaved (ends_of player.old.of.section) saved.now }
    requires script { IsScriptFor (ends_of player.old.of.section) script.now }
    ensures comes { ComesTo T.tells player.old (tasks_of (ends_of player.old.of.section) saved.now script.now script.now.frames) [] teller.old result player.new teller.new }
    ensures same { IsSame player.old player.new }
    ensures live { result ≡ CameEnded → player.new.live ≡ true }
{
    let came = player.init(teller);
    if !has_ended(came) {
        return came;
    }
    let came = start_all(player, saved, teller);
    if !has_ended(came) {
        return came;
    }
    play_script(player, script, teller)
}

/// Plays a module: `init`, the starting values of its parameters, which are those that are saved under their names or else
/// those of their ranges, and the frames of the script, with at most `steps` reductions for each part. Each item of the
/// trace is told as it comes, until the run ends, a part doesn't, or the teller stops it. All memory is taken before the
/// first call.
///
/// # Errors
///
/// `NoMemory` where that memory can't be had; then nothing is told.
pub fn play<T: Teller>(
    alloc: Global,
    valid: Valid,
    saved: &SavedList,
    script: &Script,
    steps: u64,
    teller: &mut T,
) -> Result<Came, NoMemory>
    requires saved { AreSaved (ends_of valid.section) saved.now }
    requires script { IsScriptFor (ends_of valid.section) script.now }
    ensures { MatchResult result (λ came. IsPlayed T.tells valid saved.now script.now steps teller.old came teller.new) (λ _. teller.new ≡ teller.old) }
{
    let _lawful = valid.host();
    let mut player = Player::new(alloc, valid, steps)?;
    Ok(play_whole(&mut player, saved.as_slice(), script, teller))
}
