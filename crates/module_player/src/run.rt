// The run of a script, frame by frame.

ghost use Rattle.std.specs.Prelude.{ℕ, ◌≡◌, ◌<◌, ◌≤◌, ◌+◌, ◌^◌, ◌++◌, [], ◌∷◌, List, true, drop, map, take, min};
ghost use Rattle.cm_base.specs.HostEnds.{IsLawful};
ghost use Rattle.cm_base.specs.Parts.{Begin, Frame, settings_at, send_task, inputs_at, following, frames_from};
ghost use Rattle.cm_base.specs.Scripts.{IsScriptFor};
ghost use Rattle.wasm_tree.specs.Section.{ends_of, block_length};
ghost use Rattle.module_player.specs.declared.came.Came.TheVariants.{Ended as CameEnded};
ghost use Rattle.module_player.specs.Coming.{frame_list};
ghost use Rattle.module_player.specs.Cursors.{IsPlace, IsCursor, IsBlock, tasks_left, after_settings, next_of};
ghost use Rattle.module_player.specs.Given.{inputs_from};
ghost use Rattle.module_player.specs.Playing.{ComesTo, ComesOf, IsSame};

use crate::came::Came;
use crate::player::{Player, has_ended};
use crate::teller::Teller;
use cm_base::{Script, Setting};

/// Where a run is in its script: the frame, and the places of the first value and of the first event that aren't before it.
#[derive(Drop)]
pub struct Cursor {
    pub frame: u32,
    pub value: usize,
    pub event: usize,
}

// Sets the values of a frame, and says where the later ones stand.
fn set_values(player: &mut Player, script: &Script, place: usize, frame: u32) -> usize
    requires script { IsScriptFor (ends_of player.old.of.section) script.now }
    requires place { IsPlace script.now.values frame place }
    ensures set { player.new ≡ record player.old { current = after_settings (settings_at frame script.now.values) player.old.current } }
    ensures place { IsPlace script.now.values (frame + 1) result }
{
    let values = script.values.as_slice();
    for at in place..values.len() {
        let setting = &values[at];
        if setting.frame != frame {
            return at;
        }
        player.set(setting.endpoint, setting.value.as_slice());
    }
    values.len()
}

// Delivers the events of a frame.
fn send_events<T: Teller>(
    player: &mut Player,
    script: &Script,
    cursor: &mut Cursor,
    teller: &mut T,
) -> Came
    requires live { player.old.live ≡ true }
    requires lawful { IsLawful (ends_of player.old.of.section) }
    requires script { IsScriptFor (ends_of player.old.of.section) script.now }
    requires place { IsPlace script.now.events cursor.old.frame cursor.old.event }
    ensures comes { let ends = ends_of player.old.of.section in ComesOf T.tells player.old (map (send_task cursor.old.frame (inputs_at ends script.now.streams cursor.old.frame)) (settings_at cursor.old.frame script.now.events)) teller.old result player.new teller.new }
    ensures same { IsSame player.old player.new }
    ensures live { result ≡ CameEnded → player.new.live ≡ true }
    ensures frame { cursor.new.frame ≡ cursor.old.frame }
    ensures value { cursor.new.value ≡ cursor.old.value }
    ensures place { result ≡ CameEnded → IsPlace script.now.events (cursor.old.frame + 1) cursor.new.event }
{
    let events = script.events.as_slice();
    let frame = cursor.frame;
    for at in cursor.event..events.len() {
        let event = &events[at];
        if event.frame != frame {
            cursor.event = at;
            return Came::Ended;
        }
        let came = player.send(
            event.endpoint,
            &event.value,
            script.streams.as_slice(),
            frame,
            teller,
        );
        if !has_ended(came) {
            return came;
        }
    }
    cursor.event = events.len();
    Came::Ended
}

// The frame of the setting at this place, or else the frame after the last one.
fn next_frame(settings: &[Setting], place: usize, frames: u32) -> u32
    ensures { result ≡ next_of frames (drop place settings.now) }
{
    match settings.get(place) {
        Some(setting) => setting.frame,
        None => frames,
    }
}

// How many frames go on with nothing set or sent between, up to the length of a block.
fn block_count(block: u32, script: &Script, cursor: &Cursor) -> u32
    requires block { 1 ≤ block }
    requires frame { cursor.now.frame < script.now.frames }
    requires values { IsPlace script.now.values (cursor.now.frame + 1) cursor.now.value }
    requires events { IsPlace script.now.events (cursor.now.frame + 1) cursor.now.event }
    ensures some { 0 < result }
    ensures few { result ≤ block }
    ensures counted { cursor.now.frame + result ≡ min (cursor.now.frame + block) (min script.now.frames (min (next_of script.now.frames (drop cursor.now.value script.now.values)) (next_of script.now.frames (drop cursor.now.event script.now.events)))) }
{
    let value = next_frame(script.values.as_slice(), cursor.value, script.frames);
    let event = next_frame(script.events.as_slice(), cursor.event, script.frames);
    let end = script.frames.min(value.min(event));
    block.min(end - cursor.frame)
}

// Plays frames with nothing between, in one call or, with interface 1, one frame.
fn play_frames<T: Teller>(
    player: &mut Player,
    script: &Script,
    frame: u32,
    count: u32,
    teller: &mut T,
) -> Came
    requires live { player.old.live ≡ true }
    requires lawful { IsLawful (ends_of player.old.of.section) }
    requires script { IsScriptFor (ends_of player.old.of.section) script.now }
    requires block { IsBlock (ends_of player.old.of.section) script.now (block_length player.old.of.section.interface) frame count }
    requires frames { frame + count < 2 ^ 32 }
    ensures comes { let ends = ends_of player.old.of.section in ComesTo T.tells player.old (frame_list frame (inputs_from ends script.now.streams frame count) ++ tasks_left ends script.now (frame + count)) (tasks_left ends script.now (frame + count)) teller.old result player.new teller.new }
    ensures same { IsSame player.old player.new }
    ensures live { result ≡ CameEnded → player.new.live ≡ true }
{
    let streams = script.streams.as_slice();
    if player.interface() == 1 {
        return player.single_frame(streams, frame, teller);
    }
    player.block_frames(streams, frame, count, teller)
}

// Plays the frame of the cursor, whose values are set and whose events are delivered, and those that go on with nothing between.
fn play_next<T: Teller>(
    player: &mut Player,
    script: &Script,
    cursor: &mut Cursor,
    teller: &mut T,
) -> Came
    requires live { player.old.live ≡ true }
    requires lawful { IsLawful (ends_of player.old.of.section) }
    requires script { IsScriptFor (ends_of player.old.of.section) script.now }
    requires frame { cursor.old.frame < script.now.frames }
    requires values { IsPlace script.now.values (cursor.old.frame + 1) cursor.old.value }
    requires events { IsPlace script.now.events (cursor.old.frame + 1) cursor.old.event }
    ensures comes { let ends = ends_of player.old.of.section in ComesTo T.tells player.old (Begin (Frame cursor.old.frame (inputs_at ends script.now.streams cursor.old.frame)) ∷ tasks_left ends script.now (cursor.old.frame + 1)) (tasks_left ends script.now cursor.new.frame) teller.old result player.new teller.new }
    ensures same { IsSame player.old player.new }
    ensures live { result ≡ CameEnded → player.new.live ≡ true }
    ensures cursor { IsCursor script.now cursor.new }
    ensures further { cursor.old.frame < cursor.new.frame }
{
    let block = player.block();
    let count = block_count(block, script, cursor);
    let frame = cursor.frame;
    let _last = script.frames;
    cursor.frame = frame + count;
    play_frames(player, script, frame, count, teller)
}

// Plays the frame of the cursor and those that go on with nothing between: first its values are set, then its events are
// delivered.
fn play_step<T: Teller>(
    player: &mut Player,
    script: &Script,
    cursor: &mut Cursor,
    teller: &mut T,
) -> Came
    requires live { player.old.live ≡ true }
    requires lawful { IsLawful (ends_of player.old.of.section) }
    requires script { IsScriptFor (ends_of player.old.of.section) script.now }
    requires frame { cursor.old.frame < script.now.frames }
    requires cursor { IsCursor script.now cursor.old }
    ensures comes { let ends = ends_of player.old.of.section in ComesTo T.tells player.old (tasks_left ends script.now cursor.old.frame) (tasks_left ends script.now cursor.new.frame) teller.old result player.new teller.new }
    ensures same { IsSame player.old player.new }
    ensures live { result ≡ CameEnded → player.new.live ≡ true }
    ensures cursor { result ≡ CameEnded → IsCursor script.now cursor.new }
    ensures further { result ≡ CameEnded → cursor.old.frame < cursor.new.frame }
{
    cursor.value = set_values(player, script, cursor.value, cursor.frame);
    let came = send_events(player, script, cursor, teller);
    if !has_ended(came) {
        return came;
    }
    play_next(player, script, cursor, teller)
}

/// Plays the frames of a script, each with what is set and sent before it. It takes no memory.
pub fn play_script<T: Teller>(player: &mut Player, script: &Script, teller: &mut T) -> Came
    requires live { player.old.live ≡ true }
    requires lawful { IsLawful (ends_of player.old.of.section) }
    requires script { IsScriptFor (ends_of player.old.of.section) script.now }
    ensures comes { ComesTo T.tells player.old (frames_from (ends_of player.old.of.section) script.now 0 script.now.frames) [] teller.old result player.new teller.new }
    ensures same { IsSame player.old player.new }
    ensures live { result ≡ CameEnded → player.new.live ≡ true }
{
    let mut cursor = Cursor {
        frame: 0,
        value: 0,
        event: 0,
    };
    while cursor.frame < script.frames {
        let came = play_step(player, script, &mut cursor, teller);
        if !has_ended(came) {
            return came;
        }
    }
    Came::Ended
}
