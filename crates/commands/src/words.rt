//! The words of a command line.

ghost use Rattle.std.specs.Prelude.{◌≡◌, ◌≤◌, ◌∷◌, map, string_bytes, IfSome};
ghost use Rattle.std.specs.Option.{option_map};
ghost use Rattle.commands.specs.Words.{GivesTurns, Render, Play, Resume, command_of, command_running, compile_of, last_file, play_of, render_of, resume_of, meaning, most_steps, most_turns, name_of, next_number as the_next, number_behind, number_within};

use cm_base::limits::{STEPS, TURNS};

/// What the words ask for.
#[derive(Clone, Copy, Debug)]
pub enum Command<'a> {
    /// Compile the patch of a manifest, and write its module to a file.
    Compile {
        /// The manifest's name.
        manifest: &'a str,
        /// The name of the file to write.
        out: &'a str,
    },
    /// Compile the patch of a manifest, and run it over an input script.
    Render {
        /// The manifest's name.
        manifest: &'a str,
        /// The script's name.
        input: &'a str,
        /// How many turns each part of the run is given.
        turns: u64,
        /// The name of the state file with whose parameters the run begins.
        state: Option<&'a str>,
    },
    /// Play a module over an input script.
    Play {
        /// The name of the module's file.
        wasm: &'a str,
        /// The script's name.
        input: &'a str,
        /// How many reductions each part of the run is given.
        steps: u64,
    },
    /// Go on with a stopped run over an input script.
    Resume {
        /// The name of the state file.
        state: &'a str,
        /// The script's name.
        input: &'a str,
        /// How many reductions each part of the run is given.
        steps: u64,
        /// The name of the file to which the state that the run comes to is written.
        new: Option<&'a str>,
    },
}

/// The command that the words are.
pub fn read_words(words: &[String]) -> Option<Command<'_>>
    ensures meant { option_map meaning result ≡ command_of (map string_bytes words.now) }
    ensures turns { IfSome result GivesTurns }
{
    let (name, words) = words.split_first()?;
    if name.as_str() == "compile" {
        return read_compile(words);
    }
    if name.as_str() == "render" {
        return read_render(words);
    }
    if name.as_str() == "play" {
        return read_play(words);
    }
    if name.as_str() == "resume" {
        return read_resume(words);
    }
    None
}

/// The command of these words after `compile`: two names that aren't empty.
fn read_compile(words: &[String]) -> Option<Command<'_>>
    ensures meant { option_map meaning result ≡ compile_of (map string_bytes words.now) }
    ensures turns { IfSome result GivesTurns }
{
    let (manifest, words) = words.split_first()?;
    let (out, words) = words.split_first()?;
    if words.is_empty() && !manifest.is_empty() && !out.is_empty() {
        return Some(Command::Compile {
            manifest: manifest.as_str(),
            out: out.as_str(),
        });
    }
    None
}

/// The command of these words after `render`: two names that aren't empty, a number, and maybe a third name.
fn read_render(words: &[String]) -> Option<Command<'_>>
    ensures meant { option_map meaning result ≡ render_of (map string_bytes words.now) }
    ensures turns { IfSome result GivesTurns }
{
    let (manifest, words) = words.split_first()?;
    let (input, words) = words.split_first()?;
    read_turns(manifest.as_str(), input.as_str(), words)
}

/// The command that renders these files, of the words that follow theirs.
fn read_turns<'a>(manifest: &'a str, input: &'a str, words: &'a [String]) -> Option<Command<'a>>
    ensures meant { option_map meaning result ≡ render_of (manifest.now ∷ input.now ∷ map string_bytes words.now) }
    ensures turns { IfSome result GivesTurns }
{
    let (turns, words) = words.split_first()?;
    let state = read_last(words)?;
    render_command(manifest, input, turns.as_bytes(), state)
}

/// The name of a file that may stand last.
fn read_last(words: &[String]) -> Option<Option<&str>>
    ensures { option_map name_of result ≡ last_file (map string_bytes words.now) }
{
    match words.split_first() {
        Some((name, others)) => {
            if name.is_empty() || !others.is_empty() {
                return None;
            }
            Some(Some(name.as_str()))
        }
        None => Some(None),
    }
}

/// The command that renders these files, where the names aren't empty and the last word is a number of turns.
fn render_command<'a>(
    manifest: &'a str,
    input: &'a str,
    turns: &[u8],
    state: Option<&'a str>,
) -> Option<Command<'a>>
    ensures meant { option_map meaning result ≡ command_running (λ number. Render manifest.now input.now number (name_of state.entry)) most_turns manifest.now input.now turns.now }
    ensures turns { IfSome result GivesTurns }
{
    if manifest.is_empty() || input.is_empty() {
        return None;
    }
    let turns = read_number(turns, TURNS)?;
    Some(Command::Render {
        manifest,
        input,
        turns,
        state,
    })
}

/// The command of these words after `play`: two names that aren't empty, and a number.
fn read_play(words: &[String]) -> Option<Command<'_>>
    ensures meant { option_map meaning result ≡ play_of (map string_bytes words.now) }
    ensures turns { IfSome result GivesTurns }
{
    let (wasm, words) = words.split_first()?;
    let (input, words) = words.split_first()?;
    read_steps(wasm.as_str(), input.as_str(), words)
}

/// The command that plays these files, of the words that follow theirs.
fn read_steps<'a>(wasm: &'a str, input: &'a str, words: &[String]) -> Option<Command<'a>>
    ensures meant { option_map meaning result ≡ play_of (wasm.now ∷ input.now ∷ map string_bytes words.now) }
    ensures turns { IfSome result GivesTurns }
{
    let (steps, words) = words.split_first()?;
    if words.is_empty() {
        return play_command(wasm, input, steps.as_bytes());
    }
    None
}

/// The command that plays these files, where the names aren't empty and the last word is a number of reductions.
fn play_command<'a>(wasm: &'a str, input: &'a str, steps: &[u8]) -> Option<Command<'a>>
    ensures meant { option_map meaning result ≡ command_running (Play wasm.now input.now) most_steps wasm.now input.now steps.now }
    ensures turns { IfSome result GivesTurns }
{
    if wasm.is_empty() || input.is_empty() {
        return None;
    }
    let steps = read_number(steps, STEPS)?;
    Some(Command::Play { wasm, input, steps })
}

/// The command of these words after `resume`: two names that aren't empty, a number, and maybe a third name.
fn read_resume(words: &[String]) -> Option<Command<'_>>
    ensures meant { option_map meaning result ≡ resume_of (map string_bytes words.now) }
    ensures turns { IfSome result GivesTurns }
{
    let (state, words) = words.split_first()?;
    let (input, words) = words.split_first()?;
    read_resumed(state.as_str(), input.as_str(), words)
}

/// The command that goes on with the run of this state over this script, of the words that follow the two.
fn read_resumed<'a>(state: &'a str, input: &'a str, words: &'a [String]) -> Option<Command<'a>>
    ensures meant { option_map meaning result ≡ resume_of (state.now ∷ input.now ∷ map string_bytes words.now) }
    ensures turns { IfSome result GivesTurns }
{
    let (steps, words) = words.split_first()?;
    let new = read_last(words)?;
    resume_command(state, input, steps.as_bytes(), new)
}

/// The command that goes on with the run of this state over this script, where the names aren't empty and the last word is a
/// number of reductions.
fn resume_command<'a>(
    state: &'a str,
    input: &'a str,
    steps: &[u8],
    new: Option<&'a str>,
) -> Option<Command<'a>>
    ensures meant { option_map meaning result ≡ command_running (λ number. Resume state.now input.now number (name_of new.entry)) most_steps state.now input.now steps.now }
    ensures turns { IfSome result GivesTurns }
{
    if state.is_empty() || input.is_empty() {
        return None;
    }
    let steps = read_number(steps, STEPS)?;
    Some(Command::Resume {
        state,
        input,
        steps,
        new,
    })
}

/// The number that a word gives, up to this limit.
fn read_number(word: &[u8], most: u64) -> Option<u64>
    requires { most ≤ most_steps }
    ensures number { result ≡ number_within most word.now }
    ensures within { IfSome result (λ number. number ≤ most) }
{
    if word.is_empty() || word.len() > 20 {
        return None;
    }
    read_digits(word, most)
}

/// The number that decimal digits make, up to this limit.
fn read_digits(digits: &[u8], most: u64) -> Option<u64>
    requires { most ≤ most_steps }
    ensures number { result ≡ number_behind most 0 digits.now }
    ensures within { IfSome result (λ number. number ≤ most) }
{
    let mut number = 0;
    for digit in digits {
        number = next_number(number, *digit, most)?;
    }
    Some(number)
}

/// The number that one more decimal digit makes of a number, up to this limit.
fn next_number(number: u64, digit: u8, most: u64) -> Option<u64>
    requires most { most ≤ most_steps }
    requires number { number ≤ most }
    ensures next { result ≡ the_next most number digit }
    ensures within { IfSome result (λ next. next ≤ most) }
{
    if !digit.is_ascii_digit() {
        return None;
    }
    let next = number * 10 + u64::from(digit - b'0');
    if next > most {
        return None;
    }
    Some(next)
}
