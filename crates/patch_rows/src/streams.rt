//! Streams of one processor, whose `main` is suspended.
#![tactic(auto, unfolding(crate::specs::Told::told, crate::specs::Told::told_from))]

ghost use Rattle.std.specs.Prelude.{◌≡◌, pos, negsuc, [], ◌∷◌, codes};
ghost use Rattle.cm_base.specs.declared.play.Item.TheVariants as item;
ghost use Rattle.patch_rows.specs.Told.{input, silence, ended, frames, lines, told, io};

/// What comes in goes out in the same frame.
pub fn input_is_copied()
    ensures { told (io (codes "loop { out <- in; advance(); }")) (input (pos 1 ∷ pos 2 ∷ pos 3 ∷ [])) 1000
        ≡ ended (frames (pos 1 ∷ pos 2 ∷ pos 3 ∷ [])) }
{}

/// Over no frames nothing is told.
pub fn no_frame()
    ensures { told (io (codes "loop { out <- in; advance(); }")) (silence 0) 1000 ≡ ended [] }
{}

/// Writes to a stream in one frame add up, and the sum wraps. With the last write alone it would be 2147483647.
pub fn writes_add_up()
    ensures { told (io (codes "loop { out <- in; out <- 2147483647; advance(); }")) (input (pos 1 ∷ [])) 1000
        ≡ ended (frames (negsuc 2147483647 ∷ [])) }
{}

/// The writes of an array add up scalar by scalar.
pub fn scalars_add_up()
    ensures { told (lines (
        codes "processor P [[main]] { output stream int[2] out; void main() { out <- int[2](1, 2); out <- int[2](10, 20);"
        ∷ codes "advance(); } }"
        ∷ [])) (silence 1) 1000
        ≡ ended (item.Frame 0 (pos 11 ∷ pos 22 ∷ []) ∷ []) }
{}

/// A count goes on after an `advance`, and what follows the inner loop is done. If the count began again at each frame, or if
/// the statements behind the loop were dropped where it pauses, there would be no 5.
pub fn count_goes_on()
    ensures { told (io (codes "loop { loop (2) { out <- 1; advance(); } out <- 5; advance(); }")) (silence 6) 1000
        ≡ ended (frames (pos 1 ∷ pos 1 ∷ pos 5 ∷ pos 1 ∷ pos 1 ∷ pos 5 ∷ [])) }
{}

/// A `main` that returned writes nothing.
pub fn main_returns()
    ensures { told (io (codes "out <- 7; advance();")) (silence 3) 1000 ≡ ended (frames (pos 7 ∷ pos 0 ∷ pos 0 ∷ [])) }
{}
