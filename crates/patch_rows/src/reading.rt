//! How the text of a patch is read here.
#![tactic(auto, unfolding(crate::specs::Told::told))]

ghost use Rattle.std.specs.Prelude.{◌≡◌, None, codes};
ghost use Rattle.patch_rows.specs.Told.{silence, told, io};
ghost use Rattle.patch_rows.specs.Readings.{TokensAreRead, FileIsRead};

/// The tokens that are computed for a text in UTF-8 are the tokens of that file, with their places.
pub fn tokens_are_read()
    ensures { TokensAreRead }
{}

/// The declarations that are computed for a text are those that its tokens spell, in a tree of a height of 256 at most.
pub fn file_is_read()
    ensures { FileIsRead }
{}

/// A text that is no file, or in which a name is unknown or a type doesn't fit, has no run here.
pub fn wrong_texts_have_no_run()
    ensures no_file { told (io (codes "out <- 1; advance()")) (silence 1) 1000 ≡ None }
    ensures no_name { told (io (codes "out <- x; advance();")) (silence 1) 1000 ≡ None }
    ensures no_sum { told (io (codes "out <- true + 1; advance();")) (silence 1) 1000 ≡ None }
{}
