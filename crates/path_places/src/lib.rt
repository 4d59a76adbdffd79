//! Where the paths of a patch stand, and the words that it declares: laws, whose bodies do nothing. Layers that tell uses of names
//! and declarations by their places rest on them.
#![tactic(auto)]

ghost use Rattle.path_places.specs.Apart.{WordsApart};
ghost use Rattle.path_places.specs.Rising.{PathsRise, UsesRise};

/// In a patch whose files were read, numbered from 1 in their order, each path that is looked up stands before all that follow
/// it; and so do the uses that `find_paths` of `path_names` gives.
pub fn paths_rise()
    ensures paths { PathsRise }
    ensures uses { UsesRise }
{}

/// In a patch whose files were read, numbered from 1 in their order, no other declaration has its word at the place of a
/// declaration that is no namespace.
pub fn words_apart()
    ensures { WordsApart }
{}
