ghost use Rattle.std.specs.Prelude.{◌≡◌, map, IfOk};
ghost use Rattle.cm_meaning.specs.PatchSites.{patch_sites};
ghost use Rattle.cm_meaning.specs.Scopes.{patch_names};
ghost use Rattle.path_names.specs.Found.{found_at};
ghost use Rattle.path_names.specs.Ids.{placed, use_as};

use crate::path_names::PathNames;
use declaration_walk::walk_patch;
use name_scopes::Scopes;
use std::alloc::{AllocError, Global};

/// What each path of a patch stands for, in the order of the files and of the text.
pub fn find_paths<'a>(alloc: Global, scopes: Scopes<'a>) -> Result<PathNames<'a>, AllocError>
    ensures members { IfOk result (λ t. t.members ≡ patch_names scopes.entry) }
    ensures uses { IfOk result (λ t. map (use_as t.members t.locals) t.uses ≡ map placed (found_at (patch_sites scopes.entry))) }
{
    let steps = walk_patch(alloc, scopes.files())?;
    PathNames::find_all(alloc, scopes.into_members(), &steps)
}
