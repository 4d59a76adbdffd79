ghost use Rattle.std.specs.Prelude.{◌≡◌, ◌<◌, ◌++◌, List, ℕ, Option, length, option_and_then, slice_index_or};
ghost use Rattle.cm_meaning.specs.Declared.{Declared};
ghost use Rattle.cm_meaning.specs.Scopes.{find, find_inner, onward, outward, space_scopes};
ghost use Rattle.name_scopes.specs.Members.{IsNumberOf, names_of};
ghost use Rattle.scope_walk.specs.Steps.{Stand, round};
ghost use Rattle.path_names.specs.Found.{Found};
ghost use Rattle.path_names.specs.Ids.{StandsFor};
ghost use Rattle.path_names.specs.Walking.{AreScopes, HoldNoNames, IsAt, IsReady};

use crate::id::DeclId;
use crate::walk::Walk;
use cm_base::Name;
use cm_tree::Path;
use name_scopes::{Members, Names, Table};

// The number of what a name stands for in scopes, the innermost first.
fn find_local(names: &Names<'_>, table: &Table, text: &str) -> Option<usize>
    requires { table.now.names ≡ length names.now }
    ensures { (locals : List Declared) (scopes : List (List Declared)) → AreScopes names.now locals table.now.scopes scopes → IsNumberOf locals result (outward text.now scopes) }
{
    match names.find(text) {
        None => None,
        Some(name) => table.find(name),
    }
}

/// What a name stands for where a walk is: what it is in the innermost scope that has it, up to that of the whole patch.
pub fn find_first<'a>(walk: &Walk<'a>, text: &'a str) -> Option<DeclId>
    requires { IsReady walk.now }
    ensures { (s : Stand) (xs : List Declared) (found : List Found) → IsAt walk.now s xs found → StandsFor s.all xs result (outward text.now (round s).scopes) }
{
    match find_local(&walk.names, &walk.table, text) {
        Some(local) => Some(DeclId::Local(local)),
        None => match walk.known.find_outward(walk.space, text) {
            Some(member) => Some(DeclId::Member(member)),
            None => None,
        },
    }
}

// What a name stands for in what was found: only a namespace has names.
fn find_next<'a>(known: &Members<'a>, found: Option<DeclId>, text: &'a str) -> Option<DeclId>
    ensures { (locals : List Declared) (x : Option Declared) → HoldNoNames locals → StandsFor (names_of known.now) locals found x → StandsFor (names_of known.now) locals result (option_and_then (λ (x : Declared). find_inner (names_of known.now) text.now x.named) x) }
{
    match found {
        None => None,
        Some(DeclId::Local(_)) => None,
        Some(DeclId::Member(number)) => match known.find_inner(number, text) {
            Some(member) => Some(DeclId::Member(member)),
            None => None,
        },
    }
}

// What the further names of a path stand for, each in what the one before it stands for.
fn find_onward<'a>(known: &Members<'a>, first: Option<DeclId>, names: &'a [Name]) -> Option<DeclId>
    ensures { (locals : List Declared) (x : Option Declared) → HoldNoNames locals → StandsFor (names_of known.now) locals first x → StandsFor (names_of known.now) locals result (onward (names_of known.now) x names.now) }
{
    let mut found = first;
    for name in names {
        found = find_next(known, found, name.as_str());
    }
    found
}

/// What a path stands for where a walk is.
pub fn find_path<'a>(walk: &Walk<'a>, path: &'a Path) -> Option<DeclId>
    requires { IsReady walk.now }
    ensures { (s : Stand) (xs : List Declared) (found : List Found) → IsAt walk.now s xs found → StandsFor s.all xs result (find (round s) path.now) }
{
    match path.names.as_slice().split_first() {
        None => None,
        Some((name, further)) => {
            let first = find_first(walk, name.as_str());
            find_onward(&walk.known, first, further)
        }
    }
}
