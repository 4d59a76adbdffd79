ghost use Rattle.std.specs.Prelude.{◌≡◌, ◌<◌, ◌∷◌, [], length, flat_map, slice_get, slice_index_or, IfOk, Some};
ghost use Rattle.cm_meaning.specs.Scopes.{in_space, constant, declared, decl_names, opened, shared_names, within};
ghost use Rattle.name_scopes.specs.Members.{Adds, is_below, file_names, init_names, named_in};

use crate::members::Members;
use crate::named::{Member, Named};
use cm_base::Fail;
use cm_tree::{Decl, File, Init, Path, Shared, Word};
use std::alloc::Global;

/// Adds a declaration of a namespace.
fn add_word<'a>(
    alloc: Global,
    members: &mut Members<'a>,
    space: usize,
    word: &'a Word,
    named: Named<'a>,
) -> Result<(), Fail>
    requires space { space < length members.old.spaces }
    requires part { is_below (length members.old.spaces) named }
    ensures { Adds members.old (declared (in_space (slice_index_or members.old.spaces space [])) word.now (named_in members.old.spaces named.entry) ∷ []) result members.new }
{
    members.declare(
        alloc,
        Member {
            space,
            place: word.place,
            text: word.text.as_str(),
            named,
        },
    )
}

fn add_init<'a>(
    alloc: Global,
    members: &mut Members<'a>,
    space: usize,
    init: &'a Init,
) -> Result<(), Fail>
    requires { space < length members.old.spaces }
    ensures { Adds members.old (constant (in_space (slice_index_or members.old.spaces space [])) init.now ∷ []) result members.new }
{
    add_word(
        alloc,
        members,
        space,
        &init.name,
        Named::Constant(&init.value),
    )
}

fn add_inits<'a>(
    alloc: Global,
    members: &mut Members<'a>,
    space: usize,
    inits: &'a [Init],
) -> Result<(), Fail>
    requires { space < length members.old.spaces }
    ensures { Adds members.old (flat_map (init_names (slice_index_or members.old.spaces space [])) inits.now) result members.new }
{
    for init in inits {
        add_init(alloc, members, space, init)?;
    }
    Ok(())
}

fn add_shared<'a>(
    alloc: Global,
    members: &mut Members<'a>,
    space: usize,
    shared: &'a Shared,
) -> Result<(), Fail>
    requires { space < length members.old.spaces }
    ensures { Adds members.old (shared_names (in_space (slice_index_or members.old.spaces space [])) shared.now) result members.new }
{
    match shared {
        Shared::Struct(place, name, fields) => add_word(
            alloc,
            members,
            space,
            name,
            Named::Struct(*place, fields.as_slice()),
        ),
        Shared::Using(_, name, ty) => add_word(alloc, members, space, name, Named::Using(ty)),
        Shared::Let(_, inits) => add_inits(alloc, members, space, inits.as_slice()),
        Shared::Assert(_) => Ok(()),
    }
}

/// Adds a part of each namespace of a path, each in the one before it, and answers the number of the last.
fn add_path<'a>(
    alloc: Global,
    members: &mut Members<'a>,
    space: usize,
    path: &'a Path,
) -> Result<usize, Fail>
    requires { space < length members.old.spaces }
    ensures adds { Adds members.old (opened (slice_index_or members.old.spaces space []) path.now.place path.now.names) result members.new }
    ensures number { IfOk result (λ n. slice_get members.new.spaces n ≡ Some (within (slice_index_or members.old.spaces space []) path.now.names)) }
    ensures below { IfOk result (λ n. n < length members.new.spaces) }
{
    let mut inner = space;
    for name in path.names.as_slice() {
        inner = members.open(alloc, inner, path.place, name.as_str())?;
    }
    Ok(inner)
}

#[cycle(decls)]
fn add_decl<'a>(
    alloc: Global,
    members: &mut Members<'a>,
    space: usize,
    decl: &'a Decl,
) -> Result<(), Fail>
    requires { space < length members.old.spaces }
    ensures { Adds members.old (decl_names (slice_index_or members.old.spaces space []) decl.now) result members.new }
{
    match decl {
        Decl::Namespace(_, path, decls) => {
            let inner = add_path(alloc, members, space, path)?;
            add_decls(alloc, members, inner, decls.as_slice())
        }
        Decl::Processor(unit) => add_word(
            alloc,
            members,
            space,
            &unit.name,
            Named::Processor(unit),
        ),
        Decl::Graph(unit) => add_word(alloc, members, space, &unit.name, Named::Graph(unit)),
        Decl::Shared(shared) => add_shared(alloc, members, space, shared),
        Decl::Function(function) => add_word(
            alloc,
            members,
            space,
            &function.name,
            Named::Function(function),
        ),
    }
}

#[cycle(decls)]
fn add_decls<'a>(
    alloc: Global,
    members: &mut Members<'a>,
    space: usize,
    decls: &'a [Decl],
) -> Result<(), Fail>
    requires { space < length members.old.spaces }
    ensures { Adds members.old (flat_map (decl_names (slice_index_or members.old.spaces space [])) decls.now) result members.new }
{
    for decl in decls {
        add_decl(alloc, members, space, decl)?;
    }
    Ok(())
}

fn add_file<'a>(alloc: Global, members: &mut Members<'a>, file: &'a File) -> Result<(), Fail>
    requires { 0 < length members.old.spaces }
    ensures { Adds members.old (file_names (slice_index_or members.old.spaces 0 []) file.now) result members.new }
{
    add_decls(alloc, members, 0, file.decls.as_slice())
}

/// Adds all declarations of namespaces, in the order of the files and of the text.
pub fn add_files<'a>(
    alloc: Global,
    members: &mut Members<'a>,
    files: &'a [File],
) -> Result<(), Fail>
    requires { 0 < length members.old.spaces }
    ensures { Adds members.old (flat_map (file_names (slice_index_or members.old.spaces 0 [])) files.now) result members.new }
{
    for file in files {
        add_file(alloc, members, file)?;
    }
    Ok(())
}
