//! Declarations of namespaces, files and patches.
ghost use Rattle.std.specs.Prelude.{◌≡◌, ℕ, [], ◌++◌, List, flat_map, map, IfOk, OnOk};
ghost use Rattle.cm_meaning.specs.PatchSites.{decl_sites, patch_sites};
ghost use Rattle.cm_meaning.specs.Scopes.{patch_names, within};
ghost use Rattle.declaration_walk.specs.Declares.{file_sites};
ghost use Rattle.scope_walk.specs.Steps.{EntersSpace, LeavesSpace, Passes, outside, sites_by};

use crate::functions::walk_function;
use crate::shared::walk_shared;
use crate::units::walk_unit;
use cm_base::Name;
use cm_tree::{Decl, File, Path};
use scope_walk::{Steps, UnitKind};
use std::alloc::{AllocError, Global};

// The namespaces of a path, each in the one before it.
fn enter_spaces<'a>(steps: &mut Steps<'a>, names: &'a [Name]) -> Result<(), AllocError>
    ensures { OnOk result (steps.new ≡ steps.old ++ map EntersSpace names.now) }
{
    for name in names {
        steps.enter_space(name)?;
    }
    Ok(())
}

fn leave_spaces(steps: &mut Steps<'_>, names: &[Name]) -> Result<(), AllocError>
    ensures { OnOk result (steps.new ≡ steps.old ++ map (λ (n : List ℕ). LeavesSpace) names.now) }
{
    for _name in names {
        steps.leave_space()?;
    }
    Ok(())
}

#[cycle(decls)]
fn walk_decl<'a>(steps: &mut Steps<'a>, decl: &'a Decl) -> Result<(), AllocError>
    ensures { OnOk result (Passes steps.old steps.new (λ all space. decl_sites all space decl.now)) }
{
    match decl {
        Decl::Namespace(_, path, decls) => walk_namespace(steps, path, decls.as_slice()),
        Decl::Processor(unit) => walk_unit(steps, UnitKind::Processor, unit),
        Decl::Graph(unit) => walk_unit(steps, UnitKind::Graph, unit),
        Decl::Shared(shared) => walk_shared(steps, shared),
        Decl::Function(function) => walk_function(steps, function),
    }
}

#[cycle(decls)]
fn walk_namespace<'a>(
    steps: &mut Steps<'a>,
    path: &'a Path,
    decls: &'a [Decl],
) -> Result<(), AllocError>
    ensures { OnOk result (Passes steps.old steps.new (λ all space. flat_map (decl_sites all (within space path.now.names)) decls.now)) }
{
    enter_spaces(steps, path.names.as_slice())?;
    walk_decls(steps, decls)?;
    leave_spaces(steps, path.names.as_slice())
}

/// The steps of declarations of a namespace, one after the other.
#[cycle(decls)]
pub fn walk_decls<'a>(steps: &mut Steps<'a>, decls: &'a [Decl]) -> Result<(), AllocError>
    ensures { OnOk result (Passes steps.old steps.new (λ all space. flat_map (decl_sites all space) decls.now)) }
{
    for decl in decls {
        walk_decl(steps, decl)?;
    }
    Ok(())
}

fn walk_file<'a>(steps: &mut Steps<'a>, file: &'a File) -> Result<(), AllocError>
    ensures { OnOk result (Passes steps.old steps.new (λ all space. file_sites all space file.now)) }
{
    walk_decls(steps, file.decls.as_slice())
}

fn walk_files<'a>(steps: &mut Steps<'a>, files: &'a [File]) -> Result<(), AllocError>
    ensures { OnOk result (Passes steps.old steps.new (λ all space. flat_map (file_sites all space) files.now)) }
{
    for file in files {
        walk_file(steps, file)?;
    }
    Ok(())
}

/// The steps of a whole patch. Going along them from outside of all declarations comes to all sites of the patch, in the order of
/// the files and of the text.
pub fn walk_patch<'a>(alloc: Global, files: &'a [File]) -> Result<Steps<'a>, AllocError>
    ensures { IfOk result (λ steps. sites_by (outside (patch_names files.now) []) steps ≡ patch_sites files.now) }
{
    let mut steps = Steps::new(alloc);
    walk_files(&mut steps, files)?;
    Ok(steps)
}
