//! Nodes and connections.
ghost use Rattle.std.specs.Prelude.{◌++◌, flat_map, OnOk};
ghost use Rattle.cm_meaning.specs.PatchSites.{given_all, given_sites, link_sites, node_sites, point_sites, takes};
ghost use Rattle.cm_meaning.specs.Sites.{base_sites, expr_sites, optional_sites};
ghost use Rattle.declaration_walk.specs.Declares.{arg_sites, value_sites};
ghost use Rattle.scope_walk.specs.Steps.{Reads};

use cm_tree::{Arg, Base, Expr, Link, Node, Path, Point};
use scope_walk::{Part, Steps, name_alone, walk_base, walk_expr, walk_exprs, walk_optional};
use std::alloc::AllocError;

fn walk_sized<'a>(
    steps: &mut Steps<'a>,
    base: &'a Base,
    sizes: &'a [Expr],
) -> Result<(), AllocError>
    ensures { OnOk result (Reads steps.old steps.new (λ r. base_sites r base.now ++ flat_map (expr_sites r) sizes.now)) }
{
    walk_base(steps, base)?;
    walk_exprs(steps, sizes)
}

// A path alone has no steps here: it is judged as an argument.
fn walk_given_value<'a>(steps: &mut Steps<'a>, value: &'a Expr) -> Result<(), AllocError>
    ensures { OnOk result (Reads steps.old steps.new (λ r. value_sites r value.now)) }
{
    match name_alone(value) {
        Some(_) => Ok(()),
        None => walk_expr(steps, value),
    }
}

fn walk_given<'a>(steps: &mut Steps<'a>, arg: &'a Arg) -> Result<(), AllocError>
    ensures { OnOk result (Reads steps.old steps.new (λ r. given_sites r arg.now)) }
{
    match arg {
        Arg::Type(base, sizes) => walk_sized(steps, base, sizes.as_slice()),
        Arg::Value(value) => walk_given_value(steps, value),
    }
}

// An argument of a node of this path, by its position.
fn walk_arg<'a>(
    steps: &mut Steps<'a>,
    path: &'a Path,
    position: usize,
    arg: &'a Arg,
) -> Result<(), AllocError>
    ensures { OnOk result (Reads steps.old steps.new (λ r. arg_sites path.now position r arg.now)) }
{
    steps.meet_given(path, position, arg)?;
    walk_given(steps, arg)
}

fn walk_args<'a>(steps: &mut Steps<'a>, path: &'a Path, args: &'a [Arg]) -> Result<(), AllocError>
    ensures { OnOk result (Reads steps.old steps.new (λ r. given_all r (takes r path.now) args.now)) }
{
    for index in 0..args.len() {
        walk_arg(steps, path, index, &args[index])?;
    }
    Ok(())
}

// How many a node stands for, and its factor.
fn walk_counts<'a>(
    steps: &mut Steps<'a>,
    count: &'a Option<Expr>,
    factor: &'a Option<Expr>,
) -> Result<(), AllocError>
    ensures { OnOk result (Reads steps.old steps.new (λ r. optional_sites r count.now ++ optional_sites r factor.now)) }
{
    walk_optional(steps, count)?;
    walk_optional(steps, factor)
}

/// The steps of a node.
pub fn walk_node<'a>(steps: &mut Steps<'a>, node: &'a Node) -> Result<(), AllocError>
    ensures { OnOk result (Reads steps.old steps.new (λ r. node_sites r node.now)) }
{
    steps.meet(Part::DeclaresNode(node))?;
    walk_args(steps, &node.path, node.args.as_slice())?;
    walk_counts(steps, &node.count, &node.factor)
}

/// The steps of nodes one after the other.
pub fn walk_nodes<'a>(steps: &mut Steps<'a>, nodes: &'a [Node]) -> Result<(), AllocError>
    ensures { OnOk result (Reads steps.old steps.new (λ r. flat_map (node_sites r) nodes.now)) }
{
    for node in nodes {
        walk_node(steps, node)?;
    }
    Ok(())
}

fn walk_point<'a>(steps: &mut Steps<'a>, point: &'a Point) -> Result<(), AllocError>
    ensures { OnOk result (Reads steps.old steps.new (λ r. point_sites r point.now)) }
{
    steps.meet(Part::Joins(point))?;
    walk_optional(steps, &point.index)
}

/// The steps of a connection.
pub fn walk_link<'a>(steps: &mut Steps<'a>, link: &'a Link) -> Result<(), AllocError>
    ensures { OnOk result (Reads steps.old steps.new (λ r. link_sites r link.now)) }
{
    walk_point(steps, &link.from)?;
    walk_optional(steps, &link.delay)?;
    walk_point(steps, &link.to)
}

/// The steps of connections one after the other.
pub fn walk_links<'a>(steps: &mut Steps<'a>, links: &'a [Link]) -> Result<(), AllocError>
    ensures { OnOk result (Reads steps.old steps.new (λ r. flat_map (link_sites r) links.now)) }
{
    for link in links {
        walk_link(steps, link)?;
    }
    Ok(())
}
