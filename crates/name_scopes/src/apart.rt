ghost use Rattle.std.specs.Prelude.{◌≡◌, ◌∷◌, [], List, flat_map};
ghost use Rattle.cm_meaning.specs.Declared.{Space};
ghost use Rattle.cm_meaning.specs.Exact.{IsExactly};
ghost use Rattle.cm_meaning.specs.NameRows.{repeated, words_of};
ghost use Rattle.cm_meaning.specs.Scopes.{unit_names};
ghost use Rattle.name_scopes.specs.Apart.{KeepsApart, word_itself, init_words, var_words, end_name_words, end_words, node_words, shared_words, param_words, member_words, unit_words};

use crate::names::Names;
use cm_base::{Cause, Fail};
use cm_tree::{End, EndName, Init, Member, Node, Param, Shared, UnitDecl, Var, Word};
use std::alloc::Global;

/// Adds a name that has to be new.
fn keep_word<'a>(alloc: Global, names: &mut Names<'a>, word: &'a Word) -> Result<(), Fail>
    ensures { KeepsApart names.old (word_itself word.now) result names.new }
{
    if names.insert(word.text.as_str())? {
        return Ok(());
    }
    Err(Fail::refused(alloc, Cause::DuplicateName, word.place))
}

fn keep_words<'a>(alloc: Global, names: &mut Names<'a>, words: &'a [Word]) -> Result<(), Fail>
    ensures { KeepsApart names.old (flat_map word_itself words.now) result names.new }
{
    for word in words {
        keep_word(alloc, names, word)?;
    }
    Ok(())
}

/// Whether no two of these words have one text: refused by `DuplicateName` at one that stands behind an equal one.
pub fn check_apart(alloc: Global, words: &[Word]) -> Result<(), Fail>
    ensures { IsExactly (repeated [] words.now) result }
{
    let mut names = Names::new(alloc);
    keep_words(alloc, &mut names, words)
}

fn keep_inits<'a>(alloc: Global, names: &mut Names<'a>, inits: &'a [Init]) -> Result<(), Fail>
    ensures { KeepsApart names.old (flat_map init_words inits.now) result names.new }
{
    for init in inits {
        keep_word(alloc, names, &init.name)?;
    }
    Ok(())
}

fn keep_vars<'a>(alloc: Global, names: &mut Names<'a>, vars: &'a [Var]) -> Result<(), Fail>
    ensures { KeepsApart names.old (flat_map var_words vars.now) result names.new }
{
    for var in vars {
        keep_word(alloc, names, &var.name)?;
    }
    Ok(())
}

fn keep_end_names<'a>(alloc: Global, names: &mut Names<'a>, ends: &'a [EndName]) -> Result<(), Fail>
    ensures { KeepsApart names.old (flat_map end_name_words ends.now) result names.new }
{
    for end in ends {
        keep_word(alloc, names, &end.name)?;
    }
    Ok(())
}

fn keep_end<'a>(alloc: Global, names: &mut Names<'a>, end: &'a End) -> Result<(), Fail>
    ensures { KeepsApart names.old (end_words end.now) result names.new }
{
    keep_end_names(alloc, names, end.names.as_slice())
}

fn keep_ends<'a>(alloc: Global, names: &mut Names<'a>, ends: &'a [End]) -> Result<(), Fail>
    ensures { KeepsApart names.old (flat_map end_words ends.now) result names.new }
{
    for end in ends {
        keep_end(alloc, names, end)?;
    }
    Ok(())
}

fn keep_nodes<'a>(alloc: Global, names: &mut Names<'a>, nodes: &'a [Node]) -> Result<(), Fail>
    ensures { KeepsApart names.old (flat_map node_words nodes.now) result names.new }
{
    for node in nodes {
        keep_word(alloc, names, &node.name)?;
    }
    Ok(())
}

fn keep_shared<'a>(alloc: Global, names: &mut Names<'a>, shared: &'a Shared) -> Result<(), Fail>
    ensures { KeepsApart names.old (shared_words shared.now) result names.new }
{
    match shared {
        Shared::Struct(_, name, _) => keep_word(alloc, names, name),
        Shared::Using(_, name, _) => keep_word(alloc, names, name),
        Shared::Let(_, inits) => keep_inits(alloc, names, inits.as_slice()),
        Shared::Assert(_) => Ok(()),
    }
}

fn keep_param<'a>(alloc: Global, names: &mut Names<'a>, param: &'a Param) -> Result<(), Fail>
    ensures { KeepsApart names.old (param_words param.now) result names.new }
{
    match param {
        Param::Type(_, name) => keep_word(alloc, names, name),
        Param::Value(_, name) => keep_word(alloc, names, name),
    }
}

fn keep_params<'a>(alloc: Global, names: &mut Names<'a>, params: &'a [Param]) -> Result<(), Fail>
    ensures { KeepsApart names.old (flat_map param_words params.now) result names.new }
{
    for param in params {
        keep_param(alloc, names, param)?;
    }
    Ok(())
}

fn keep_member<'a>(alloc: Global, names: &mut Names<'a>, member: &'a Member) -> Result<(), Fail>
    ensures { KeepsApart names.old (member_words member.now) result names.new }
{
    match member {
        Member::Ends(_, _, ends) => keep_ends(alloc, names, ends.as_slice()),
        Member::Shared(shared) => keep_shared(alloc, names, shared),
        Member::Function(function) => keep_word(alloc, names, &function.name),
        Member::Handler(_, _, _, _) => Ok(()),
        Member::Var(_, inits) => keep_inits(alloc, names, inits.as_slice()),
        Member::State(_, vars) => keep_vars(alloc, names, vars.as_slice()),
        Member::Latency(_, _) => Ok(()),
        Member::Nodes(_, nodes) => keep_nodes(alloc, names, nodes.as_slice()),
        Member::Connection(_, _) => Ok(()),
    }
}

fn keep_members<'a>(alloc: Global, names: &mut Names<'a>, members: &'a [Member]) -> Result<(), Fail>
    ensures { KeepsApart names.old (flat_map member_words members.now) result names.new }
{
    for member in members {
        keep_member(alloc, names, member)?;
    }
    Ok(())
}

/// Whether the parameters and members of a processor or a graph have names of their own: refused by `DuplicateName` at one
/// that stands behind an equal one.
pub fn check_unit(alloc: Global, unit: &UnitDecl) -> Result<(), Fail>
    ensures { (space : Space) → IsExactly (repeated [] (words_of (unit_names space unit.now))) result }
{
    let mut names = Names::new(alloc);
    keep_params(alloc, &mut names, unit.params.as_slice())?;
    keep_members(alloc, &mut names, unit.members.as_slice())
}
