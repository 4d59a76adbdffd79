//! The form of patch that is compiled so far, looked for in the trees of its files.

ghost use Rattle.std.specs.Prelude.{◌≡◌, ℕ, List, IfSome, IsSomeAnd};
ghost use Rattle.std.specs.Option.{option_map, option_copied};
ghost use Rattle.cm_front.specs.Form.{HaveForm, decls_of};
ghost use Rattle.cm_front.specs.Reading as reading;

use cm_base::{Flow, Items, Kind, Name};
use cm_tree::{
    Base, Decl, End, EndName, Expr, File, Function, Key, Member, Stmt, TypeExpr, UnitDecl,
};

/// The names of a patch of the form, as they stand in its trees.
#[derive(Clone, Copy)]
pub struct Names<'a> {
    pub processor: &'a Name,
    pub input: &'a Name,
    pub output: &'a Name,
}

/// The endpoints of `OUTPUT <- INPUT;`.
#[derive(Clone, Copy)]
pub struct Endpoints<'a> {
    pub input: &'a Name,
    pub output: &'a Name,
}

/// The item of a list that has just one.
fn only<T>(items: &[T]) -> Option<&T>
    ensures { option_copied result ≡ reading.only items.now }
{
    let (item, others) = items.split_first()?;
    others.is_empty().then_some(item)
}

fn is_main(name: &Name) -> bool
    ensures { result ≡ reading.is_main name.now }
{
    name.as_bytes() == b"main".as_slice()
}

fn is_int_base(base: &Base) -> bool
    ensures { result ≡ reading.is_int_base base.now }
{
    matches!(base, Base::Int(_))
}

fn is_int(ty: &TypeExpr) -> bool
    ensures { result ≡ reading.is_int ty.now }
{
    match ty {
        TypeExpr::Base(base, sizes) => is_int_base(base) && sizes.is_empty(),
        TypeExpr::Named(_, _) => false,
    }
}

fn bare_name(name: &EndName) -> Option<&Name>
    ensures { option_copied result ≡ reading.bare_name name.now }
{
    name.keys.is_empty().then_some(&name.name.text)
}

/// The name of a stream of integers that is declared alone.
fn end_name(end: &End) -> Option<&Name>
    ensures { option_copied result ≡ reading.end_name end.now }
{
    if end.kind != Kind::Stream || !is_int(&end.ty) {
        return None;
    }
    bare_name(only(end.names.as_slice())?)
}

fn ends_name(ends: &[End]) -> Option<&Name>
    ensures { option_copied result ≡ reading.ends_name ends.now }
{
    end_name(only(ends)?)
}

/// The name of the stream of integers that a member declares alone, with this direction.
fn stream_name(flow: Flow, member: &Member) -> Option<&Name>
    ensures { option_copied result ≡ reading.stream_name flow member.now }
{
    match member {
        Member::Ends(_, found, ends) => {
            if *found == flow {
                ends_name(ends.as_slice())
            } else {
                None
            }
        }
        _ => None,
    }
}

fn value_name(value: &Expr) -> Option<&Name>
    ensures { option_copied result ≡ reading.value_name value.now }
{
    match value {
        Expr::Name(path) => only(path.names.as_slice()),
        _ => None,
    }
}

fn write_names(stmt: &Stmt) -> Option<Endpoints<'_>>
    ensures { option_map reading.endpoints_of result ≡ reading.write_names stmt.now }
{
    match stmt {
        Stmt::Write(to, value) => {
            let input = value_name(value)?;
            Some(Endpoints {
                input,
                output: &to.text,
            })
        }
        _ => None,
    }
}

fn is_advance(stmt: &Stmt) -> bool
    ensures { result ≡ reading.is_advance stmt.now }
{
    matches!(stmt, Stmt::Advance(_))
}

/// The names of `OUTPUT <- INPUT; advance();`.
fn body_names(stmts: &[Stmt]) -> Option<Endpoints<'_>>
    ensures { option_map reading.endpoints_of result ≡ reading.body_names stmts.now }
{
    match stmts {
        [first, second] => {
            if is_advance(second) {
                write_names(first)
            } else {
                None
            }
        }
        _ => None,
    }
}

fn block_stmts(stmt: &Stmt) -> Option<&Items<Stmt>>
    ensures { option_copied result ≡ reading.block_stmts stmt.now }
{
    match stmt {
        Stmt::Block(_, all) => Some(all),
        _ => None,
    }
}

/// The body of a `loop` without a count.
fn loop_body(stmt: &Stmt) -> Option<&Stmt>
    ensures { option_copied result ≡ reading.loop_body stmt.now }
{
    match stmt {
        Stmt::Loop(_, None, body) => Some(body.get()),
        _ => None,
    }
}

fn loop_names(stmts: &[Stmt]) -> Option<Endpoints<'_>>
    ensures { option_map reading.endpoints_of result ≡ reading.loop_names stmts.now }
{
    body_names(block_stmts(loop_body(only(stmts)?)?)?.as_slice())
}

fn function_names(function: &Function) -> Option<Endpoints<'_>>
    ensures { option_map reading.endpoints_of result ≡ reading.function_names function.now }
{
    if function.result.is_some() || !function.params.is_empty() || !is_main(&function.name.text) {
        return None;
    }
    loop_names(function.body.stmts.as_slice())
}

fn main_names(member: &Member) -> Option<Endpoints<'_>>
    ensures { option_map reading.endpoints_of result ≡ reading.main_names member.now }
{
    match member {
        Member::Function(function) => function_names(function),
        _ => None,
    }
}

fn is_bare_main(key: &Key) -> bool
    ensures { result ≡ reading.is_bare_main key.now }
{
    key.value.is_none() && is_main(&key.name.text)
}

fn is_main_mark(keys: &[Key]) -> bool
    ensures { result ≡ reading.is_main_mark keys.now }
{
    only(keys).is_some_and(is_bare_main)
}

/// Whether three names differ from each other and from `main`.
fn are_names(names: &Names<'_>) -> bool
    ensures { result ≡ reading.are_names (reading.names_of names.now) }
{
    let (processor, input, output) = (
        names.processor.as_bytes(),
        names.input.as_bytes(),
        names.output.as_bytes(),
    );
    processor != input
        && processor != output
        && input != output
        && !is_main(names.processor)
        && !is_main(names.input)
        && !is_main(names.output)
}

fn is_passed(names: &Names<'_>, ends: &Endpoints<'_>) -> bool
    ensures { result ≡ reading.is_passed (reading.names_of names.now) (reading.endpoints_of ends.now) }
{
    names.input.as_bytes() == ends.input.as_bytes()
        && names.output.as_bytes() == ends.output.as_bytes()
        && are_names(names)
}

#[tactic(auto, unfolding(crate::specs::Reading::member_names))]
fn member_names<'a>(
    processor: &'a Name,
    first: &'a Member,
    second: &'a Member,
    third: &'a Member,
) -> Option<Names<'a>>
    ensures { option_map reading.names_of result ≡ reading.member_names processor.now first.now second.now third.now }
{
    let input = stream_name(Flow::Input, first)?;
    let output = stream_name(Flow::Output, second)?;
    let ends = main_names(third)?;
    let names = Names {
        processor,
        input,
        output,
    };
    is_passed(&names, &ends).then_some(names)
}

fn unit_names(found: &UnitDecl) -> Option<Names<'_>>
    ensures { option_map reading.names_of result ≡ reading.unit_names found.now }
{
    if !found.params.is_empty() || !is_main_mark(found.keys.as_slice()) {
        return None;
    }
    match found.members.as_slice() {
        [first, second, third] => member_names(&found.name.text, first, second, third),
        _ => None,
    }
}

fn decl_names(decl: &Decl) -> Option<Names<'_>>
    ensures { option_map reading.names_of result ≡ reading.decl_names decl.now }
{
    match decl {
        Decl::Processor(found) => unit_names(found),
        _ => None,
    }
}

/// The declaration of all files, where there is just one.
fn only_decl(files: &[File]) -> Option<&Decl>
    ensures { option_copied result ≡ reading.only (decls_of files.now) }
{
    let mut found: &[Decl] = &[];
    for file in files {
        let decls = file.decls.as_slice();
        if found.is_empty() {
            found = decls;
        } else if !decls.is_empty() {
            return None;
        }
    }
    only(found)
}

/// The names of the patch, where its files together are of the form.
#[tactic(auto, unfolding(crate::specs::Reading::files_names))]
fn files_names(files: &[File]) -> Option<Names<'_>>
    ensures { option_map reading.names_of result ≡ reading.files_names files.now }
{
    decl_names(only_decl(files)?)
}

/// The names of the patch, where its files together are of the form: those of the form and no others.
pub fn find(files: &[File]) -> Option<Names<'_>>
    ensures found { IfSome result (λ n. HaveForm files.now n.processor.now n.input.now n.output.now) }
    ensures only { (p a b : List ℕ) → HaveForm files.now p a b →
        IsSomeAnd result (λ n. (n.processor.now ≡ p) × (n.input.now ≡ a) × (n.output.now ≡ b)) }
{
    files_names(files)
}
