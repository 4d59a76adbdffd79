use cm_tree::{UnitDecl, Word};
use scope_walk::Declaration;

/// A declaration of a scope other than a namespace's: the number of the namespace that it stands in, the processor or graph
/// there, its name, and what the name stands for.
#[derive(Clone, Copy, Debug)]
pub struct Local<'a> {
    pub space: usize,
    pub unit: Option<&'a UnitDecl>,
    pub word: &'a Word,
    pub declaration: Declaration<'a>,
}
