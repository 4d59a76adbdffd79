use crate::decl::Decl;
use cm_base::Items;

/// The declarations of a file.
#[derive(Debug, Drop)]
pub struct File {
    pub decls: Items<Decl>,
}
