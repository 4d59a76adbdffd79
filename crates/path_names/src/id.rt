use cm_base::Place;

/// The number of a declaration.
#[derive(Clone, Copy, Debug, PartialEq, Eq)]
pub enum DeclId {
    /// a declaration of a namespace, by its number among those
    Member(usize),
    /// a declaration of any other scope, by its number among those, in the order of the walk
    Local(usize),
}

/// A path, by its place, and the number of what it stands for, if it stands for something.
#[derive(Clone, Copy, Debug)]
pub struct Use {
    pub place: Place,
    pub id: Option<DeclId>,
}
