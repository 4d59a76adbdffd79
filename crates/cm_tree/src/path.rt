use cm_base::{Items, Name, Place};

/// A name where it stands.
#[derive(Debug, Drop)]
pub struct Word {
    pub place: Place,
    pub text: Name,
}

/// A path `a::b::c`: its names, one at least, and the place of the first.
#[derive(Debug, Drop)]
pub struct Path {
    pub place: Place,
    pub names: Items<Name>,
}
