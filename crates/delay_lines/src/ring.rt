/// Where a ring stands in a module's memory: the address of its cursor, a word that has the number of the oldest
/// entry; the address of its first entry; and how many entries it has, and of how many bytes each.
#[derive(Clone, Copy, Debug, PartialEq, Eq)]
pub struct RingPlace {
    pub cursor: u32,
    pub first: u32,
    pub length: u32,
    pub width: u32,
}
