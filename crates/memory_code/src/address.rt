/// Where a part of memory begins: so many bytes behind the number in a local, or at a fixed address.
#[derive(Clone, Copy, Debug)]
pub enum Address {
    Behind { local: u32, offset: u32 },
    Fixed(u32),
}
