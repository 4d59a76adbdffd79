/// Two locals of a function that code uses from one instruction to one soon after: of type `i32`, and of type `i64`.
#[derive(Clone, Copy, Debug)]
pub struct Scratch {
    pub narrow: u32,
    pub wide: u32,
}
