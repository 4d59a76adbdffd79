// What is prepared of each function before a module runs.

use crate::jump::Jump;

/// One of a module's own functions: how many parameters, further locals and results it has, and the jumps of its code.
#[derive(Debug, Drop)]
pub struct Function {
    pub params: usize,
    pub locals: usize,
    pub results: usize,
    pub jumps: Vec<Jump>,
}
