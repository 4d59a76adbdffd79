use crate::token::Token;
use cm_base::{Items, Place};

/// The tokens of a file in their order, and the place after its last byte.
#[derive(Debug, Drop)]
pub struct Tokens {
    pub list: Items<Token>,
    pub last: Place,
}
