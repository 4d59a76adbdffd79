use crate::halt::{Halt, Slip};
use cm_tree::{Binary, Unary};

fn arithmetic(word: &str) -> Option<Binary> {
    if word == "+" {
        return Some(Binary::Add);
    }
    if word == "-" {
        return Some(Binary::Subtract);
    }
    if word == "*" {
        return Some(Binary::Multiply);
    }
    if word == "/" {
        return Some(Binary::Divide);
    }
    if word == "%" {
        return Some(Binary::Remainder);
    }
    None
}

fn shifting(word: &str) -> Option<Binary> {
    if word == "<<" {
        return Some(Binary::ShiftLeft);
    }
    if word == ">>" {
        return Some(Binary::ShiftRight);
    }
    if word == ">>>" {
        return Some(Binary::ShiftRightZero);
    }
    None
}

fn bitwise(word: &str) -> Option<Binary> {
    if word == "|" {
        return Some(Binary::BitOr);
    }
    if word == "^" {
        return Some(Binary::BitXor);
    }
    if word == "&" {
        return Some(Binary::BitAnd);
    }
    None
}

fn deciding(word: &str) -> Option<Binary> {
    if word == "||" {
        return Some(Binary::Or);
    }
    if word == "&&" {
        return Some(Binary::And);
    }
    None
}

fn comparing(word: &str) -> Option<Binary> {
    if word == "==" {
        return Some(Binary::Equal);
    }
    if word == "!=" {
        return Some(Binary::NotEqual);
    }
    if word == "<" {
        return Some(Binary::Less);
    }
    if word == "<=" {
        return Some(Binary::LessEqual);
    }
    if word == ">" {
        return Some(Binary::Greater);
    }
    if word == ">=" {
        return Some(Binary::GreaterEqual);
    }
    None
}

fn of_numbers(word: &str) -> Option<Binary> {
    match arithmetic(word) {
        Some(found) => Some(found),
        None => shifting(word),
    }
}

fn of_truths(word: &str) -> Option<Binary> {
    match deciding(word) {
        Some(found) => Some(found),
        None => comparing(word),
    }
}

fn of_any(word: &str) -> Option<Binary> {
    match bitwise(word) {
        Some(found) => Some(found),
        None => of_truths(word),
    }
}

/// The operator between two operands that a word is.
pub fn binary_of(word: &str) -> Result<Binary, Halt> {
    match of_numbers(word) {
        Some(found) => Ok(found),
        None => of_any(word).ok_or(Halt::Slip(Slip::Operator)),
    }
}

/// The operator before one operand that a word is.
pub fn unary_of(word: &str) -> Result<Unary, Halt> {
    if word == "-" {
        return Ok(Unary::Minus);
    }
    if word == "!" {
        return Ok(Unary::Not);
    }
    if word == "~" {
        return Ok(Unary::Complement);
    }
    Err(Halt::Slip(Slip::Operator))
}
