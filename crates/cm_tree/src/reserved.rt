/// The reserved words: docs/LANGUAGE.md, "Tokens". Each is spelled as its variant in small letters, and
/// `StaticAssert` is `static_assert`.
#[derive(Clone, Copy, Debug, PartialEq, Eq)]
pub enum Reserved {
    // Declarations
    Namespace,
    Processor,
    Graph,
    Struct,
    Using,
    Let,
    Var,
    Input,
    Output,
    Event,
    Node,
    Connection,
    // Statements
    If,
    Else,
    Loop,
    While,
    For,
    Break,
    Continue,
    Return,
    Advance,
    // Types
    Void,
    Bool,
    Int,
    Int32,
    Int64,
    Wrap,
    Clamp,
    // Values
    True,
    False,
    // Conditions
    StaticAssert,
}
