ghost use Rattle.std.specs.Prelude.{◌≡◌, length};
ghost use Rattle.std.specs.Option.{option_copied};
ghost use Rattle.cm_tree.specs.Faults.{place_of};
ghost use Rattle.token_reader.specs.declared.cursor.Stop.TheVariants.{NoMemory};
ghost use Rattle.token_reader.specs.Parsers as spec;
ghost use Rattle.token_reader.specs.Parsers.{Reads};
ghost use Rattle.token_reader.specs.Lists.{name, text};

use cm_base::{Bytes, Name, Place};
use cm_tree::{Reserved, Sign, Token, TokenKind};
use std::alloc::{AllocError, Global};
use std::marker::Model;

/// Why a parser stops: the cursor stands at the refused token, or memory ran out.
#[derive(Clone, Copy, Debug)]
pub enum Stop {
    Here,
    NoMemory,
}

impl From<AllocError> for Stop {
    ghost from_gives = { λ _ e. e ≡ NoMemory };

    fn from(_error: AllocError) -> Stop {
        Stop::NoMemory
    }
}

/// The tokens that are not read yet. Contracts see their list.
#[derive(Drop)]
pub struct Cursor<'a> {
    pub alloc: Global,
    rest: &'a [Token],
}

impl<'a> Model for Cursor<'a> {
    ghost use Rattle.std.specs.Prelude.{List};
    ghost use Rattle.cm_tree.specs.declared.token.Token.{Token as Piece};

    ghost Value = { List Piece };

    ghost view = { λ p. p.rest.now };
}

#[tactic(auto, unfolding(crate::specs::Parsers::same_sign))]
fn same_sign(a: Sign, b: Sign) -> bool
    ensures { result ≡ spec.same_sign a b }
{
    a == b
}

#[tactic(auto, unfolding(crate::specs::Parsers::same_reserved))]
fn same_reserved(a: Reserved, b: Reserved) -> bool
    ensures { result ≡ spec.same_reserved a b }
{
    a == b
}

fn is_sign(sign: Sign, kind: &TokenKind) -> bool
    ensures { result ≡ spec.is_sign sign kind.now }
{
    match kind {
        TokenKind::Sign(other) => same_sign(*other, sign),
        _ => false,
    }
}

fn is_reserved(word: Reserved, kind: &TokenKind) -> bool
    ensures { result ≡ spec.is_reserved word kind.now }
{
    match kind {
        TokenKind::Reserved(other) => same_reserved(*other, word),
        _ => false,
    }
}

fn is_word(text: &[u8], kind: &TokenKind) -> bool
    ensures { result ≡ spec.is_word text.now kind.now }
{
    match kind {
        TokenKind::Word(name) => name.as_bytes() == text,
        _ => false,
    }
}

impl<'a> Cursor<'a> {
    /// A cursor before the first of these tokens.
    pub fn new(alloc: Global, rest: &'a [Token]) -> Cursor<'a>
        ensures { result ≡ rest.now }
    {
        Cursor { alloc, rest }
    }

    /// How many tokens are left.
    pub fn left(&self) -> usize
        ensures { result ≡ length self.now }
    {
        self.rest.len()
    }

    /// The next token, if there is one.
    #[tactic(auto, unfolding(crate::specs::Parsers::look))]
    pub fn peek(&self) -> Option<&'a Token>
        ensures value { option_copied result ≡ spec.first self.now }
        ensures looks { spec.look self.now ≡ Ok (option_copied result, self.now) }
    {
        self.rest.first()
    }

    /// The place of the next token; behind the last one, this place.
    pub fn place_or(&self, last: Place) -> Place
        ensures { result ≡ place_of last self.now }
    {
        match self.peek() {
            Some(token) => token.place,
            None => last,
        }
    }

    /// Goes past the next token, if there is one.
    #[tactic(auto, unfolding(crate::specs::Parsers::skip))]
    pub fn skip(&mut self)
        ensures { spec.skip self.old ≡ Ok (tt, self.new) }
    {
        if let [_, rest @ ..] = self.rest {
            self.rest = rest;
        }
    }

    /// Whether the next token is this sign.
    #[tactic(auto, unfolding(crate::specs::Parsers::sees, crate::specs::Parsers::see))]
    pub fn sees(&self, sign: Sign) -> bool
        ensures value { result ≡ spec.sees (spec.is_sign sign) self.now }
        ensures sees { spec.see (spec.is_sign sign) self.now ≡ Ok (result, self.now) }
    {
        match self.peek() {
            Some(token) => is_sign(sign, &token.kind),
            None => false,
        }
    }

    /// Whether there is a next token and it is not this sign.
    #[tactic(auto, unfolding(crate::specs::Parsers::sees, crate::specs::Parsers::see))]
    pub fn sees_other(&self, sign: Sign) -> bool
        ensures value { result ≡ spec.sees (spec.is_other sign) self.now }
        ensures sees { spec.see (spec.is_other sign) self.now ≡ Ok (result, self.now) }
    {
        match self.peek() {
            Some(token) => !is_sign(sign, &token.kind),
            None => false,
        }
    }

    /// Whether there is a next token.
    #[tactic(auto, unfolding(crate::specs::Parsers::sees, crate::specs::Parsers::see))]
    pub fn sees_any(&self) -> bool
        ensures value { result ≡ spec.sees spec.is_any self.now }
        ensures sees { spec.see spec.is_any self.now ≡ Ok (result, self.now) }
    {
        self.peek().is_some()
    }

    /// Whether the next token is this reserved word.
    #[tactic(auto, unfolding(crate::specs::Parsers::sees, crate::specs::Parsers::see))]
    pub fn sees_reserved(&self, word: Reserved) -> bool
        ensures value { result ≡ spec.sees (spec.is_reserved word) self.now }
        ensures sees { spec.see (spec.is_reserved word) self.now ≡ Ok (result, self.now) }
    {
        match self.peek() {
            Some(token) => is_reserved(word, &token.kind),
            None => false,
        }
    }

    /// Whether the next token is a name with this text.
    #[tactic(auto, unfolding(crate::specs::Parsers::sees, crate::specs::Parsers::see))]
    pub fn sees_word(&self, text: &[u8]) -> bool
        ensures value { result ≡ spec.sees (spec.is_word text.now) self.now }
        ensures sees { spec.see (spec.is_word text.now) self.now ≡ Ok (result, self.now) }
    {
        match self.peek() {
            Some(token) => is_word(text, &token.kind),
            None => false,
        }
    }

    /// Goes past this sign.
    #[tactic(auto, unfolding(crate::specs::Parsers::expect, crate::specs::Parsers::skip))]
    pub fn expect(&mut self, sign: Sign) -> Result<(), Stop>
        ensures { Reads (spec.expect (spec.is_sign sign) self.old) result self.new }
    {
        if self.sees(sign) {
            self.skip();
            Ok(())
        } else {
            Err(Stop::Here)
        }
    }

    /// Goes past this reserved word.
    #[tactic(auto, unfolding(crate::specs::Parsers::expect, crate::specs::Parsers::skip))]
    pub fn expect_reserved(&mut self, word: Reserved) -> Result<(), Stop>
        ensures { Reads (spec.expect (spec.is_reserved word) self.old) result self.new }
    {
        if self.sees_reserved(word) {
            self.skip();
            Ok(())
        } else {
            Err(Stop::Here)
        }
    }

    /// Goes past a name with this text.
    #[tactic(auto, unfolding(crate::specs::Parsers::expect, crate::specs::Parsers::skip))]
    pub fn expect_word(&mut self, text: &[u8]) -> Result<(), Stop>
        ensures { Reads (spec.expect (spec.is_word text.now) self.old) result self.new }
    {
        if self.sees_word(text) {
            self.skip();
            Ok(())
        } else {
            Err(Stop::Here)
        }
    }

    /// A name, with its place.
    #[tactic(auto, unfolding(crate::specs::Lists::name))]
    pub fn name(&mut self) -> Result<(Place, Name), Stop>
        ensures { Reads (name self.old) result self.new }
    {
        let Some(token) = self.peek() else {
            return Err(Stop::Here);
        };
        match &token.kind {
            TokenKind::Word(name) => {
                self.skip();
                let name = Name::from_str(self.alloc, name.as_str())?;
                Ok((token.place, name))
            }
            _ => Err(Stop::Here),
        }
    }

    /// A string as it stands in the file, with its place.
    #[tactic(auto, unfolding(crate::specs::Lists::text))]
    pub fn text(&mut self) -> Result<(Place, Bytes), Stop>
        ensures { Reads (text self.old) result self.new }
    {
        let Some(token) = self.peek() else {
            return Err(Stop::Here);
        };
        match &token.kind {
            TokenKind::Text(bytes) => {
                self.skip();
                let bytes = Bytes::from_slice(self.alloc, bytes.as_slice())?;
                Ok((token.place, bytes))
            }
            _ => Err(Stop::Here),
        }
    }
}
