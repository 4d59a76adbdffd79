ghost use Rattle.std.specs.Prelude.{◌≡◌, IfOk, string_bytes};
ghost use Rattle.std.specs.Str.{IsUtf8};

use std::alloc::{AllocError, Global};
use std::marker::Model;

/// A text that names a file, an endpoint or a node. Contracts see it as its bytes, which are UTF-8.
#[derive(Debug, Drop)]
pub struct Name {
    text: String,
}

impl Model for Name {
    ghost use Rattle.std.specs.Prelude.{List, ℕ, string_bytes};

    ghost Value = { List ℕ };

    ghost view = { λ n. string_bytes n.text };
}

impl Name {
    /// The name with this text.
    pub fn from_string(text: String) -> Name
        ensures { result ≡ string_bytes text }
    {
        Name { text }
    }

    /// A name with a copy of this text.
    pub fn from_str(alloc: Global, text: &str) -> Result<Name, AllocError>
        ensures { IfOk result (λ n. n ≡ text.now) }
    {
        Ok(Name {
            text: String::from_str(alloc, text)?,
        })
    }

    pub fn as_str(&self) -> &str
        ensures { result.now ≡ self.now }
    {
        self.text.as_str()
    }

    pub fn as_bytes(&self) -> &[u8]
        ensures value { result.now ≡ self.now }
        ensures utf8 { IsUtf8 result.now }
    {
        self.text.as_str().as_bytes()
    }
}
