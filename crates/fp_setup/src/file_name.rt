//! The name of a file, as command lines and setups give it.

ghost use Rattle.std.specs.Prelude.{◌≡◌, IfOk};

use std::alloc::{AllocError, Global};
use std::marker::Model;

/// The name of a file: any text, which is handed to the files unchanged. Contracts see its bytes.
#[derive(Drop)]
pub struct Name {
    text: String,
}

impl Model for Name {
    ghost use Rattle.std.specs.Prelude.{List, ℕ, string_bytes};

    ghost Value = { List ℕ };

    ghost view = { λ n. string_bytes n.text };
}

impl Name {
    /// The name with this text, byte for byte.
    ///
    /// # Errors
    ///
    /// Only if memory ran out.
    pub fn from_str(alloc: Global, s: &str) -> Result<Name, AllocError>
        ensures { IfOk result (λ name. name ≡ s.now) }
    {
        let text = String::from_str(alloc, s)?;
        Ok(Name { text })
    }

    /// The text of the name, byte for byte.
    pub fn as_str(&self) -> &str
        ensures { result.now ≡ self.now }
    {
        self.text.as_str()
    }
}
