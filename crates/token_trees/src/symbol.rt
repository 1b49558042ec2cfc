//! Symbols: the fixed names that attributes are read by.
ghost use Rattle.std.specs.Prelude.{◌≡◌, ◌↔◌, IsTrue, Some, string_bytes};

use crate::token::Ident;
use std::fmt;

/// A fixed name, as `deny_unknown_fields`.
#[derive(Clone, Copy)]
pub struct Symbol(pub &'static str);

impl Symbol {
    /// The name itself.
    pub fn text(self) -> &'static str
        ensures { result.now ≡ self.0.now }
    {
        self.0
    }
}

impl fmt::Display for Symbol {
    ghost output = { λ x. Some x.0.now };

    fn fmt<W: fmt::Write>(&self, f: &mut fmt::Formatter<W>) -> fmt::Result {
        f.write_str(self.0)
    }
}

impl Ident {
    /// Whether the identifier is that symbol: the texts are equal.
    pub fn is(&self, symbol: Symbol) -> bool
        ensures { IsTrue result ↔ (string_bytes self.now.text ≡ symbol.0.now) }
    {
        self.text.as_str() == symbol.0
    }
}
