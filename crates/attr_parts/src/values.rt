//! What attributes of containers and fields are set to.
ghost use Rattle.std.specs.Prelude.{◌≡◌};
ghost use Rattle.attr_parts.specs.Values.{is_identifier, default_view, lacks_default};

use syntax_trees::ExprPath;

/// Whether an enum is read as an identifier, and of what.
#[derive(Clone, Copy, PartialEq, Eq)]
pub enum Identifier {
    No,
    Field,
    Variant,
}

/// What a value is where it is left out.
pub enum Default {
    /// It may not be left out.
    None,
    /// The type's own default.
    Default,
    /// What that function answers.
    Path(ExprPath),
}

impl Drop for Default {
    fn drop(self) {
        match self {
            Default::None | Default::Default => {}
            Default::Path(_expr_path) => {}
        }
    }
}

impl Identifier {
    /// Whether the enum is an identifier.
    pub fn is_some(self) -> bool
        ensures { result ≡ is_identifier self }
    {
        match self {
            Identifier::No => false,
            Identifier::Field | Identifier::Variant => true,
        }
    }
}

impl Default {
    /// Whether the value may not be left out.
    pub fn is_none(&self) -> bool
        ensures { result ≡ lacks_default (default_view self.now) }
    {
        match self {
            Default::None => true,
            Default::Default | Default::Path(_) => false,
        }
    }
}
