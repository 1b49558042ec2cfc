//! Two readings of one item answer alike and tell alike, whatever was told before.
ghost use Rattle.std.specs.Prelude.{◌≡◌, IfOk, OnOk, option_map};
ghost use Rattle.attr_parts.specs.Diagnostics.{diagnostics};
ghost use Rattle.derive_attr.specs.Alike.{TellsAlike};
ghost use Rattle.derive_ast.specs.Views.{container_view};

use crate::container::Container;
use attr_parts::{Ctxt, Derive, Renamer};
use std::alloc::{AllocError, Global};
use syntax_trees::DeriveInput;
use token_trees::Ident;

/// Two readings of one item for one derive.
pub fn containers_read_alike<'a, R: Renamer>(
    alloc: Global,
    first: &mut Ctxt,
    second: &mut Ctxt,
    item: &'a DeriveInput,
    derive: Derive,
    private: &Ident,
    renamer: &R,
) -> Result<(Option<Container<'a>>, Option<Container<'a>>), AllocError>
    ensures alike { IfOk result (λ both. option_map container_view both.0 ≡ option_map container_view both.1) }
    ensures told { OnOk result (TellsAlike (diagnostics first.old) (diagnostics first.new) (diagnostics second.old) (diagnostics second.new)) }
{
    let one = Container::from_ast(alloc, first, item, derive, private, renamer)?;
    let other = Container::from_ast(alloc, second, item, derive, private, renamer)?;
    Ok((one, other))
}
