//! Items read for both derives, each by itself.
ghost use Rattle.std.specs.Prelude.{◌≡◌, ◌++◌, option_map, IfOk, OnOk};
ghost use Rattle.token_trees.specs.View.{name_view};
ghost use Rattle.syntax_trees.specs.Item.{item_view};
ghost use Rattle.attr_parts.specs.Diagnostics.{diagnostics};
ghost use Rattle.derive_ast.specs.Views.{container_view};
ghost use Rattle.derive_model.specs.Items.{private as private_name, read_of, told_of};
ghost use Rattle.describe_defs.specs.Plain.{has_none};
ghost use Rattle.model_describe.specs.Described.{as_it_stands, untold};

use attr_parts::{Ctxt, Derive, NoCase};
use derive_ast::Container;
use std::alloc::{AllocError, Global};
use syntax_trees::DeriveInput;
use token_trees::{Ident, Span};

/// The name of serde's private module.
pub(crate) fn private(alloc: Global) -> Result<Ident, AllocError>
    ensures { IfOk result (λ i. name_view i ≡ private_name) }
{
    Ok(Ident {
        text: String::from_str(alloc, "__private")?,
        span: Span::call_site(),
    })
}

// The item for Serialize, of which nothing is kept, and then for Deserialize.
#[tactic(auto, using(crate::proofs::Read::both_told, crate::proofs::Read::read_so))]
fn read_both<'a>(
    alloc: Global,
    cx: &mut Ctxt,
    item: &'a DeriveInput,
    private: &Ident,
) -> Result<Option<Container<'a>>, AllocError>
    requires { name_view private.now ≡ private_name }
    ensures container { IfOk result (λ o. option_map container_view o ≡ read_of as_it_stands as_it_stands (item_view item.now)) }
    ensures told { OnOk result (diagnostics cx.new ≡ diagnostics cx.old ++ told_of as_it_stands as_it_stands (item_view item.now)) }
{
    let written = Container::from_ast(alloc, cx, item, Derive::Serialize, private, &NoCase)?;
    drop(written);
    let read = Container::from_ast(alloc, cx, item, Derive::Deserialize, private, &NoCase)?;
    Ok(read)
}

// Whether nothing was told.
fn is_untold(cx: Ctxt) -> bool
    ensures { result ≡ has_none (diagnostics cx) }
{
    match cx.check() {
        Ok(()) => true,
        Err(told) => {
            drop(told);
            false
        }
    }
}

/// What is read of the item for Deserialize, where nothing is told of it for either derive. Names stand as they are.
#[tactic(auto, using(crate::proofs::Read::nothing_told, crate::proofs::Read::something_told))]
pub(crate) fn read_item<'a>(
    alloc: Global,
    item: &'a DeriveInput,
    private: &Ident,
) -> Result<Option<Container<'a>>, AllocError>
    requires { name_view private.now ≡ private_name }
    ensures { IfOk result (λ o. option_map container_view o ≡ untold (item_view item.now)) }
{
    let mut cx = Ctxt::new(alloc);
    match read_both(alloc, &mut cx, item, private) {
        Ok(read) => {
            if is_untold(cx) {
                return Ok(read);
            }
            drop(read);
            Ok(None)
        }
        Err(error) => {
            drop(cx.check());
            Err(error)
        }
    }
}
