//! Items read for both derives.
ghost use Rattle.std.specs.Prelude.{◌≡◌, ◌++◌, [], map, option_map, IfOk, OnOk};
ghost use Rattle.std.specs.List.{filter_map, cons_option};
ghost use Rattle.token_trees.specs.View.{name_view};
ghost use Rattle.syntax_trees.specs.Item.{item_view};
ghost use Rattle.attr_parts.specs.Diagnostics.{diagnostics};
ghost use Rattle.attr_defs.specs.Texts.{lexed};
ghost use Rattle.container_defs.specs.Model.{diagnostics_of};
ghost use Rattle.derive_ast.specs.Views.{container_view};
ghost use Rattle.derive_model.specs.Items.{private as private_name, container_of, all_told};

use attr_parts::{Ctxt, Derive, Renamer};
use derive_ast::Container;
use std::alloc::{AllocError, Global};
use syntax_trees::DeriveInput;
use token_trees::{Ident, Span};

/// The name of serde's private module.
pub(crate) fn private(alloc: Global) -> Result<Ident, AllocError>
    ensures { IfOk result (λ i. name_view i ≡ private_name) }
{
    Ok(Ident {
        text: String::from_str(alloc, "__private")?,
        span: Span::call_site(),
    })
}

/// What was read of items for each derive.
#[derive(Drop)]
pub(crate) struct Reading<'a> {
    pub(crate) written: Vec<Container<'a>>,
    pub(crate) read: Vec<Container<'a>>,
}

// One more, if it was read.
#[tactic(auto, using(crate::proofs::ReadItems::one_put, crate::proofs::ReadItems::none_put))]
fn push_read<'a>(
    into: &mut Vec<Container<'a>>,
    container: Option<Container<'a>>,
) -> Result<(), AllocError>
    ensures { OnOk result (map container_view into.new.items ≡ map container_view into.old.items ++ cons_option (option_map container_view container.entry) []) }
{
    match container {
        Some(container) => {
            into.push(container)?;
            Ok(())
        }
        None => Ok(()),
    }
}

// An item for one derive. A union is told, and isn't read.
#[tactic(auto, using(crate::proofs::ReadItems::put_so, crate::proofs::ReadItems::told_so))]
fn read_one<'a, R: Renamer>(
    alloc: Global,
    cx: &mut Ctxt,
    item: &'a DeriveInput,
    derive: Derive,
    private: &Ident,
    renamer: &R,
    into: &mut Vec<Container<'a>>,
) -> Result<(), AllocError>
    requires { name_view private.now ≡ private_name }
    ensures containers { OnOk result (map container_view into.new.items ≡ map container_view into.old.items ++ cons_option (container_of R.variant_name R.field_name derive (item_view item.now)) []) }
    ensures told { OnOk result (diagnostics cx.new ≡ diagnostics cx.old ++ diagnostics_of lexed R.variant_name R.field_name private_name (item_view item.now) derive) }
{
    let container = Container::from_ast(alloc, cx, item, derive, private, renamer)?;
    push_read(into, container)?;
    Ok(())
}

/// All items, one after another, each for Serialize and then for Deserialize.
pub(crate) fn read_all<'a, R: Renamer>(
    alloc: Global,
    cx: &mut Ctxt,
    items: &'a [DeriveInput],
    private: &Ident,
    renamer: &R,
) -> Result<Reading<'a>, AllocError>
    requires { name_view private.now ≡ private_name }
    ensures written { IfOk result (λ r. map container_view r.written.items ≡ filter_map (container_of R.variant_name R.field_name Derive.Serialize) (map item_view items.now)) }
    ensures read { IfOk result (λ r. map container_view r.read.items ≡ filter_map (container_of R.variant_name R.field_name Derive.Deserialize) (map item_view items.now)) }
    ensures told { OnOk result (diagnostics cx.new ≡ diagnostics cx.old ++ all_told R.variant_name R.field_name (map item_view items.now)) }
{
    let mut written = Vec::new(alloc);
    let mut read = Vec::new(alloc);
    for item in items {
        read_one(
            alloc,
            cx,
            item,
            Derive::Serialize,
            private,
            renamer,
            &mut written,
        )?;
        read_one(
            alloc,
            cx,
            item,
            Derive::Deserialize,
            private,
            renamer,
            &mut read,
        )?;
    }
    Ok(Reading { written, read })
}
