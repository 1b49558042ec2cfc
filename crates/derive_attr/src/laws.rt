//! Two readings of one item, variant or field answer alike and tell alike, whatever was told before.
ghost use Rattle.std.specs.Prelude.{◌≡◌, IfOk, OnOk};
ghost use Rattle.attr_parts.specs.Diagnostics.{diagnostics};
ghost use Rattle.derive_attr.specs.Alike.{TellsAlike};
ghost use Rattle.derive_attr.specs.ContainerView.{container_view};
ghost use Rattle.derive_attr.specs.FieldView.{field_view};
ghost use Rattle.derive_attr.specs.MemberViews.{variant_view};

use crate::container::Container;
use crate::field::Field;
use crate::variant::Variant;
use attr_parts::{Ctxt, Default};
use std::alloc::{AllocError, Global};
use syntax_trees::DeriveInput;
use token_trees::Ident;

/// Two readings of one container.
pub fn containers_read_alike(
    alloc: Global,
    first: &mut Ctxt,
    second: &mut Ctxt,
    item: &DeriveInput,
) -> Result<(Container, Container), AllocError>
    ensures alike { IfOk result (λ both. container_view both.0 ≡ container_view both.1) }
    ensures told { OnOk result (TellsAlike (diagnostics first.old) (diagnostics first.new) (diagnostics second.old) (diagnostics second.new)) }
{
    let one = Container::from_ast(alloc, first, item)?;
    let other = Container::from_ast(alloc, second, item)?;
    Ok((one, other))
}

/// Two readings of one variant.
pub fn variants_read_alike(
    alloc: Global,
    first: &mut Ctxt,
    second: &mut Ctxt,
    variant: &syntax_trees::Variant,
) -> Result<(Variant, Variant), AllocError>
    ensures alike { IfOk result (λ both. variant_view both.0 ≡ variant_view both.1) }
    ensures told { OnOk result (TellsAlike (diagnostics first.old) (diagnostics first.new) (diagnostics second.old) (diagnostics second.new)) }
{
    let one = Variant::from_ast(alloc, first, variant)?;
    let other = Variant::from_ast(alloc, second, variant)?;
    Ok((one, other))
}

/// Two readings of one field in one place.
pub fn fields_read_alike(
    alloc: Global,
    first: &mut Ctxt,
    second: &mut Ctxt,
    index: usize,
    field: &syntax_trees::Field,
    attrs: Option<&Variant>,
    container_default: &Default,
    private: &Ident,
) -> Result<(Field, Field), AllocError>
    ensures alike { IfOk result (λ both. field_view both.0 ≡ field_view both.1) }
    ensures told { OnOk result (TellsAlike (diagnostics first.old) (diagnostics first.new) (diagnostics second.old) (diagnostics second.new)) }
{
    let one = Field::from_ast(
        alloc,
        first,
        index,
        field,
        attrs,
        container_default,
        private,
    )?;
    let other = Field::from_ast(
        alloc,
        second,
        index,
        field,
        attrs,
        container_default,
        private,
    )?;
    Ok((one, other))
}
