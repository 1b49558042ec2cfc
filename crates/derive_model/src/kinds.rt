//! The kinds of values that syntax types may read.
ghost use Rattle.std.specs.Prelude.{◌≡◌, List};
ghost use Rattle.model_defs.specs.Model.{ContainerModel};
ghost use Rattle.model_defs.specs.Types.{TypeModel, types};
ghost use Rattle.syntax_trees.specs.View.{ty as ty_view};
ghost use Rattle.type_spellings.specs.Types.{array_of, number_of, tuple_of, type_of};
ghost use Rattle.value_kinds.specs.Kinds.{kinds_where};
ghost use Rattle.value_models.specs.ContainersView.{containers_in};
ghost use Rattle.value_types.specs.RowView.{held, plain_view};
ghost use Rattle.value_types.specs.ShapeView.{types_in};
ghost use Rattle.writing_laws.specs.Kinds.{may_read};

use syntax_trees::Ty;
use value_kinds::{Kind, ModelTable, TypeKinds};
use value_types::{Holder, Plain, Shape, is_number, shape_of};

fn plain_kinds(plain: Plain) -> TypeKinds
    ensures { (ms : List ContainerModel) → result ≡ kinds_where (λ k. may_read k ms (plain_view plain)) }
{
    match plain {
        Plain::Boolean => TypeKinds::only(Kind::Boolean),
        Plain::Whole { .. } | Plain::Signed { .. } => TypeKinds::only(Kind::Number),
        Plain::Text | Plain::Native(_) => TypeKinds::only(Kind::String),
        Plain::Any => TypeKinds::all(),
    }
}

// An option reads null beside what it holds, and a box what it holds.
fn held_kinds(holder: Holder, inner: TypeKinds) -> TypeKinds
    ensures { (ms : List ContainerModel) (t : TypeModel) → inner ≡ kinds_where (λ k. may_read k ms t) → result ≡ kinds_where (λ k. may_read k ms (held holder t)) }
{
    match holder {
        Holder::Optional => TypeKinds::only(Kind::Null).either(inner),
        Holder::Boxed => inner,
        Holder::List | Holder::Set => TypeKinds::only(Kind::Array),
    }
}

// No places are read as null.
#[tactic(auto, using(crate::proofs::Asked::many_places))]
fn tuple_kinds(parts: &[Ty]) -> TypeKinds
    ensures { (ms : List ContainerModel) → result ≡ kinds_where (λ k. may_read k ms (tuple_of (types (types_in parts.now)))) }
{
    match parts {
        [] => TypeKinds::only(Kind::Null),
        [_, ..] => TypeKinds::only(Kind::Array),
    }
}

// A length that is no number is no type's.
#[tactic(auto, using(crate::proofs::Asked::some_places, crate::proofs::Asked::no_places))]
fn array_kinds(digits: &str) -> TypeKinds
    ensures { (ms : List ContainerModel) (t : TypeModel) → result ≡ kinds_where (λ k. may_read k ms (array_of t (number_of digits.now))) }
{
    if is_number(digits.as_bytes()) {
        TypeKinds::only(Kind::Array)
    } else {
        TypeKinds::none()
    }
}

/// Which kinds the type may read.
#[tactic(auto, using(crate::proofs::Asked::read_as))]
pub(crate) fn kinds_of(table: &ModelTable, ty: &Ty) -> TypeKinds
    ensures { result ≡ kinds_where (λ k. may_read k (containers_in table.now.containers) (type_of (ty_view ty.now))) }
{
    match shape_of(ty) {
        Shape::Plain(plain) => plain_kinds(plain),
        Shape::Item(name) => table.item_kinds(name),
        Shape::Held(holder, inner) => held_kinds(holder, kinds_of(table, inner)),
        Shape::Map(_, _) => TypeKinds::only(Kind::Object),
        Shape::Tuple(parts) => tuple_kinds(parts),
        Shape::Array(_, digits) => array_kinds(digits),
        Shape::Outside => TypeKinds::none(),
    }
}
