//! Types that name a native one.
ghost use Rattle.std.specs.Prelude.{◌≡◌};
ghost use Rattle.model_defs.specs.Types.{types};
ghost use Rattle.value_models.specs.TypeView.{type_view, types_view};
ghost use Rattle.example_defs.specs.Outside.{names_native as names_native_in, name_native as name_native_in};

use value_models::ValueType;

/// Whether a native type is named in the type.
#[cycle(native)]
pub fn names_native(ty: &ValueType) -> bool
    ensures { result ≡ names_native_in (type_view ty.now) }
{
    match ty {
        ValueType::Native(_) => true,
        ValueType::Optional(inner) | ValueType::Boxed(inner) => names_native(inner),
        ValueType::List(inner) | ValueType::Set(inner) | ValueType::Array(inner, _) => {
            names_native(inner)
        }
        ValueType::Map(key, value) => names_native(key) || names_native(value),
        ValueType::Tuple(parts) => name_native(parts),
        _ => false,
    }
}

#[cycle(native)]
#[tactic(auto, using(crate::proofs::NativeTypes::other_turn, crate::proofs::NativeTypes::native_turn, crate::proofs::NativeTypes::native_end))]
fn name_native(tys: &[ValueType]) -> bool
    ensures { result ≡ name_native_in (types (types_view tys.now)) }
{
    for ty in tys {
        if names_native(ty) {
            return true;
        }
    }
    false
}
