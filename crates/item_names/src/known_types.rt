//! Types that name only built-in types and items.
ghost use Rattle.std.specs.Prelude.{◌≡◌, map};
ghost use Rattle.syntax_trees.specs.Item.{item_view};
ghost use Rattle.syntax_trees.specs.View.{ty as ty_view};
ghost use Rattle.type_spellings.specs.Types.{type_of};
ghost use Rattle.model_defs.specs.Types.{types};
ghost use Rattle.value_types.specs.ShapeView.{types_in};
ghost use Rattle.container_defs.specs.Forms.{names_of, is_known, are_known};

use crate::entered::ItemNames;
use syntax_trees::Ty;
use value_types::{Shape, is_number, shape_of};

impl ItemNames<'_> {
    /// Whether the type names only built-in types and items. It takes no memory.
    pub fn knows(&self, ty: &Ty) -> bool
        ensures { result ≡ is_known (names_of (map item_view self.now.items.now)) (type_of (ty_view ty.now)) }
    {
        knows(self, ty)
    }
}

#[cycle(knows)]
fn knows(names: &ItemNames<'_>, ty: &Ty) -> bool
    ensures { result ≡ is_known (names_of (map item_view names.now.items.now)) (type_of (ty_view ty.now)) }
{
    match shape_of(ty) {
        Shape::Plain(_) => true,
        Shape::Item(name) => names.has(name),
        Shape::Held(_, inner) => knows(names, inner),
        Shape::Map(key, value) => knows(names, key) && knows(names, value),
        Shape::Tuple(parts) => know_all(names, parts),
        Shape::Array(inner, digits) => is_number(digits.as_bytes()) && knows(names, inner),
        Shape::Outside => false,
    }
}

#[cycle(knows)]
fn know_all(names: &ItemNames<'_>, tys: &[Ty]) -> bool
    ensures { result ≡ are_known (names_of (map item_view names.now.items.now)) (types (types_in tys.now)) }
{
    for ty in tys {
        if !knows(names, ty) {
            return false;
        }
    }
    true
}
