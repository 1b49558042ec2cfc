//! Whether a new module reads what an old one writes.
ghost use Rattle.std.specs.Prelude.{◌≡◌, ◌↔◌, true, IfOk};
ghost use Rattle.syntax_trees.specs.View.{ty as ty_view};
ghost use Rattle.type_spellings.specs.Types.{type_of};
ghost use Rattle.container_defs.specs.Forms.{is_known, names_of};
ghost use Rattle.describe_defs.specs.Plain.{IsPlainTable};
ghost use Rattle.model_defs.specs.Reach.{NoneReachesItself};
ghost use Rattle.derive_model.specs.ModuleView.{conversions_in, items_in, models_in};
ghost use Rattle.evolve_defs.specs.Forms.{a_type};
ghost use Rattle.evolve_defs.specs.Covers.{Covers};
ghost use Rattle.evolve_rows.specs.PlaceView.{table_view};
ghost use Rattle.value_models.specs.TypeView.{type_view};
ghost use Rattle.model_evolve.specs.Answer.{AreKept, IsBroken, IsFound, IsLedTo, table_in};
ghost use Rattle.model_evolve.specs.declared.node.Covered.TheVariants.{Yes};

use crate::finding::answer_of;
use crate::node::Covered;
use derive_model::Module;
use evolve_rows::{Pair, Place, Table, Tables};
use evolve_walks::walk_from;
use std::alloc::{AllocError, Global};
use syntax_trees::Ty;
use value_models::ValueType;
use value_types::value_type;

// What the walk from two types comes to.
fn compared<'a>(
    tables: &Tables<'a>,
    old_root: &'a ValueType,
    new_root: &'a ValueType,
) -> Result<Covered, AllocError>
    ensures answer { IfOk result (IsFound (table_view tables.now.old) (type_view old_root.now) (table_view tables.now.new) (type_view new_root.now)) }
    ensures way { IfOk result (IsLedTo (table_view tables.now.old) (type_view old_root.now) (table_view tables.now.new) (type_view new_root.now)) }
{
    let start = Pair {
        old: Place::Of(old_root),
        new: Place::Of(new_root),
    };
    let walked = walk_from(tables, start)?;
    let answer = answer_of(tables.alloc, tables, &walked)?;
    Ok(answer)
}

// The same of the types that the roots are taken for.
fn asked(
    alloc: Global,
    old: &Module<'_>,
    old_root: &Ty,
    new: &Module<'_>,
    new_root: &Ty,
) -> Result<Covered, AllocError>
    ensures answer { IfOk result (IsFound (table_in old.now) (type_of (ty_view old_root.now)) (table_in new.now) (type_of (ty_view new_root.now))) }
    ensures way { IfOk result (IsLedTo (table_in old.now) (type_of (ty_view old_root.now)) (table_in new.now) (type_of (ty_view new_root.now))) }
{
    let from = value_type(alloc, old_root)?;
    let to = value_type(alloc, new_root)?;
    let tables = Tables {
        alloc,
        old: Table {
            models: old.table(),
            conversions: old.conversions(),
        },
        new: Table {
            models: new.table(),
            conversions: new.conversions(),
        },
    };
    let answer = compared(&tables, &from, &to)?;
    Ok(answer)
}

/// Whether the new module reads, as the new root, what the old one writes of the old root. Pairs of types and contents are taken depth
/// first, each once, and the first that breaks a rule is carried, with the way to it. It fails where memory runs out.
pub fn covers(
    alloc: Global,
    old: &Module<'_>,
    old_root: &Ty,
    new: &Module<'_>,
    new_root: &Ty,
) -> Result<Covered, AllocError>
    requires old_known { is_known (names_of (items_in old.now)) (type_of (ty_view old_root.now)) ≡ true }
    requires new_known { is_known (names_of (items_in new.now)) (type_of (ty_view new_root.now)) ≡ true }
    requires old_ends { NoneReachesItself (models_in old.now) }
    requires new_ends { NoneReachesItself (models_in new.now) }
    ensures answer { IfOk result (IsFound (table_in old.now) (type_of (ty_view old_root.now)) (table_in new.now) (type_of (ty_view new_root.now))) }
    ensures yes { IfOk result (AreKept (table_in old.now) (type_of (ty_view old_root.now)) (table_in new.now) (type_of (ty_view new_root.now))) }
    ensures no { IfOk result (IsBroken (table_in old.now) (type_of (ty_view old_root.now)) (table_in new.now) (type_of (ty_view new_root.now))) }
    ensures way { IfOk result (IsLedTo (table_in old.now) (type_of (ty_view old_root.now)) (table_in new.now) (type_of (ty_view new_root.now))) }
    ensures exact { IfOk result (λ c. (c ≡ Yes) ↔ Covers (table_in old.now) (table_in new.now) (a_type (type_of (ty_view old_root.now))) (a_type (type_of (ty_view new_root.now)))) }
    ensures plain { table_in old.now ≡ table_in new.now → type_of (ty_view old_root.now) ≡ type_of (ty_view new_root.now) → IsPlainTable (models_in old.now) (conversions_in old.now) (type_of (ty_view old_root.now)) → IfOk result (λ c. c ≡ Yes) }
{
    let answer = asked(alloc, old, old_root, new, new_root)?;
    Ok(answer)
}
