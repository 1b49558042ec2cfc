//! Modules of items.
ghost use Rattle.conversion_table.specs.Conversions.{conversions_view};
ghost use Rattle.evolve_defs.specs.Tables.{IsTame};
ghost use Rattle.example_laws.specs.Fitted.{IsFitted};
ghost use Rattle.form_laws.specs.Laws.{AreFit};
ghost use Rattle.value_models.specs.ContainersView.{containers_in};

use conversion_table::Conversions;
use derive_ast::Container;
use item_names::ItemNames;
use std::alloc::Global;
use value_kinds::ModelTable;

/// The models of items that are within the forms of the reader, the containers that were read of them for each derive, and the
/// table of conversions.
pub struct Module<'a> {
    pub(crate) alloc: Global,
    pub(crate) table: ModelTable,
    pub(crate) names: ItemNames<'a>,
    pub(crate) conversions: &'a Conversions,
    pub(crate) written: Vec<Container<'a>>,
    pub(crate) read: Vec<Container<'a>>,
    ghost fit: { AreFit (containers_in table.containers) },
    ghost tame: { IsTame (containers_in table.containers) },
    ghost fitted: { IsFitted (containers_in table.containers) (conversions_view conversions.now) },
}

impl Drop for Module<'_> {
    fn drop(self) {
        let Module {
            alloc: _,
            table: _table,
            names: _names,
            conversions: _,
            written: _written,
            read: _read,
        } = self;
    }
}
