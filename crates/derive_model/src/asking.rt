//! What a module says of itself.
ghost use Rattle.std.specs.Prelude.{◌≡◌, ◌↔◌, Bool, false, map};
ghost use Rattle.syntax_trees.specs.View.{ty as ty_view};
ghost use Rattle.conversion_table.specs.Conversions.{conversions_view};
ghost use Rattle.container_defs.specs.Forms.{names_of, is_known};
ghost use Rattle.type_spellings.specs.Types.{type_of};
ghost use Rattle.derive_ast.specs.Views.{container_view};
ghost use Rattle.evolve_defs.specs.Tables.{IsTame};
ghost use Rattle.example_laws.specs.Fitted.{IsFitted};
ghost use Rattle.model_defs.specs.Layer.{variant_content};
ghost use Rattle.model_defs.specs.Reach.{NoneReachesItself};
ghost use Rattle.value_kinds.specs.Kinds.{kinds_where};
ghost use Rattle.value_models.specs.ContainersView.{containers_in};
ghost use Rattle.value_models.specs.VariantView.{variant_view};
ghost use Rattle.writing_laws.specs.Kinds.{content_may_read, may_read, untagged_are_apart as all_apart};
ghost use Rattle.derive_model.specs.ModuleView.{items_in, models_in, conversions_in, containers_read};

use crate::kinds::kinds_of;
use crate::module::Module;
use apart_kinds::untagged_are_apart;
use attr_parts::Derive;
use conversion_table::Conversions;
use derive_ast::Container;
use syntax_trees::Ty;
use value_kinds::{ModelTable, TypeKinds};
use value_models::{Containers, Variant};

impl<'a> Module<'a> {
    /// The models of the items, in their order.
    pub fn models(&self) -> &Containers
        ensures models { containers_in result.now ≡ models_in self.now }
        ensures tame { IsTame (models_in self.now) }
        ensures fitted { IsFitted (models_in self.now) (conversions_in self.now) }
    {
        &self.table.containers
    }

    /// The models of the items, with what they ask of one value.
    pub fn table(&self) -> &ModelTable
        ensures { containers_in result.now.containers ≡ models_in self.now }
    {
        &self.table
    }

    /// What was read of the items for a derive: a container for each, in their order.
    pub fn containers(&self, derive: Derive) -> &[Container<'a>]
        ensures { map container_view result.now ≡ containers_read self.now derive }
    {
        match derive {
            Derive::Serialize => &self.written,
            Derive::Deserialize => &self.read,
        }
    }

    /// The table of conversions that was handed in.
    pub fn conversions(&self) -> &'a Conversions
        ensures { conversions_view result.now ≡ conversions_in self.now }
    {
        self.conversions
    }

    /// Whether the type names only built-in types and items. It takes no memory.
    pub fn knows(&self, ty: &Ty) -> bool
        ensures { result ≡ is_known (names_of (items_in self.now)) (type_of (ty_view ty.now)) }
    {
        self.names.knows(ty)
    }

    /// Whether some item reaches itself at one value: through newtypes, options, boxes and the variants of untagged enums.
    pub fn reaches_itself(&self) -> bool
        ensures { (result ≡ false) ↔ NoneReachesItself (models_in self.now) }
    {
        self.table.reaches_itself()
    }

    /// Which kinds of JSON values the type may read. It takes no memory.
    pub fn type_kinds(&self, ty: &Ty) -> TypeKinds
        ensures { result ≡ kinds_where (λ k. may_read k (models_in self.now) (type_of (ty_view ty.now))) }
    {
        kinds_of(&self.table, ty)
    }

    /// Which kinds the content of a variant of an enum may read. It takes no memory.
    pub fn content_kinds(&self, variant: &Variant) -> TypeKinds
        ensures { (closed : Bool) → result ≡ kinds_where (λ k. content_may_read k (models_in self.now) (variant_content closed (variant_view variant.now))) }
    {
        self.table.content_kinds(variant)
    }

    /// Whether no two variants of an untagged enum may read one kind of JSON value. Where they may, what is written of a value
    /// may be read as an earlier variant than the value was. It takes no memory.
    pub fn untagged_are_apart(&self) -> bool
        ensures { result ≡ all_apart (models_in self.now) }
    {
        untagged_are_apart(&self.table)
    }
}
