//! The attributes of a variant.
ghost use Rattle.std.specs.Prelude.{◌≡◌, ◌++◌, IfOk, OnOk, OnErr, option_map, map};
ghost use Rattle.std.specs.BTreeSet.{keys};
ghost use Rattle.syntax_trees.specs.Item.{predicate_view, variant_view as item_view};
ghost use Rattle.syntax_trees.specs.View.{expr_path_view};
ghost use Rattle.attr_parts.specs.Diagnostics.{diagnostics, TellsFront};
ghost use Rattle.attr_parts.specs.Names.{attr_name, multi_name};
ghost use Rattle.attr_defs.specs.Members.{variant_attrs, variant_diagnostics};
ghost use Rattle.attr_defs.specs.Renames.{variant_renamed};
ghost use Rattle.attr_defs.specs.Texts.{lexed};
ghost use Rattle.attr_acts.specs.Views.{setting_view};
ghost use Rattle.derive_attr.specs.MemberViews.{variant_view};

use crate::name::own_name;
use crate::names::member_names;
use crate::rename::rename_variant;
use attr_acts::{Setting, Settings, Slot};
use attr_parts::{
    BORROW, BOUND, Ctxt, DESERIALIZE_WITH, MultiName, Name, OTHER, RENAME_ALL, RenameAllRules,
    Renamer, SERIALIZE_WITH, SKIP_DESERIALIZING, SKIP_SERIALIZING, UNTAGGED,
};
use attr_rows::{Owner, settings_of};
use std::alloc::{AllocError, Global};
use std::collections::BTreeSet;
use syntax_trees::{ExprPath, WherePredicate};

/// The attributes of a variant: its names, and the settings by their slots.
#[derive(Drop)]
pub struct Variant {
    name: MultiName,
    settings: Settings,
}

impl Variant {
    /// Reads the variant's attributes; what is wrong with them is appended to `cx` in order. Where memory runs out, a front of
    /// that is appended.
    #[tactic(auto, using(attr_parts::proofs::Steps::tells_all))]
    pub fn from_ast(
        alloc: Global,
        cx: &mut Ctxt,
        variant: &syntax_trees::Variant,
    ) -> Result<Variant, AllocError>
        ensures attrs { IfOk result (λ v. variant_view v ≡ variant_attrs lexed (item_view variant.now)) }
        ensures told { OnOk result (diagnostics cx.new ≡ diagnostics cx.old ++ variant_diagnostics lexed (item_view variant.now)) }
        ensures err { OnErr result (TellsFront (diagnostics cx.old) (diagnostics cx.new) (variant_diagnostics lexed (item_view variant.now))) }
    {
        let settings = settings_of(alloc, cx, Owner::Variant(variant), &variant.attrs)?;
        let own = own_name(alloc, &variant.ident)?;
        let name = member_names(alloc, &settings, &own)?;
        Ok(Variant { name, settings })
    }

    /// The names that are written and read.
    pub fn name(&self) -> &MultiName
        ensures { multi_name result.now ≡ (variant_view self.now).name }
    {
        &self.name
    }

    /// The other names that are read.
    pub fn aliases(&self) -> &BTreeSet<Name>
        ensures { map attr_name (keys result.now) ≡ (variant_view self.now).name.aliases }
    {
        self.name.deserialize_aliases()
    }

    /// The rules for the names of the variant's fields.
    pub fn rename_all_rules(&self) -> RenameAllRules
        ensures { result ≡ (variant_view self.now).rename_all }
    {
        self.settings.rules(RENAME_ALL)
    }

    /// The predicates that stand in the place of those of `Serialize`, where an attribute gives them.
    pub fn ser_bound(&self) -> Option<&[WherePredicate]>
        ensures { option_map (λ v. map predicate_view v.now) result ≡ (variant_view self.now).ser_bound }
    {
        self.settings.predicates(Slot::written(BOUND))
    }

    /// The predicates that stand in the place of those of `Deserialize`, where an attribute gives them.
    pub fn de_bound(&self) -> Option<&[WherePredicate]>
        ensures { option_map (λ v. map predicate_view v.now) result ≡ (variant_view self.now).de_bound }
    {
        self.settings.predicates(Slot::read(BOUND))
    }

    /// Whether the variant is never read.
    pub fn skip_deserializing(&self) -> bool
        ensures { result ≡ (variant_view self.now).skip_deserializing }
    {
        self.settings.is_set(Slot::whole(SKIP_DESERIALIZING))
    }

    /// Whether the variant is never written.
    pub fn skip_serializing(&self) -> bool
        ensures { result ≡ (variant_view self.now).skip_serializing }
    {
        self.settings.is_set(Slot::whole(SKIP_SERIALIZING))
    }

    /// Whether the variant is read where no other is.
    pub fn other(&self) -> bool
        ensures { result ≡ (variant_view self.now).other }
    {
        self.settings.is_set(Slot::whole(OTHER))
    }

    /// Whether nothing tells the variant.
    pub fn untagged(&self) -> bool
        ensures { result ≡ (variant_view self.now).untagged }
    {
        self.settings.is_set(Slot::whole(UNTAGGED))
    }

    /// The function that writes the variant.
    pub fn serialize_with(&self) -> Option<&ExprPath>
        ensures { option_map (λ p. expr_path_view p.now) result ≡ (variant_view self.now).serialize_with }
    {
        self.settings.function(Slot::whole(SERIALIZE_WITH))
    }

    /// The function that reads the variant.
    pub fn deserialize_with(&self) -> Option<&ExprPath>
        ensures { option_map (λ p. expr_path_view p.now) result ≡ (variant_view self.now).deserialize_with }
    {
        self.settings.function(Slot::whole(DESERIALIZE_WITH))
    }

    /// What the variant hands on to its one field to borrow.
    pub(crate) fn borrow(&self) -> Option<&Setting>
        ensures { option_map (λ s. setting_view s.now) result ≡ (variant_view self.now).borrow }
    {
        self.settings.get(Slot::whole(BORROW))
    }

    /// Each half that no attribute names takes the renamer's text, and the name that is read joins the others that are read. Where
    /// memory runs out, nothing changes.
    pub fn rename_by_rules<R: Renamer>(
        &mut self,
        rules: RenameAllRules,
        renamer: &R,
    ) -> Result<(), AllocError>
        ensures ok { OnOk result (variant_view self.new ≡ variant_renamed R.variant_name rules (variant_view self.old)) }
        ensures err { OnErr result (variant_view self.new ≡ variant_view self.old) }
    {
        rename_variant(&mut self.name, rules, renamer)
    }
}
