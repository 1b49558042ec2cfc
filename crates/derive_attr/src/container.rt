//! The attributes of a container.
ghost use Rattle.std.specs.Prelude.{◌≡◌, ◌++◌, IfOk, OnOk, OnErr, option_map, unwrap_or, map};
ghost use Rattle.std.specs.List.{list_any};
ghost use Rattle.token_trees.specs.View.{trees};
ghost use Rattle.syntax_trees.specs.Item.{item_view, attribute_view, predicate_view};
ghost use Rattle.syntax_trees.specs.View.{ty, path_view};
ghost use Rattle.attr_parts.specs.Diagnostics.{diagnostics, TellsFront};
ghost use Rattle.attr_parts.specs.Names.{multi_name};
ghost use Rattle.attr_parts.specs.Values.{default_view, no_default, tag_view};
ghost use Rattle.attr_defs.specs.Container.{is_word_path, is_packing, is_non_exhaustive, tag_told, identifier_told, container_from, container_attrs, container_diagnostics};
ghost use Rattle.attr_defs.specs.Looks.{default_of, look};
ghost use Rattle.attr_defs.specs.Metas.{is_text};
ghost use Rattle.attr_defs.specs.Texts.{lexed};
ghost use Rattle.attr_acts.specs.Views.{slot_view};
ghost use Rattle.attr_acts.specs.Kept.{values_in};
ghost use Rattle.derive_attr.specs.ContainerView.{container_view};

use crate::name::container_names;
use crate::tag::{decide_identifier, decide_tag, tell_identifier, tell_tags};
use attr_acts::{Settings, Slot, is_symbol};
use attr_parts::{
    BOUND, CRATE, Ctxt, DEFAULT, DENY_UNKNOWN_FIELDS, Default, EXPECTING, FROM, INTO, Identifier,
    MultiName, NON_EXHAUSTIVE, REMOTE, RENAME_ALL, RENAME_ALL_FIELDS, REPR, RenameAllRules,
    TRANSPARENT, TRY_FROM, TagType,
};
use attr_rows::{Owner, settings_of};
use std::alloc::{AllocError, Global};
use syntax_trees::{Attribute, DeriveInput, Meta, Path, Ty, WherePredicate};
use token_trees::{Symbol, TokenTree};

/// The attributes of a container: what is decided of all of them, and the settings by their slots.
#[derive(Drop)]
pub struct Container {
    name: MultiName,
    default: Default,
    tag: TagType,
    identifier: Identifier,
    is_packed: bool,
    non_exhaustive: bool,
    settings: Settings,
}

/// A copy of the default.
pub fn copy_default(alloc: Global, default: &Default) -> Result<Default, AllocError>
    ensures { IfOk result (λ d. default_view d ≡ default_view default.now) }
{
    match default {
        Default::None => Ok(Default::None),
        Default::Default => Ok(Default::Default),
        Default::Path(path) => Ok(Default::Path(path.try_clone(alloc)?)),
    }
}

/// The default that the slot has, or none.
pub fn default_or_none(
    alloc: Global,
    settings: &Settings,
    slot: Slot,
) -> Result<Default, AllocError>
    ensures { IfOk result (λ d. default_view d ≡ unwrap_or (look default_of (values_in settings.now (slot_view slot))) no_default) }
{
    match settings.default(slot) {
        Some(default) => copy_default(alloc, default),
        None => Ok(Default::None),
    }
}

// Whether the name stands among the tokens.
fn has_symbol(tokens: &[TokenTree], symbol: Symbol) -> bool
    ensures { result ≡ list_any (is_text symbol.0.now) (trees tokens.now) }
{
    for token in tokens {
        if is_symbol(token, symbol) {
            return true;
        }
    }
    false
}

// Whether the path is that name alone.
#[tactic(auto, using(crate::proofs::Words::word_is))]
fn is_word(path: &Path, symbol: Symbol) -> bool
    ensures { result ≡ is_word_path symbol.0.now (path_view path.now) }
{
    path.is(symbol)
}

// Whether the attribute is a `repr` with `packed`.
fn is_packing(attribute: &Attribute) -> bool
    ensures { result ≡ is_packing (attribute_view attribute.now) }
{
    match &attribute.meta {
        Meta::Path(_) => false,
        Meta::List { path, tokens, .. } => {
            is_word(path, REPR) && has_symbol(tokens.trees(), Symbol("packed"))
        }
        Meta::NameValue { .. } => false,
    }
}

// Whether one of the attributes is.
fn is_packed(attributes: &[Attribute]) -> bool
    ensures { result ≡ list_any is_packing (map attribute_view attributes.now) }
{
    for attribute in attributes {
        if is_packing(attribute) {
            return true;
        }
    }
    false
}

// Whether the attribute is `non_exhaustive` alone.
fn is_non_exhaustive(attribute: &Attribute) -> bool
    ensures { result ≡ is_non_exhaustive (attribute_view attribute.now) }
{
    match &attribute.meta {
        Meta::Path(path) => is_word(path, NON_EXHAUSTIVE),
        Meta::List { .. } => false,
        Meta::NameValue { .. } => false,
    }
}

// Whether one of the attributes is.
fn non_exhaustive(attributes: &[Attribute]) -> bool
    ensures { result ≡ list_any is_non_exhaustive (map attribute_view attributes.now) }
{
    for attribute in attributes {
        if is_non_exhaustive(attribute) {
            return true;
        }
    }
    false
}

// What the settings and the item say together.
#[tactic(auto, using(crate::proofs::Containers::same_attrs))]
fn decided(alloc: Global, item: &DeriveInput, settings: Settings) -> Result<Container, AllocError>
    ensures { IfOk result (λ c. container_view c ≡ container_from (item_view item.now) (values_in settings)) }
{
    Ok(Container {
        name: container_names(alloc, &settings, &item.ident)?,
        default: default_or_none(alloc, &settings, Slot::whole(DEFAULT))?,
        tag: decide_tag(alloc, &settings)?,
        identifier: decide_identifier(&item.body, &settings),
        is_packed: is_packed(&item.attrs),
        non_exhaustive: non_exhaustive(&item.attrs),
        settings,
    })
}

// What is told of all attributes together.
#[tactic(auto, using(attr_parts::proofs::Steps::tells_more, attr_parts::proofs::Steps::tells_later))]
fn tell_whole(cx: &mut Ctxt, item: &DeriveInput, settings: &Settings) -> Result<(), AllocError>
    ensures ok { OnOk result (diagnostics cx.new ≡ diagnostics cx.old ++ (tag_told (item_view item.now).body (values_in settings.now) ++ identifier_told (item_view item.now).body (values_in settings.now))) }
    ensures err { OnErr result (TellsFront (diagnostics cx.old) (diagnostics cx.new) (tag_told (item_view item.now).body (values_in settings.now) ++ identifier_told (item_view item.now).body (values_in settings.now))) }
{
    tell_tags(cx, &item.body, settings)?;
    tell_identifier(cx, &item.body, settings)?;
    Ok(())
}

impl Container {
    /// Reads the container's attributes; what is wrong with them is appended to `cx` in order. Where memory runs out, a front
    /// of that is appended.
    #[tactic(auto, using(crate::proofs::Containers::told_whole, crate::proofs::Containers::front_first, crate::proofs::Containers::front_last, attr_parts::proofs::Steps::tells_all))]
    pub fn from_ast(
        alloc: Global,
        cx: &mut Ctxt,
        item: &DeriveInput,
    ) -> Result<Container, AllocError>
        ensures attrs { IfOk result (λ c. container_view c ≡ container_attrs lexed (item_view item.now)) }
        ensures told { OnOk result (diagnostics cx.new ≡ diagnostics cx.old ++ container_diagnostics lexed (item_view item.now)) }
        ensures err { OnErr result (TellsFront (diagnostics cx.old) (diagnostics cx.new) (container_diagnostics lexed (item_view item.now))) }
    {
        let settings = settings_of(alloc, cx, Owner::Container(item), &item.attrs)?;
        tell_whole(cx, item, &settings)?;
        let container = decided(alloc, item, settings)?;
        Ok(container)
    }

    /// The names that are written and read.
    pub fn name(&self) -> &MultiName
        ensures { multi_name result.now ≡ (container_view self.now).name }
    {
        &self.name
    }

    /// What fields are that are left out.
    pub fn default(&self) -> &Default
        ensures { default_view result.now ≡ (container_view self.now).default }
    {
        &self.default
    }

    /// How the variants are told.
    pub fn tag(&self) -> &TagType
        ensures { tag_view result.now ≡ (container_view self.now).tag }
    {
        &self.tag
    }

    /// Whether a `repr` attribute packs the item.
    pub fn is_packed(&self) -> bool
        ensures { result ≡ (container_view self.now).is_packed }
    {
        self.is_packed
    }

    /// Whether the enum is read as an identifier, and of what.
    pub fn identifier(&self) -> Identifier
        ensures { result ≡ (container_view self.now).identifier }
    {
        self.identifier
    }

    /// Whether the item is `non_exhaustive`.
    pub fn non_exhaustive(&self) -> bool
        ensures { result ≡ (container_view self.now).non_exhaustive }
    {
        self.non_exhaustive
    }

    /// The rules for the names of variants or fields.
    pub fn rename_all_rules(&self) -> RenameAllRules
        ensures { result ≡ (container_view self.now).rename_all }
    {
        self.settings.rules(RENAME_ALL)
    }

    /// The rules for the names of the fields of variants.
    pub fn rename_all_fields_rules(&self) -> RenameAllRules
        ensures { result ≡ (container_view self.now).rename_all_fields }
    {
        self.settings.rules(RENAME_ALL_FIELDS)
    }

    /// Whether the container is written and read as its one field.
    pub fn transparent(&self) -> bool
        ensures { result ≡ (container_view self.now).transparent }
    {
        self.settings.is_set(Slot::whole(TRANSPARENT))
    }

    /// Whether members without a field are refused.
    pub fn deny_unknown_fields(&self) -> bool
        ensures { result ≡ (container_view self.now).deny_unknown_fields }
    {
        self.settings.is_set(Slot::whole(DENY_UNKNOWN_FIELDS))
    }

    /// The predicates that stand in the place of those of `Serialize`, where an attribute gives them.
    pub fn ser_bound(&self) -> Option<&[WherePredicate]>
        ensures { option_map (λ v. map predicate_view v.now) result ≡ (container_view self.now).ser_bound }
    {
        self.settings.predicates(Slot::written(BOUND))
    }

    /// The predicates that stand in the place of those of `Deserialize`, where an attribute gives them.
    pub fn de_bound(&self) -> Option<&[WherePredicate]>
        ensures { option_map (λ v. map predicate_view v.now) result ≡ (container_view self.now).de_bound }
    {
        self.settings.predicates(Slot::read(BOUND))
    }

    /// The type that is read in the container's place, and converted.
    pub fn type_from(&self) -> Option<&Ty>
        ensures { option_map (λ t. ty t.now) result ≡ (container_view self.now).type_from }
    {
        self.settings.ty(Slot::whole(FROM))
    }

    /// The type that is read in the container's place, and may be refused.
    pub fn type_try_from(&self) -> Option<&Ty>
        ensures { option_map (λ t. ty t.now) result ≡ (container_view self.now).type_try_from }
    {
        self.settings.ty(Slot::whole(TRY_FROM))
    }

    /// The type that is written in the container's place.
    pub fn type_into(&self) -> Option<&Ty>
        ensures { option_map (λ t. ty t.now) result ≡ (container_view self.now).type_into }
    {
        self.settings.ty(Slot::whole(INTO))
    }

    /// The path of the type that the container stands for.
    pub fn remote(&self) -> Option<&Path>
        ensures { option_map (λ p. path_view p.now) result ≡ (container_view self.now).remote }
    {
        self.settings.path(Slot::whole(REMOTE))
    }

    /// The path by which serde is named.
    pub fn custom_serde_path(&self) -> Option<&Path>
        ensures { option_map (λ p. path_view p.now) result ≡ (container_view self.now).serde_path }
    {
        self.settings.path(Slot::whole(CRATE))
    }

    /// What a reader says that it expects.
    pub fn expecting(&self) -> Option<&str>
        ensures { option_map (λ t. t.now) result ≡ (container_view self.now).expecting }
    {
        self.settings.plain(Slot::whole(EXPECTING))
    }
}
