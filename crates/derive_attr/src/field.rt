//! The attributes of a field.
ghost use Rattle.std.specs.Prelude.{◌≡◌, ◌++◌, [], IfOk, OnOk, OnErr, option_map, unwrap_or, map, codes, true};
ghost use Rattle.std.specs.BTreeSet.{keys};
ghost use Rattle.token_trees.specs.View.{name_view};
ghost use Rattle.syntax_trees.specs.Item.{predicate_view, field_view as item_view};
ghost use Rattle.syntax_trees.specs.View.{expr_path_view, segment_view, ty};
ghost use Rattle.attr_parts.specs.Diagnostics.{diagnostics, TellsFront};
ghost use Rattle.attr_parts.specs.Lifetimes.{lifetimes};
ghost use Rattle.attr_parts.specs.Names.{attr_name, multi_name};
ghost use Rattle.attr_parts.specs.Values.{default_view};
ghost use Rattle.attr_defs.specs.Looks.{lifetimes_of, look};
ghost use Rattle.attr_defs.specs.Members.{field_name, handed_on, field_default, cow_function, cow_by, reader_of, held_by, field_attrs, field_diagnostics};
ghost use Rattle.attr_defs.specs.Renames.{field_renamed};
ghost use Rattle.attr_defs.specs.Texts.{lexed};
ghost use Rattle.std.specs.Fmt.{decimal};
ghost use Rattle.token_trees.specs.Token.{site};
ghost use Rattle.attr_acts.specs.Views.{acts_view, setting_view, value_view};
ghost use Rattle.derive_attr.specs.FieldView.{field_view, field_by, handed_view};
ghost use Rattle.attr_acts.specs.Kept.{values_in};
ghost use Rattle.attr_defs.specs.Owners.{whole, of_field};
ghost use Rattle.attr_defs.specs.Rows.{all_acts};
ghost use Rattle.syntax_trees.specs.Syntax.{segment, no_arguments};

use crate::container::copy_default;
use crate::name::own_name;
use crate::names::member_names;
use crate::rename::rename_field;
use crate::variant::Variant;
use attr_acts::{Act, Setting, Settings, Slot, Value, perform};
use attr_parts::{
    BORROW, BOUND, Ctxt, DEFAULT, DESERIALIZE_WITH, Default, Elem, FLATTEN, GETTER, MultiName,
    Name, RenameAllRules, Renamer, SERIALIZE_WITH, SKIP_DESERIALIZING, SKIP_SERIALIZING,
    SKIP_SERIALIZING_IF, is_cow, is_implicitly_borrowed,
};
use attr_rows::{Owner, all_acts, borrow_field, copy_lifetimes, lifetimes_of_type};
use std::alloc::{AllocError, Global};
use std::collections::BTreeSet;
use syntax_trees::{ExprPath, Lifetime, Path, PathArguments, PathSegment, Ty, WherePredicate};
use token_trees::{Ident, Span};

/// The attributes of a field: what is decided of all of them, and the settings by their slots.
#[derive(Drop)]
pub struct Field {
    name: MultiName,
    default: Default,
    deserialize_with: Option<ExprPath>,
    borrowed: BTreeSet<Lifetime>,
    transparent: bool,
    settings: Settings,
}

// The number as a name.
fn number_name(alloc: Global, index: usize) -> Result<Name, AllocError>
    ensures { IfOk result (λ n. attr_name n ≡ record { text = decimal index; span = site }) }
{
    Ok(Name {
        value: format!(in alloc; "{index}")?,
        span: Span::call_site(),
    })
}

// The field's name without `r#`, or its number.
fn field_name(alloc: Global, field: &syntax_trees::Field, index: usize) -> Result<Name, AllocError>
    ensures { IfOk result (λ n. attr_name n ≡ field_name (item_view field.now) index) }
{
    match &field.ident {
        Some(ident) => own_name(alloc, ident),
        None => number_name(alloc, index),
    }
}

// A copy of what a variant hands on.
fn handed_copy(alloc: Global, value: &Value) -> Result<Option<BTreeSet<Lifetime>>, AllocError>
    ensures { IfOk result (λ o. option_map lifetimes o ≡ lifetimes_of (value_view value.now)) }
{
    match value {
        Value::Lifetimes(set) => Ok(Some(copy_lifetimes(alloc, set)?)),
        _ => Ok(None),
    }
}

// What the field's variant hands on to be borrowed.
fn borrow_handed(
    alloc: Global,
    acts: &mut Vec<Act>,
    field: &syntax_trees::Field,
    name: &Name,
    borrow: Option<&Setting>,
) -> Result<(), AllocError>
    ensures { OnOk result (acts_view acts.new.items ≡ acts_view acts.old.items ++ handed_on (item_view field.now) (attr_name name.now) (option_map (λ s. setting_view s.now) borrow.entry)) }
{
    match borrow {
        Some(setting) => {
            let given = handed_copy(alloc, &setting.value)?;
            borrow_field(alloc, acts, field, name, setting.at, given)
        }
        None => Ok(()),
    }
}

// What the field's attributes do, after what its variant hands on.
fn acts_of_field(
    alloc: Global,
    field: &syntax_trees::Field,
    name: &Name,
    borrow: Option<&Setting>,
) -> Result<Vec<Act>, AllocError>
    ensures { IfOk result (λ v. acts_view v.items ≡ handed_on (item_view field.now) (attr_name name.now) (option_map (λ s. setting_view s.now) borrow.entry) ++ all_acts lexed (of_field (item_view field.now) (attr_name name.now)) (item_view field.now).attrs) }
{
    let mut acts = Vec::new(alloc);
    borrow_handed(alloc, &mut acts, field, name, borrow)?;
    all_acts(alloc, &mut acts, Owner::Field(field, name), &field.attrs)?;
    Ok(acts)
}

// A segment of that name, which no text shows.
fn segment(alloc: Global, text: &str) -> Result<PathSegment, AllocError>
    ensures { IfOk result (λ s. segment_view s ≡ segment (record { text = text.now; span = site }) no_arguments) }
{
    Ok(PathSegment {
        ident: Ident {
            text: String::from_str(alloc, text)?,
            span: Span::call_site(),
        },
        arguments: PathArguments::None,
    })
}

// That name as a segment.
fn private_segment(alloc: Global, private: &Ident) -> Result<PathSegment, AllocError>
    ensures { IfOk result (λ s. segment_view s ≡ segment (name_view private.now) no_arguments) }
{
    Ok(PathSegment {
        ident: private.try_clone(alloc)?,
        arguments: PathArguments::None,
    })
}

// The function of that name that borrows a `Cow`.
fn cow_function(alloc: Global, private: &Ident, name: &str) -> Result<ExprPath, AllocError>
    ensures { IfOk result (λ p. expr_path_view p ≡ cow_function (name_view private.now) name.now) }
{
    let mut segments = Vec::with_capacity(alloc, 4)?;
    segments.push(segment(alloc, "_serde")?)?;
    segments.push(private_segment(alloc, private)?)?;
    segments.push(segment(alloc, "de")?)?;
    segments.push(segment(alloc, name)?)?;
    Ok(ExprPath {
        qself: None,
        path: Path {
            leading: false,
            segments,
        },
    })
}

// The function that borrows the type, where that is a `Cow`.
fn cow_by(alloc: Global, private: &Ident, tree: &Ty) -> Result<Option<ExprPath>, AllocError>
    ensures { IfOk result (λ o. option_map expr_path_view o ≡ cow_by (name_view private.now) (ty tree.now)) }
{
    if is_cow(tree, Elem::Str) {
        return Ok(Some(cow_function(alloc, private, "borrow_cow_str")?));
    }
    if is_cow(tree, Elem::SliceU8) {
        return Ok(Some(cow_function(alloc, private, "borrow_cow_bytes")?));
    }
    Ok(None)
}

// The function that reads the field: the one that is set, or one that borrows a `Cow` where lifetimes are held.
fn reader_of(
    alloc: Global,
    function: Option<&ExprPath>,
    held: &BTreeSet<Lifetime>,
    private: &Ident,
    tree: &Ty,
) -> Result<Option<ExprPath>, AllocError>
    ensures { IfOk result (λ o. option_map expr_path_view o ≡ reader_of (option_map (λ p. expr_path_view p.now) function.entry) (lifetimes held.now) (name_view private.now) (ty tree.now)) }
{
    match function {
        Some(function) => Ok(Some(function.try_clone(alloc)?)),
        None => {
            if held.is_empty() {
                return Ok(None);
            }
            cow_by(alloc, private, tree)
        }
    }
}

// The lifetimes that are asked for.
fn asked(alloc: Global, settings: &Settings) -> Result<BTreeSet<Lifetime>, AllocError>
    ensures { IfOk result (λ s. lifetimes s ≡ unwrap_or (look lifetimes_of (values_in settings.now (whole (codes "borrow")))) []) }
{
    match settings.lifetimes(Slot::whole(BORROW)) {
        Some(set) => copy_lifetimes(alloc, set),
        None => Ok(BTreeSet::new(alloc)),
    }
}

// What is held: what is asked for, or else the lifetimes of a type that borrows without being asked.
fn held_by(
    alloc: Global,
    asked: BTreeSet<Lifetime>,
    tree: &Ty,
) -> Result<BTreeSet<Lifetime>, AllocError>
    ensures { IfOk result (λ s. lifetimes s ≡ held_by (lifetimes asked) (ty tree.now)) }
{
    if asked.is_empty() && is_implicitly_borrowed(tree) {
        return lifetimes_of_type(alloc, tree);
    }
    Ok(asked)
}

// The default of a field: its own, or its type's where it is never read and the container has none.
fn field_default(
    alloc: Global,
    own: Option<&Default>,
    skipped: bool,
    container: &Default,
) -> Result<Default, AllocError>
    ensures { IfOk result (λ d. default_view d ≡ field_default (option_map (λ x. default_view x.now) own.entry) skipped (default_view container.now)) }
{
    match own {
        Some(default) => copy_default(alloc, default),
        None => {
            if skipped && container.is_none() {
                return Ok(Default::Default);
            }
            Ok(Default::None)
        }
    }
}

// What a variant hands on.
fn handed(attrs: Option<&Variant>) -> Option<&Setting>
    ensures { option_map (λ s. setting_view s.now) result ≡ handed_view attrs.entry }
{
    match attrs {
        Some(attrs) => attrs.borrow(),
        None => None,
    }
}

// What the settings and the field say together.
fn decided(
    alloc: Global,
    field: &syntax_trees::Field,
    name: &Name,
    container_default: &Default,
    private: &Ident,
    settings: Settings,
) -> Result<Field, AllocError>
    ensures { IfOk result (λ f. field_view f ≡ field_by (item_view field.now) (attr_name name.now) (default_view container_default.now) (name_view private.now) (values_in settings) (map attr_name settings.names.items)) }
{
    let held = asked(alloc, &settings)?;
    let skipped = settings.is_set(Slot::whole(SKIP_DESERIALIZING));
    let function = settings.function(Slot::whole(DESERIALIZE_WITH));
    let deserialize_with = reader_of(alloc, function, &held, private, &field.ty)?;
    let own = settings.default(Slot::whole(DEFAULT));
    let default = field_default(alloc, own, skipped, container_default)?;
    Ok(Field {
        name: member_names(alloc, &settings, name)?,
        default,
        deserialize_with,
        borrowed: held_by(alloc, held, &field.ty)?,
        transparent: false,
        settings,
    })
}

impl Field {
    /// Reads the attributes of a field, with its place from 0; what its variant hands on to be borrowed comes first, and
    /// `container_default` and the name of the private module decide what is set where no attribute says it. What is wrong is
    /// appended to `cx` in order. Where memory runs out, a front of that is appended.
    #[tactic(auto, using(attr_parts::proofs::Steps::tells_none, attr_parts::proofs::Steps::tells_all))]
    pub fn from_ast(
        alloc: Global,
        cx: &mut Ctxt,
        index: usize,
        field: &syntax_trees::Field,
        attrs: Option<&Variant>,
        container_default: &Default,
        private: &Ident,
    ) -> Result<Field, AllocError>
        ensures attrs { IfOk result (λ f. field_view f ≡ field_attrs lexed (item_view field.now) index (handed_view attrs.entry) (default_view container_default.now) (name_view private.now)) }
        ensures told { OnOk result (diagnostics cx.new ≡ diagnostics cx.old ++ field_diagnostics lexed (item_view field.now) index (handed_view attrs.entry)) }
        ensures err { OnErr result (TellsFront (diagnostics cx.old) (diagnostics cx.new) (field_diagnostics lexed (item_view field.now) index (handed_view attrs.entry))) }
    {
        let name = field_name(alloc, field, index)?;
        let acts = acts_of_field(alloc, field, &name, handed(attrs))?;
        let settings = perform(alloc, cx, acts)?;
        let field = decided(alloc, field, &name, container_default, private, settings)?;
        Ok(field)
    }

    /// The names that are written and read.
    pub fn name(&self) -> &MultiName
        ensures { multi_name result.now ≡ (field_view self.now).name }
    {
        &self.name
    }

    /// The other names that are read.
    pub fn aliases(&self) -> &BTreeSet<Name>
        ensures { map attr_name (keys result.now) ≡ (field_view self.now).name.aliases }
    {
        self.name.deserialize_aliases()
    }

    /// What the field is where it is left out.
    pub fn default(&self) -> &Default
        ensures { default_view result.now ≡ (field_view self.now).default }
    {
        &self.default
    }

    /// The function that reads the field.
    pub fn deserialize_with(&self) -> Option<&ExprPath>
        ensures { option_map (λ p. expr_path_view p.now) result ≡ (field_view self.now).deserialize_with }
    {
        self.deserialize_with.as_ref()
    }

    /// The lifetimes that are borrowed.
    pub fn borrowed_lifetimes(&self) -> &BTreeSet<Lifetime>
        ensures { lifetimes result.now ≡ (field_view self.now).borrowed_lifetimes }
    {
        &self.borrowed
    }

    /// Whether the field is the one of a transparent container.
    pub fn transparent(&self) -> bool
        ensures { result ≡ (field_view self.now).transparent }
    {
        self.transparent
    }

    /// Says that the field is the one of a transparent container.
    pub fn mark_transparent(&mut self)
        ensures { field_view self.new ≡ record (field_view self.old) { transparent = true } }
    {
        self.transparent = true;
    }

    /// Each half that no attribute names takes the renamer's text, and the name that is read joins the others that are read. Where
    /// memory runs out, nothing changes.
    pub fn rename_by_rules<R: Renamer>(
        &mut self,
        rules: RenameAllRules,
        renamer: &R,
    ) -> Result<(), AllocError>
        ensures ok { OnOk result (field_view self.new ≡ field_renamed R.field_name rules (field_view self.old)) }
        ensures err { OnErr result (field_view self.new ≡ field_view self.old) }
    {
        rename_field(&mut self.name, rules, renamer)
    }

    /// The predicates that stand in the place of those of `Serialize`, where an attribute gives them.
    pub fn ser_bound(&self) -> Option<&[WherePredicate]>
        ensures { option_map (λ v. map predicate_view v.now) result ≡ (field_view self.now).ser_bound }
    {
        self.settings.predicates(Slot::written(BOUND))
    }

    /// The predicates that stand in the place of those of `Deserialize`, where an attribute gives them.
    pub fn de_bound(&self) -> Option<&[WherePredicate]>
        ensures { option_map (λ v. map predicate_view v.now) result ≡ (field_view self.now).de_bound }
    {
        self.settings.predicates(Slot::read(BOUND))
    }

    /// Whether the field is never read.
    pub fn skip_deserializing(&self) -> bool
        ensures { result ≡ (field_view self.now).skip_deserializing }
    {
        self.settings.is_set(Slot::whole(SKIP_DESERIALIZING))
    }

    /// Whether the field is never written.
    pub fn skip_serializing(&self) -> bool
        ensures { result ≡ (field_view self.now).skip_serializing }
    {
        self.settings.is_set(Slot::whole(SKIP_SERIALIZING))
    }

    /// Whether the field's members stand among those of the container.
    pub fn flatten(&self) -> bool
        ensures { result ≡ (field_view self.now).flatten }
    {
        self.settings.is_set(Slot::whole(FLATTEN))
    }

    /// The function that says whether the field is written.
    pub fn skip_serializing_if(&self) -> Option<&ExprPath>
        ensures { option_map (λ p. expr_path_view p.now) result ≡ (field_view self.now).skip_serializing_if }
    {
        self.settings.function(Slot::whole(SKIP_SERIALIZING_IF))
    }

    /// The function that writes the field.
    pub fn serialize_with(&self) -> Option<&ExprPath>
        ensures { option_map (λ p. expr_path_view p.now) result ≡ (field_view self.now).serialize_with }
    {
        self.settings.function(Slot::whole(SERIALIZE_WITH))
    }

    /// The function that gets the field's value.
    pub fn getter(&self) -> Option<&ExprPath>
        ensures { option_map (λ p. expr_path_view p.now) result ≡ (field_view self.now).getter }
    {
        self.settings.function(Slot::whole(GETTER))
    }
}
