//! Whose attributes are read, and what all of them do.
ghost use Rattle.std.specs.Prelude.{◌≡◌, ◌++◌, ◌∷◌, [], Some, None, IfOk, OnOk, OnErr, option_map, is_some, map, string_bytes};
ghost use Rattle.std.specs.List.{flat_map};
ghost use Rattle.token_trees.specs.View.{trees, stream};
ghost use Rattle.token_trees.specs.Token.{span_of_all};
ghost use Rattle.syntax_trees.specs.Item.{attribute_view, body_view};
ghost use Rattle.syntax_trees.specs.View.{path_view, segment_view};
ghost use Rattle.attr_parts.specs.Diagnostics.{diagnostics, kind_view, bad_syntax, TellsFront};
ghost use Rattle.attr_acts.specs.Kept.{values_in};
ghost use Rattle.syntax_trees.specs.declared.cursor.SyntaxKind.TheVariants.{ExpectedArguments};
ghost use Rattle.attr_defs.specs.Acts.{tells, values_of, added, told};
ghost use Rattle.attr_parts.specs.Names.{attr_name};
ghost use Rattle.attr_defs.specs.Metas.{metas_of, metas_in, is_serde, word_place, segment_place, path_text, part};
ghost use Rattle.attr_defs.specs.Rows.{is_enum, is_enum_body, has_names, has_named_fields, lines_of, line_of, unknown, says, says_by, excess, meta_step, acts_of, all_acts};
ghost use Rattle.attr_defs.specs.Texts.{lexed};
ghost use Rattle.attr_acts.specs.Parts.{part_view};
ghost use Rattle.attr_acts.specs.Views.{acts_view};
ghost use Rattle.attr_rows.specs.OwnerView.{owner_view, line_view};
ghost use Rattle.attr_acts.specs.Does.{Does, followed};

use crate::line::{Line, line_of};
use crate::say::says;
use attr_acts::{Act, Part, Settings, parts_in, perform, tell, tell_syntax, text_of_path};
use attr_parts::{Ctxt, DiagKind, Name, SERDE};
use std::alloc::{AllocError, Global};
use syntax_trees::{
    Attribute, Data, DeriveInput, Field, Fields, Meta, Path, PathSegment, SyntaxError, SyntaxKind,
    Variant,
};
use token_trees::{Span, TokenStream, TokenTree, span_of_trees};

/// Whose attributes are read; a field is known by its name or its number.
#[derive(Clone, Copy)]
pub enum Owner<'a> {
    Container(&'a DeriveInput),
    Variant(&'a Variant),
    Field(&'a Field, &'a Name),
}

// Whether the item is an enum.
fn is_enum_body(body: &Data) -> bool
    ensures { result ≡ is_enum_body (body_view body.now) }
{
    match body {
        Data::Struct(_, _) => false,
        Data::Enum(_, _) => true,
        Data::Union(_, _) => false,
    }
}

// Whether the item is a struct whose fields have names.
fn has_named_fields(body: &Data) -> bool
    ensures { result ≡ has_named_fields (body_view body.now) }
{
    match body {
        Data::Struct(Fields::Named(_), _) => true,
        Data::Struct(Fields::Unnamed(_), _) => false,
        Data::Struct(Fields::Unit, _) => false,
        Data::Enum(_, _) => false,
        Data::Union(_, _) => false,
    }
}

impl Owner<'_> {
    /// Whether the owner is an enum.
    pub fn is_enum(self) -> bool
        ensures { result ≡ is_enum (owner_view self.entry) }
    {
        match self {
            Owner::Container(item) => is_enum_body(&item.body),
            Owner::Variant(_) => false,
            Owner::Field(_, _) => false,
        }
    }

    /// Whether the owner is a struct whose fields have names.
    pub fn has_names(self) -> bool
        ensures { result ≡ has_names (owner_view self.entry) }
    {
        match self {
            Owner::Container(item) => has_named_fields(&item.body),
            Owner::Variant(_) => false,
            Owner::Field(_, _) => false,
        }
    }
}

// What is told of a path that names no attribute of the owner.
fn unknown(owner: Owner<'_>, text: String) -> DiagKind
    ensures { kind_view result ≡ unknown (owner_view owner.entry) (string_bytes text) }
{
    match owner {
        Owner::Container(_) => DiagKind::UnknownContainer(text),
        Owner::Variant(_) => DiagKind::UnknownVariant(text),
        Owner::Field(_, _) => DiagKind::UnknownField(text),
    }
}

// What stands where a comma should is told. False where something does.
fn finish(acts: &mut Vec<Act>, left: &[TokenTree]) -> Result<bool, AllocError>
    ensures acts { OnOk result (acts_view acts.new.items ≡ acts_view acts.old.items ++ (excess (trees left.now)).acts) }
    ensures goes_on { IfOk result (λ b. b ≡ is_some (excess (trees left.now)).value) }
{
    match left.first() {
        None => Ok(true),
        Some(token) => {
            tell_syntax(
                acts,
                SyntaxError {
                    kind: SyntaxKind::ExpectedComma,
                    span: token.span(),
                },
            )?;
            Ok(false)
        }
    }
}

// A meta with the attribute that it names.
#[tactic(auto, using(crate::proofs::Follows::follows_acts, crate::proofs::Follows::follows_on, crate::proofs::Follows::ends_acts, crate::proofs::Follows::ends_there))]
fn known_meta(
    alloc: Global,
    acts: &mut Vec<Act>,
    owner: Owner<'_>,
    line: Line,
    path: &[TokenTree],
    end: Span,
    rest: &[TokenTree],
) -> Result<bool, AllocError>
    ensures acts { OnOk result (acts_view acts.new.items ≡ acts_view acts.old.items ++ (followed (says lexed (owner_view owner.entry) line.row line.name.0.now (trees path.now) end (trees rest.now)) excess).acts) }
    ensures goes_on { IfOk result (λ b. b ≡ is_some (followed (says lexed (owner_view owner.entry) line.row line.name.0.now (trees path.now) end (trees rest.now)) excess).value) }
{
    let Some(left) = says(alloc, acts, owner, line, path, end, rest)? else {
        return Ok(false);
    };
    let goes_on = finish(acts, left)?;
    Ok(goes_on)
}

// A meta whose path names no attribute of the owner is told.
fn tell_unknown(
    alloc: Global,
    acts: &mut Vec<Act>,
    owner: Owner<'_>,
    path: &[TokenTree],
) -> Result<(), AllocError>
    ensures { OnOk result (acts_view acts.new.items ≡ acts_view acts.old.items ++ tells (record { kind = unknown (owner_view owner.entry) (path_text (trees path.now)); span = span_of_all (trees path.now) }) ∷ []) }
{
    let kind = unknown(owner, text_of_path(alloc, path)?);
    tell(acts, kind, span_of_trees(path))
}

// A meta whose path was read.
fn path_meta(
    alloc: Global,
    acts: &mut Vec<Act>,
    owner: Owner<'_>,
    path: &[TokenTree],
    end: Span,
    rest: &[TokenTree],
) -> Result<bool, AllocError>
    ensures acts { OnOk result (acts_view acts.new.items ≡ acts_view acts.old.items ++ (meta_step lexed (owner_view owner.entry) (part (trees path.now) (trees rest.now) end)).acts) }
    ensures goes_on { IfOk result (λ b. b ≡ is_some (meta_step lexed (owner_view owner.entry) (part (trees path.now) (trees rest.now) end)).value) }
{
    match line_of(owner, path) {
        Some(line) => {
            let goes_on = known_meta(alloc, acts, owner, line, path, end, rest)?;
            Ok(goes_on)
        }
        None => {
            tell_unknown(alloc, acts, owner, path)?;
            Ok(false)
        }
    }
}

// A meta. False where reading of the attribute ends.
fn one_meta(
    alloc: Global,
    acts: &mut Vec<Act>,
    owner: Owner<'_>,
    part: &Part<'_>,
) -> Result<bool, AllocError>
    ensures acts { OnOk result (acts_view acts.new.items ≡ acts_view acts.old.items ++ (meta_step lexed (owner_view owner.entry) (part_view part.now)).acts) }
    ensures goes_on { IfOk result (λ b. b ≡ is_some (meta_step lexed (owner_view owner.entry) (part_view part.now)).value) }
{
    match part {
        Part::Meta { path, rest, end } => path_meta(alloc, acts, owner, path, *end, rest),
        Part::Unread(error) => {
            tell_syntax(acts, *error)?;
            Ok(false)
        }
    }
}

// Metas in order, up to the one at which reading ends.
fn acts_of(
    alloc: Global,
    acts: &mut Vec<Act>,
    owner: Owner<'_>,
    parts: &[Part<'_>],
) -> Result<(), AllocError>
    ensures { OnOk result (acts_view acts.new.items ≡ acts_view acts.old.items ++ acts_of lexed (owner_view owner.entry) (map part_view parts.now)) }
{
    for part in parts {
        if !one_meta(alloc, acts, owner, part)? {
            return Ok(());
        }
    }
    Ok(())
}

// The metas of a list.
fn list_acts(
    alloc: Global,
    acts: &mut Vec<Act>,
    owner: Owner<'_>,
    tokens: &TokenStream,
    at: Span,
) -> Result<(), AllocError>
    ensures { OnOk result (acts_view acts.new.items ≡ acts_view acts.old.items ++ acts_of lexed (owner_view owner.entry) (metas_in at (stream tokens.now))) }
{
    let parts = parts_in(alloc, tokens.trees(), at)?;
    acts_of(alloc, acts, owner, &parts)
}

// Whether the path is `serde` alone.
#[tactic(auto, using(crate::proofs::Serde::serde_alone))]
fn is_serde_path(path: &Path) -> bool
    ensures { result ≡ is_serde (path_view path.now) }
{
    path.is(SERDE)
}

// The place of a segment's name.
fn segment_span(segment: &PathSegment) -> Span
    ensures { result ≡ segment_place (segment_view segment.now) }
{
    segment.ident.span
}

// The place of a path that is one name.
fn word_span(path: &Path) -> Span
    ensures { result ≡ word_place (path_view path.now) }
{
    match path.segments.first() {
        Some(segment) => segment_span(segment),
        None => Span::call_site(),
    }
}

// An attribute that is no list is told.
fn tell_no_list(acts: &mut Vec<Act>, path: &Path) -> Result<(), AllocError>
    ensures { OnOk result (acts_view acts.new.items ≡ acts_view acts.old.items ++ tells (record { kind = bad_syntax ExpectedArguments; span = word_place (path_view path.now) }) ∷ []) }
{
    tell_syntax(
        acts,
        SyntaxError {
            kind: SyntaxKind::ExpectedArguments,
            span: word_span(path),
        },
    )
}

// One attribute.
fn attribute_acts(
    alloc: Global,
    acts: &mut Vec<Act>,
    owner: Owner<'_>,
    attribute: &Attribute,
) -> Result<(), AllocError>
    ensures { OnOk result (acts_view acts.new.items ≡ acts_view acts.old.items ++ acts_of lexed (owner_view owner.entry) (metas_of (attribute_view attribute.now))) }
{
    if !is_serde_path(attribute.path()) {
        return Ok(());
    }
    match &attribute.meta {
        Meta::Path(path) => tell_no_list(acts, path),
        Meta::List { tokens, span, .. } => list_acts(alloc, acts, owner, tokens, *span),
        Meta::NameValue { path, .. } => tell_no_list(acts, path),
    }
}

/// What all attributes of the owner do, in order, after what was done before.
pub fn all_acts(
    alloc: Global,
    acts: &mut Vec<Act>,
    owner: Owner<'_>,
    attributes: &[Attribute],
) -> Result<(), AllocError>
    ensures { OnOk result (acts_view acts.new.items ≡ acts_view acts.old.items ++ all_acts lexed (owner_view owner.entry) (map attribute_view attributes.now)) }
{
    for attribute in attributes {
        attribute_acts(alloc, acts, owner, attribute)?;
    }
    Ok(())
}

/// What the attributes of the owner set; what they tell is appended to `cx`. Where memory runs out, a front of that is appended.
#[tactic(auto, using(attr_parts::proofs::Steps::tells_none))]
pub fn settings_of(
    alloc: Global,
    cx: &mut Ctxt,
    owner: Owner<'_>,
    attributes: &[Attribute],
) -> Result<Settings, AllocError>
    ensures values { IfOk result (λ s. values_in s ≡ values_of (all_acts lexed (owner_view owner.entry) (map attribute_view attributes.now))) }
    ensures names { IfOk result (λ s. map attr_name s.names.items ≡ added (all_acts lexed (owner_view owner.entry) (map attribute_view attributes.now))) }
    ensures told { OnOk result (diagnostics cx.new ≡ diagnostics cx.old ++ told (all_acts lexed (owner_view owner.entry) (map attribute_view attributes.now))) }
    ensures err { OnErr result (TellsFront (diagnostics cx.old) (diagnostics cx.new) (told (all_acts lexed (owner_view owner.entry) (map attribute_view attributes.now)))) }
{
    let mut acts = Vec::new(alloc);
    all_acts(alloc, &mut acts, owner, attributes)?;
    let settings = perform(alloc, cx, acts)?;
    Ok(settings)
}
