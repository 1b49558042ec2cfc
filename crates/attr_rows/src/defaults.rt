//! Defaults, and the functions of a module.
ghost use Rattle.std.specs.Prelude.{◌≡◌, ◌++◌, ◌∷◌, [], Some, None, IfOk, OnOk, option_map, List};
ghost use Rattle.token_trees.specs.View.{trees};
ghost use Rattle.syntax_trees.specs.Item.{body_view, fields_view};
ghost use Rattle.syntax_trees.specs.Syntax.{segment, no_arguments};
ghost use Rattle.syntax_trees.specs.Item.{struct_body};
ghost use Rattle.syntax_parsers.specs.Whole.{expr_path_of};
ghost use Rattle.token_trees.specs.Token.{Tok};
ghost use Rattle.syntax_trees.specs.View.{expr_path_view, path_view, segment_view};
ghost use Rattle.attr_defs.specs.Rows.{no_path, function_step, default_by, default_on, own_default_set, path_default_set, default_step, in_module, module_set, module_step};
ghost use Rattle.attr_defs.specs.Acts.{sets, is_function};
ghost use Rattle.attr_defs.specs.Owners.{whole};
ghost use Rattle.attr_defs.specs.Steps.{does};
ghost use Rattle.attr_defs.specs.Texts.{lexed, parsed};
ghost use Rattle.attr_acts.specs.Does.{Does, followed};
ghost use Rattle.attr_rows.specs.OwnerView.{owner_view};
ghost use Rattle.attr_rows.specs.Longer.{longer};
ghost use Rattle.attr_acts.specs.Views.{acts_view, text_view};
ghost use Rattle.attr_rows.specs.declared.defaults.Home.TheVariants as homes;

use crate::owner::Owner;
use crate::row::span_to;
use attr_acts::{
    Act, Slot, Text, Value, function_of_string, function_step, is_sign_next, set, string_step, tell,
};
use attr_parts::{DESERIALIZE, DESERIALIZE_WITH, Default, DiagKind, SERIALIZE, SERIALIZE_WITH};
use std::alloc::{AllocError, Global};
use syntax_trees::{Data, ExprPath, Fields, Path, PathArguments, PathSegment};
use token_trees::{Ident, Span, Symbol, TokenTree, span_of_trees};

/// Where a default would stand: where there are fields, in a struct without, or elsewhere.
#[derive(Clone, Copy)]
pub enum Home {
    Fields,
    Unit,
    Other,
}

// The same of the fields of a struct.
fn home_in_fields(fields: &Fields, at: Span) -> Home
    ensures { result ≡ default_by (struct_body (fields_view fields.now) at) homes.Fields homes.Unit homes.Other }
{
    match fields {
        Fields::Named(_) => Home::Fields,
        Fields::Unnamed(_) => Home::Fields,
        Fields::Unit => Home::Unit,
    }
}

// The same of the body of an item.
fn home_in(body: &Data) -> Home
    ensures { result ≡ default_by (body_view body.now) homes.Fields homes.Unit homes.Other }
{
    match body {
        Data::Struct(fields, at) => home_in_fields(fields, *at),
        Data::Enum(_, _) => Home::Other,
        Data::Union(_, _) => Home::Other,
    }
}

// Where a default of the owner would stand.
fn home_of(owner: Owner<'_>) -> Home
    ensures { result ≡ default_on (owner_view owner.entry) homes.Fields homes.Unit homes.Other }
{
    match owner {
        Owner::Container(item) => home_in(&item.body),
        Owner::Variant(_) => Home::Fields,
        Owner::Field(_, _) => Home::Fields,
    }
}

// A default of the type's own.
#[tactic(auto, using(crate::proofs::Homes::on_fields, crate::proofs::Homes::on_unit, crate::proofs::Homes::on_other))]
fn set_own_default(
    acts: &mut Vec<Act>,
    owner: Owner<'_>,
    name: Symbol,
    path: &[TokenTree],
) -> Result<(), AllocError>
    ensures { OnOk result (acts_view acts.new.items ≡ acts_view acts.old.items ++ own_default_set (owner_view owner.entry) name.0.now (trees path.now)) }
{
    let at = span_of_trees(path);
    match home_of(owner) {
        Home::Fields => set(
            acts,
            Slot::whole(name),
            at,
            Value::Default(Default::Default),
        ),
        Home::Unit => tell(acts, DiagKind::DefaultUnit, Span::call_site()),
        Home::Other => tell(acts, DiagKind::DefaultPlace, at),
    }
}

// What a function answers.
#[tactic(auto, using(crate::proofs::Homes::on_fields, crate::proofs::Homes::on_unit, crate::proofs::Homes::on_other))]
fn set_path_default_by(
    acts: &mut Vec<Act>,
    owner: Owner<'_>,
    name: Symbol,
    path: &[TokenTree],
    rest: &[TokenTree],
    function: ExprPath,
) -> Result<(), AllocError>
    ensures { OnOk result (acts_view acts.new.items ≡ acts_view acts.old.items ++ path_default_set (owner_view owner.entry) name.0.now (trees path.now) (trees rest.now) (Some (expr_path_view function))) }
{
    match home_of(owner) {
        Home::Fields => {
            let value = Value::Default(Default::Path(function));
            set(acts, Slot::whole(name), span_of_trees(path), value)
        }
        Home::Unit => tell(acts, DiagKind::DefaultPathUnit, span_to(path, rest)),
        Home::Other => tell(acts, DiagKind::DefaultPathPlace, span_to(path, rest)),
    }
}

// What a function that is there answers.
fn set_path_default(
    acts: &mut Vec<Act>,
    owner: Owner<'_>,
    name: Symbol,
    path: &[TokenTree],
    rest: &[TokenTree],
    function: Option<ExprPath>,
) -> Result<(), AllocError>
    ensures { OnOk result (acts_view acts.new.items ≡ acts_view acts.old.items ++ path_default_set (owner_view owner.entry) name.0.now (trees path.now) (trees rest.now) (option_map expr_path_view function)) }
{
    match function {
        Some(function) => set_path_default_by(acts, owner, name, path, rest, function),
        None => Ok(()),
    }
}

// A default that a path gives.
#[tactic(auto, using(attr_acts::proofs::Does::does_then, attr_acts::proofs::Does::does_last, attr_acts::proofs::Does::does_acts))]
fn path_default<'a>(
    alloc: Global,
    acts: &mut Vec<Act>,
    owner: Owner<'_>,
    name: Symbol,
    path: &'a [TokenTree],
    end: Span,
    rest: &'a [TokenTree],
) -> Result<Option<&'a [TokenTree]>, AllocError>
    ensures { IfOk result (λ o. Does (acts_view acts.old.items) (acts_view acts.new.items) (option_map (λ t. trees t.now) o) (followed (function_step lexed name.0.now end (trees rest.now)) (λ f. does (path_default_set (owner_view owner.entry) name.0.now (trees path.now) (trees rest.now) f) []))) }
{
    let Some(function) = function_step(alloc, acts, name, end, rest)? else {
        return Ok(None);
    };
    set_path_default(acts, owner, name, path, rest, function)?;
    Ok(Some(&[]))
}

// A default without a value.
#[tactic(auto, using(attr_acts::proofs::Does::does_acts))]
fn own_default<'a>(
    acts: &mut Vec<Act>,
    owner: Owner<'_>,
    name: Symbol,
    path: &'a [TokenTree],
    rest: &'a [TokenTree],
) -> Result<Option<&'a [TokenTree]>, AllocError>
    ensures { IfOk result (λ o. Does (acts_view acts.old.items) (acts_view acts.new.items) (option_map (λ t. trees t.now) o) (does (own_default_set (owner_view owner.entry) name.0.now (trees path.now)) (trees rest.now))) }
{
    set_own_default(acts, owner, name, path)?;
    Ok(Some(rest))
}

/// Nothing or the path of a function.
pub fn default<'a>(
    alloc: Global,
    acts: &mut Vec<Act>,
    owner: Owner<'_>,
    name: Symbol,
    path: &'a [TokenTree],
    end: Span,
    rest: &'a [TokenTree],
) -> Result<Option<&'a [TokenTree]>, AllocError>
    ensures { IfOk result (λ o. Does (acts_view acts.old.items) (acts_view acts.new.items) (option_map (λ t. trees t.now) o) (default_step lexed (owner_view owner.entry) name.0.now (trees path.now) end (trees rest.now))) }
{
    if is_sign_next('=', rest) {
        return path_default(alloc, acts, owner, name, path, end, rest);
    }
    own_default(acts, owner, name, path, rest)
}

// A segment of that name alone.
fn plain_segment(alloc: Global, name: Symbol, at: Span) -> Result<PathSegment, AllocError>
    ensures { IfOk result (λ s. segment_view s ≡ segment (record { text = name.0.now; span = at }) no_arguments) }
{
    Ok(PathSegment {
        ident: Ident {
            text: String::from_str(alloc, name.text())?,
            span: at,
        },
        arguments: PathArguments::None,
    })
}

// The path with a segment more.
fn longer(path: Path, segment: PathSegment) -> Result<Path, AllocError>
    ensures { IfOk result (λ p. path_view p ≡ longer (path_view path) (segment_view segment)) }
{
    let (leading, segments) = path.into_parts();
    let mut segments = segments;
    segments.push(segment)?;
    Ok(Path { leading, segments })
}

// The function of that name in the module.
fn in_module(alloc: Global, from: &ExprPath, name: Symbol, at: Span) -> Result<ExprPath, AllocError>
    ensures { IfOk result (λ p. expr_path_view p ≡ in_module (expr_path_view from.now) name.0.now at) }
{
    let segment = plain_segment(alloc, name, at)?;
    let copy = from.try_clone(alloc)?;
    let (qself, path) = copy.into_parts();
    let path = longer(path, segment)?;
    Ok(ExprPath { qself, path })
}

// A function of a module is set.
fn set_from_module(
    alloc: Global,
    acts: &mut Vec<Act>,
    slot: Symbol,
    at: Span,
    from: &ExprPath,
    name: Symbol,
    place: Span,
) -> Result<(), AllocError>
    ensures { OnOk result (acts_view acts.new.items ≡ acts_view acts.old.items ++ sets (whole slot.0.now) at (is_function (in_module (expr_path_view from.now) name.0.now place)) ∷ []) }
{
    let function = in_module(alloc, from, name, place)?;
    set(acts, Slot::whole(slot), at, Value::Function(function))?;
    Ok(())
}

// The two functions of a module.
fn set_module_by(
    alloc: Global,
    acts: &mut Vec<Act>,
    at: Span,
    text: Text<'_>,
    from: &ExprPath,
) -> Result<(), AllocError>
    ensures { OnOk result (acts_view acts.new.items ≡ acts_view acts.old.items ++ module_set at (Some (text_view text.entry)) (Some (expr_path_view from.now))) }
{
    set_from_module(alloc, acts, SERIALIZE_WITH, at, from, SERIALIZE, text.span)?;
    set_from_module(
        alloc,
        acts,
        DESERIALIZE_WITH,
        at,
        from,
        DESERIALIZE,
        text.span,
    )?;
    Ok(())
}

// The two functions of a module whose path the string is, where it is one.
fn set_module(
    alloc: Global,
    acts: &mut Vec<Act>,
    at: Span,
    string: Option<Text<'_>>,
    from: Option<ExprPath>,
) -> Result<(), AllocError>
    ensures { OnOk result (acts_view acts.new.items ≡ acts_view acts.old.items ++ module_set at (option_map text_view string.entry) (option_map expr_path_view from)) }
{
    match (string, from) {
        (Some(text), Some(from)) => set_module_by(alloc, acts, at, text, &from),
        _ => Ok(()),
    }
}

// A module whose path the string is.
#[tactic(auto, using(attr_acts::proofs::Does::does_then, attr_acts::proofs::Does::does_acts))]
fn module_of_string(
    alloc: Global,
    acts: &mut Vec<Act>,
    at: Span,
    string: Option<Text<'_>>,
) -> Result<(), AllocError>
    ensures { OnOk result (Does {A = List Tok} (acts_view acts.old.items) (acts_view acts.new.items) (Some []) (followed (parsed lexed expr_path_of no_path (option_map text_view string.entry)) (λ m. does (module_set at (option_map text_view string.entry) m) []))) }
{
    let from = function_of_string(alloc, acts, string)?;
    set_module(alloc, acts, at, string, from)
}

/// The path of a module with two functions.
#[tactic(auto, using(attr_acts::proofs::Does::does_then, attr_acts::proofs::Does::does_last))]
pub fn with_module<'a>(
    alloc: Global,
    acts: &mut Vec<Act>,
    name: Symbol,
    path: &'a [TokenTree],
    end: Span,
    rest: &'a [TokenTree],
) -> Result<Option<&'a [TokenTree]>, AllocError>
    ensures { IfOk result (λ o. Does (acts_view acts.old.items) (acts_view acts.new.items) (option_map (λ t. trees t.now) o) (module_step lexed name.0.now (trees path.now) end (trees rest.now))) }
{
    let Some(string) = string_step(alloc, acts, name, name, end, rest)? else {
        return Ok(None);
    };
    module_of_string(alloc, acts, span_of_trees(path), string)?;
    Ok(Some(&[]))
}
