//! Strings whose texts are read as trees.
ghost use Rattle.std.specs.Prelude.{◌≡◌, ◌++◌, ◌∷◌, [], Some, None, Ok, Err, IfOk, IfErr, OnOk, option_map, map};
ghost use Rattle.syntax_trees.specs.View.{ty, path_view, expr_path_view, lit_str_view};
ghost use Rattle.syntax_trees.specs.Item.{predicate_view};
ghost use Rattle.syntax_parsers.specs.Whole.{type_of, path_of, expr_path_of, predicates_of};
ghost use Rattle.syntax_parsers.specs.declared.fault.ParseFault.TheVariants.{Syntax};
ghost use Rattle.token_trees.specs.View.{trees};
ghost use Rattle.attr_parts.specs.Diagnostics.{kind_view, bad_path, bad_type};
ghost use Rattle.attr_defs.specs.Texts.{lexed, read_text, parsed, parsed_by, parsed_step, predicates_by, predicates_in, predicates_step};
ghost use Rattle.attr_defs.specs.Acts.{tells};
ghost use Rattle.attr_defs.specs.Rows.{no_path, function_step};
ghost use Rattle.attr_acts.specs.Views.{acts_view, text_view};
ghost use Rattle.attr_acts.specs.Does.{Does};

use crate::act::{Act, tell};
use crate::string::{Text, literal_of, string_step};
use attr_parts::DiagKind;
use std::alloc::{AllocError, Global};
use syntax_parsers::ParseFault;
use syntax_texts::{parse_expr_path, parse_path, parse_type, parse_where};
use syntax_trees::{ExprPath, Path, SyntaxError, Ty, WherePredicate};
use token_trees::{Span, Symbol, TokenTree};

/// Why a text is no tree, unless memory ran out.
pub fn why(fault: ParseFault) -> Result<SyntaxError, AllocError>
    ensures { IfOk result (λ e. fault ≡ Syntax e) }
{
    match fault {
        ParseFault::Memory => Err(AllocError),
        ParseFault::Syntax(error) => Ok(error),
    }
}

// The path of the text.
fn path_in(alloc: Global, text: Text<'_>) -> Result<Result<Path, SyntaxError>, AllocError>
    ensures path { IfOk result (λ r. IfOk r (λ p. read_text lexed path_of (text_view text.entry) ≡ Ok (path_view p))) }
    ensures none { IfOk result (λ r. IfErr r (λ e. read_text lexed path_of (text_view text.entry) ≡ Err e)) }
{
    let literal = literal_of(alloc, text)?;
    match parse_path(alloc, &literal) {
        Ok(path) => Ok(Ok(path)),
        Err(fault) => {
            let error = why(fault)?;
            Ok(Err(error))
        }
    }
}

// The path of the text, which may have a type in front.
fn function_in(alloc: Global, text: Text<'_>) -> Result<Result<ExprPath, SyntaxError>, AllocError>
    ensures path { IfOk result (λ r. IfOk r (λ p. read_text lexed expr_path_of (text_view text.entry) ≡ Ok (expr_path_view p))) }
    ensures none { IfOk result (λ r. IfErr r (λ e. read_text lexed expr_path_of (text_view text.entry) ≡ Err e)) }
{
    let literal = literal_of(alloc, text)?;
    match parse_expr_path(alloc, &literal) {
        Ok(path) => Ok(Ok(path)),
        Err(fault) => {
            let error = why(fault)?;
            Ok(Err(error))
        }
    }
}

// The type of the text.
fn type_in(alloc: Global, text: Text<'_>) -> Result<Result<Ty, SyntaxError>, AllocError>
    ensures tree { IfOk result (λ r. IfOk r (λ t. read_text lexed type_of (text_view text.entry) ≡ Ok (ty t))) }
    ensures none { IfOk result (λ r. IfErr r (λ e. read_text lexed type_of (text_view text.entry) ≡ Err e)) }
{
    let literal = literal_of(alloc, text)?;
    match parse_type(alloc, &literal) {
        Ok(tree) => Ok(Ok(tree)),
        Err(fault) => {
            let error = why(fault)?;
            Ok(Err(error))
        }
    }
}

// The predicates of the text.
fn predicates_of_text(
    alloc: Global,
    text: Text<'_>,
) -> Result<Result<Vec<WherePredicate>, SyntaxError>, AllocError>
    ensures predicates { IfOk result (λ r. IfOk r (λ v. read_text lexed predicates_of (text_view text.entry) ≡ Ok (map predicate_view v.items))) }
    ensures none { IfOk result (λ r. IfErr r (λ e. read_text lexed predicates_of (text_view text.entry) ≡ Err e)) }
{
    let literal = literal_of(alloc, text)?;
    match parse_where(alloc, &literal) {
        Ok(predicates) => Ok(Ok(predicates)),
        Err(fault) => {
            let error = why(fault)?;
            Ok(Err(error))
        }
    }
}

// A text that is no path is told.
fn tell_no_path(alloc: Global, acts: &mut Vec<Act>, text: Text<'_>) -> Result<(), AllocError>
    ensures { OnOk result (acts_view acts.new.items ≡ acts_view acts.old.items ++ tells (record { kind = no_path (text_view text.entry); span = text.entry.span }) ∷ []) }
{
    let kind = DiagKind::BadPath(String::from_str(alloc, text.value)?);
    tell(acts, kind, text.span)
}

// A text of that attribute that is no type is told.
fn tell_no_type(
    alloc: Global,
    acts: &mut Vec<Act>,
    name: Symbol,
    text: Text<'_>,
) -> Result<(), AllocError>
    ensures { OnOk result (acts_view acts.new.items ≡ acts_view acts.old.items ++ tells (record { kind = bad_type name.0.now text.entry.value.now; span = text.entry.span }) ∷ []) }
{
    let owner = String::from_str(alloc, name.text())?;
    let kind = DiagKind::BadType(owner, String::from_str(alloc, text.value)?);
    tell(acts, kind, text.span)
}

// The path of a string; a text that is none is told.
#[tactic(auto, using(crate::proofs::Trees::parsed_ok, crate::proofs::Trees::parsed_bad))]
fn path_by(alloc: Global, acts: &mut Vec<Act>, text: Text<'_>) -> Result<Option<Path>, AllocError>
    ensures { IfOk result (λ o. Does (acts_view acts.old.items) (acts_view acts.new.items) (Some (option_map path_view o)) (parsed lexed path_of no_path (Some (text_view text.entry)))) }
{
    match path_in(alloc, text)? {
        Ok(path) => Ok(Some(path)),
        Err(_) => {
            tell_no_path(alloc, acts, text)?;
            Ok(None)
        }
    }
}

#[tactic(auto, using(crate::proofs::Trees::parsed_ok, crate::proofs::Trees::parsed_bad))]
fn function_by(
    alloc: Global,
    acts: &mut Vec<Act>,
    text: Text<'_>,
) -> Result<Option<ExprPath>, AllocError>
    ensures { IfOk result (λ o. Does (acts_view acts.old.items) (acts_view acts.new.items) (Some (option_map expr_path_view o)) (parsed lexed expr_path_of no_path (Some (text_view text.entry)))) }
{
    match function_in(alloc, text)? {
        Ok(path) => Ok(Some(path)),
        Err(_) => {
            tell_no_path(alloc, acts, text)?;
            Ok(None)
        }
    }
}

#[tactic(auto, using(crate::proofs::Trees::parsed_ok, crate::proofs::Trees::parsed_bad))]
fn type_by(
    alloc: Global,
    acts: &mut Vec<Act>,
    name: Symbol,
    text: Text<'_>,
) -> Result<Option<Ty>, AllocError>
    ensures { IfOk result (λ o. Does (acts_view acts.old.items) (acts_view acts.new.items) (Some (option_map ty o)) (parsed lexed type_of (λ l. bad_type name.0.now l.text) (Some (text_view text.entry)))) }
{
    match type_in(alloc, text)? {
        Ok(tree) => Ok(Some(tree)),
        Err(_) => {
            tell_no_type(alloc, acts, name, text)?;
            Ok(None)
        }
    }
}

#[tactic(auto, using(crate::proofs::Trees::predicates_ok, crate::proofs::Trees::predicates_bad))]
fn predicates_read(
    alloc: Global,
    acts: &mut Vec<Act>,
    text: Text<'_>,
) -> Result<Vec<WherePredicate>, AllocError>
    ensures { IfOk result (λ v. Does (acts_view acts.old.items) (acts_view acts.new.items) (Some (Some (map predicate_view v.items))) (predicates_in lexed (Some (text_view text.entry)))) }
{
    match predicates_of_text(alloc, text)? {
        Ok(predicates) => Ok(predicates),
        Err(error) => {
            tell(acts, DiagKind::Syntax(error.kind), text.span)?;
            Ok(Vec::new(alloc))
        }
    }
}

/// The path of a string that is there.
#[tactic(auto, using(crate::proofs::Does::does_nothing))]
fn path_of_string(
    alloc: Global,
    acts: &mut Vec<Act>,
    string: Option<Text<'_>>,
) -> Result<Option<Path>, AllocError>
    ensures { IfOk result (λ o. Does (acts_view acts.old.items) (acts_view acts.new.items) (Some (option_map path_view o)) (parsed lexed path_of no_path (option_map text_view string.entry))) }
{
    match string {
        Some(text) => path_by(alloc, acts, text),
        None => Ok(None),
    }
}

/// The path of a string that is there, which may have a type in front.
#[tactic(auto, using(crate::proofs::Does::does_nothing))]
pub fn function_of_string(
    alloc: Global,
    acts: &mut Vec<Act>,
    string: Option<Text<'_>>,
) -> Result<Option<ExprPath>, AllocError>
    ensures { IfOk result (λ o. Does (acts_view acts.old.items) (acts_view acts.new.items) (Some (option_map expr_path_view o)) (parsed lexed expr_path_of no_path (option_map text_view string.entry))) }
{
    match string {
        Some(text) => function_by(alloc, acts, text),
        None => Ok(None),
    }
}

#[tactic(auto, using(crate::proofs::Does::does_nothing))]
fn type_of_string(
    alloc: Global,
    acts: &mut Vec<Act>,
    name: Symbol,
    string: Option<Text<'_>>,
) -> Result<Option<Ty>, AllocError>
    ensures { IfOk result (λ o. Does (acts_view acts.old.items) (acts_view acts.new.items) (Some (option_map ty o)) (parsed lexed type_of (λ l. bad_type name.0.now l.text) (option_map text_view string.entry))) }
{
    match string {
        Some(text) => type_by(alloc, acts, name, text),
        None => Ok(None),
    }
}

#[tactic(auto, using(crate::proofs::Does::does_nothing))]
fn predicates_of_string(
    alloc: Global,
    acts: &mut Vec<Act>,
    string: Option<Text<'_>>,
) -> Result<Vec<WherePredicate>, AllocError>
    ensures { IfOk result (λ v. Does (acts_view acts.old.items) (acts_view acts.new.items) (Some (Some (map predicate_view v.items))) (predicates_in lexed (option_map text_view string.entry))) }
{
    match string {
        Some(text) => predicates_read(alloc, acts, text),
        None => Ok(Vec::new(alloc)),
    }
}

/// `= "path"`; another value is told. None where reading of the attribute ends.
#[tactic(auto, using(crate::proofs::Does::does_then, crate::proofs::Does::does_last))]
pub fn path_step(
    alloc: Global,
    acts: &mut Vec<Act>,
    name: Symbol,
    end: Span,
    rest: &[TokenTree],
) -> Result<Option<Option<Path>>, AllocError>
    ensures { IfOk result (λ o. Does (acts_view acts.old.items) (acts_view acts.new.items) (option_map (option_map path_view) o) (parsed_step lexed path_of no_path name.0.now end (trees rest.now))) }
{
    let Some(string) = string_step(alloc, acts, name, name, end, rest)? else {
        return Ok(None);
    };
    let path = path_of_string(alloc, acts, string)?;
    Ok(Some(path))
}

/// `= "path"`, where the path may have a type in front; another value is told. None where reading of the attribute ends.
#[tactic(auto, using(crate::proofs::Does::does_then, crate::proofs::Does::does_last))]
pub fn function_step(
    alloc: Global,
    acts: &mut Vec<Act>,
    name: Symbol,
    end: Span,
    rest: &[TokenTree],
) -> Result<Option<Option<ExprPath>>, AllocError>
    ensures { IfOk result (λ o. Does (acts_view acts.old.items) (acts_view acts.new.items) (option_map (option_map expr_path_view) o) (function_step lexed name.0.now end (trees rest.now))) }
{
    let Some(string) = string_step(alloc, acts, name, name, end, rest)? else {
        return Ok(None);
    };
    let path = function_of_string(alloc, acts, string)?;
    Ok(Some(path))
}

/// `= "type"`; another value is told. None where reading of the attribute ends.
#[tactic(auto, using(crate::proofs::Does::does_then, crate::proofs::Does::does_last))]
pub fn type_step(
    alloc: Global,
    acts: &mut Vec<Act>,
    name: Symbol,
    end: Span,
    rest: &[TokenTree],
) -> Result<Option<Option<Ty>>, AllocError>
    ensures { IfOk result (λ o. Does (acts_view acts.old.items) (acts_view acts.new.items) (option_map (option_map ty) o) (parsed_step lexed type_of (λ l. bad_type name.0.now l.text) name.0.now end (trees rest.now))) }
{
    let Some(string) = string_step(alloc, acts, name, name, end, rest)? else {
        return Ok(None);
    };
    let tree = type_of_string(alloc, acts, name, string)?;
    Ok(Some(tree))
}

/// `= "predicates"` of an attribute, behind the name `item`; another value is told, and stands for no predicate. None where
/// reading of the attribute ends.
#[tactic(auto, using(crate::proofs::Does::does_then, crate::proofs::Does::does_last))]
pub fn predicates_step(
    alloc: Global,
    acts: &mut Vec<Act>,
    attribute: Symbol,
    item: Symbol,
    end: Span,
    rest: &[TokenTree],
) -> Result<Option<Vec<WherePredicate>>, AllocError>
    ensures { IfOk result (λ o. Does (acts_view acts.old.items) (acts_view acts.new.items) (option_map (λ v. Some (map predicate_view v.items)) o) (predicates_step lexed attribute.0.now item.0.now end (trees rest.now))) }
{
    let Some(string) = string_step(alloc, acts, attribute, item, end, rest)? else {
        return Ok(None);
    };
    let predicates = predicates_of_string(alloc, acts, string)?;
    Ok(Some(predicates))
}
