//! Conditions under which a field isn't written.
ghost use Rattle.std.specs.Prelude.{◌≡◌, option_map};
ghost use Rattle.syntax_trees.specs.View.{ty as ty_view, expr_path_view};
ghost use Rattle.type_spellings.specs.Types.{type_of};
ghost use Rattle.container_defs.specs.Forms.{option_is_none, vec_is_empty, set_is_empty, map_is_empty, empties, is_known_reader, is_known_condition};
ghost use Rattle.item_forms.specs.TypeForm.{empties_form};

use crate::type_form::{Form, form_of};
use item_models::{is_rooted, reads_some, reads_whole};
use syntax_trees::{ExprPath, Ty};
use token_trees::Symbol;

static OPTION: [Symbol; 4] = [
    Symbol("std"),
    Symbol("option"),
    Symbol("Option"),
    Symbol("is_none"),
];

static VEC: [Symbol; 4] = [
    Symbol("std"),
    Symbol("vec"),
    Symbol("Vec"),
    Symbol("is_empty"),
];

static SET: [Symbol; 4] = [
    Symbol("std"),
    Symbol("collections"),
    Symbol("HashSet"),
    Symbol("is_empty"),
];

static MAP: [Symbol; 4] = [
    Symbol("std"),
    Symbol("collections"),
    Symbol("HashMap"),
    Symbol("is_empty"),
];

fn option_is_none(path: &ExprPath) -> bool
    ensures { result ≡ option_is_none (expr_path_view path.now) }
{
    is_rooted(path, &OPTION)
}

fn vec_is_empty(path: &ExprPath) -> bool
    ensures { result ≡ vec_is_empty (expr_path_view path.now) }
{
    is_rooted(path, &VEC)
}

fn set_is_empty(path: &ExprPath) -> bool
    ensures { result ≡ set_is_empty (expr_path_view path.now) }
{
    is_rooted(path, &SET)
}

fn map_is_empty(path: &ExprPath) -> bool
    ensures { result ≡ map_is_empty (expr_path_view path.now) }
{
    is_rooted(path, &MAP)
}

fn empties_form(form: Form, path: &ExprPath) -> bool
    ensures { result ≡ empties_form form (expr_path_view path.now) }
{
    match form {
        Form::Optional => option_is_none(path),
        Form::List => vec_is_empty(path),
        Form::Set => set_is_empty(path),
        Form::Map => map_is_empty(path),
        Form::Text => false,
        Form::Other => false,
    }
}

/// Whether the condition is that of the type.
#[tactic(auto, using(crate::proofs::TypeForms::emptied))]
pub(crate) fn empties(ty: &Ty, path: &ExprPath) -> bool
    ensures { result ≡ empties (type_of (ty_view ty.now)) (expr_path_view path.now) }
{
    empties_form(form_of(ty), path)
}

/// Whether the function is one by which the reader reads.
pub(crate) fn is_known_reader(path: &ExprPath) -> bool
    ensures { result ≡ is_known_reader (expr_path_view path.now) }
{
    reads_some(path) || reads_whole(path)
}

/// Whether the condition is one that the reader knows.
pub(crate) fn is_known_condition(path: &ExprPath) -> bool
    ensures { result ≡ is_known_condition (expr_path_view path.now) }
{
    option_is_none(path) || vec_is_empty(path) || set_is_empty(path) || map_is_empty(path)
}
