//! The functions that the reader knows, by their paths.
ghost use Rattle.std.specs.Prelude.{◌≡◌, option_map, if◌then◌else◌};
ghost use Rattle.syntax_trees.specs.View.{expr_path_view};
ghost use Rattle.model_defs.specs.Model.{no_helper, some_helper, whole_helper};
ghost use Rattle.container_defs.specs.Reader.{is_local, is_rooted, reads_some, reads_whole, helper_of};
ghost use Rattle.value_models.specs.FieldView.{helper_view};
ghost use Rattle.value_types.specs.Paths.{symbols};

use syntax_trees::ExprPath;
use token_trees::Symbol;
use value_models::Helper;
use value_types::spells;

static SOME: [Symbol; 2] = [Symbol("typify_present"), Symbol("some")];

static WHOLE: [Symbol; 2] = [Symbol("typify_present"), Symbol("whole")];

/// Whether the path has those names, without a `::` in front.
#[tactic(auto, using(crate::proofs::KnownPaths::local_read, crate::proofs::KnownPaths::no_local))]
pub fn is_local(path: &ExprPath, names: &[Symbol]) -> bool
    ensures { result ≡ is_local (symbols names.now) (expr_path_view path.now) }
{
    match path.qself {
        None => !path.path.leading && spells(&path.path.segments, names),
        Some(_) => false,
    }
}

/// Whether the path has those names behind a `::`.
#[tactic(auto, using(crate::proofs::KnownPaths::rooted_read, crate::proofs::KnownPaths::no_rooted))]
pub fn is_rooted(path: &ExprPath, names: &[Symbol]) -> bool
    ensures { result ≡ is_rooted (symbols names.now) (expr_path_view path.now) }
{
    match path.qself {
        None => path.path.leading && spells(&path.path.segments, names),
        Some(_) => false,
    }
}

/// Whether the path is `typify_present::some`.
pub fn reads_some(path: &ExprPath) -> bool
    ensures { result ≡ reads_some (expr_path_view path.now) }
{
    is_local(path, &SOME)
}

/// Whether the path is `typify_present::whole`.
pub fn reads_whole(path: &ExprPath) -> bool
    ensures { result ≡ reads_whole (expr_path_view path.now) }
{
    is_local(path, &WHOLE)
}

fn helper_at(path: &ExprPath) -> Helper
    ensures { helper_view result ≡ (if reads_some (expr_path_view path.now) then some_helper else if reads_whole (expr_path_view path.now) then whole_helper else no_helper) }
{
    if reads_some(path) {
        return Helper::Inner;
    }
    if reads_whole(path) {
        return Helper::Whole;
    }
    Helper::Nothing
}

/// How a present field is read, by the function that reads it.
pub(crate) fn helper_of(path: Option<&ExprPath>) -> Helper
    ensures { helper_view result ≡ helper_of (option_map (λ p. expr_path_view p.now) path.entry) }
{
    match path {
        Some(path) => helper_at(path),
        None => Helper::Nothing,
    }
}
