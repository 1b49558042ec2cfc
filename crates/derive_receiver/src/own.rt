//! What stands in place of `Self`: the item's name, with the item's parameters as arguments.
ghost use Rattle.std.specs.Prelude.{◌≡◌, IfOk, OnOk, OnErr, map, flat_map, false, string_bytes, ◌++◌};
ghost use Rattle.token_trees.specs.View.{name_view};
ghost use Rattle.syntax_trees.specs.View.{ty, path_view, generic_view, arguments_view};
ghost use Rattle.syntax_trees.specs.Syntax.{ty_path, no_qself, path, segment, more_segments, end_segments};
ghost use Rattle.syntax_trees.specs.Item.{param_view};
ghost use Rattle.derive_receiver.specs.Own.{own_of, lifetime_name, other_name, name_at, lifetime_at, parameter_at, arguments_at, in_angles, own_path, own_ty};
ghost use Rattle.derive_receiver.specs.View.{own_view};

use std::alloc::{AllocError, Global};
use syntax_trees::{GenericArgument, GenericParam, Lifetime, Path, PathArguments, PathSegment, Ty};
use token_trees::{Ident, Span};

// An item's name, its lifetimes without their quotes, and its other parameters.
#[derive(Drop)]
pub(crate) struct Receiver {
    pub(crate) name: String,
    pub(crate) lifetimes: Vec<String>,
    pub(crate) others: Vec<String>,
}

fn push_lifetime(
    alloc: Global,
    names: &mut Vec<String>,
    param: &GenericParam,
) -> Result<(), AllocError>
    ensures { OnOk result (map string_bytes names.new.items ≡ map string_bytes names.old.items ++ lifetime_name (param_view param.now)) }
{
    match param {
        GenericParam::Lifetime(lifetime) => {
            names.push(String::from_str(alloc, &lifetime.ident.text)?)?;
            Ok(())
        }
        GenericParam::Ty { .. } => Ok(()),
        GenericParam::Const { .. } => Ok(()),
    }
}

fn push_other(
    alloc: Global,
    names: &mut Vec<String>,
    param: &GenericParam,
) -> Result<(), AllocError>
    ensures { OnOk result (map string_bytes names.new.items ≡ map string_bytes names.old.items ++ other_name (param_view param.now)) }
{
    match param {
        GenericParam::Lifetime(_) => Ok(()),
        GenericParam::Ty { ident, .. } => {
            names.push(String::from_str(alloc, &ident.text)?)?;
            Ok(())
        }
        GenericParam::Const { ident, .. } => {
            names.push(String::from_str(alloc, &ident.text)?)?;
            Ok(())
        }
    }
}

fn names_of_lifetimes(alloc: Global, params: &Vec<GenericParam>) -> Result<Vec<String>, AllocError>
    ensures { IfOk result (λ v. map string_bytes v.items ≡ flat_map lifetime_name (map param_view params.now.items)) }
{
    let mut names = Vec::new(alloc);
    for param in params {
        push_lifetime(alloc, &mut names, param)?;
    }
    Ok(names)
}

fn names_of_others(alloc: Global, params: &Vec<GenericParam>) -> Result<Vec<String>, AllocError>
    ensures { IfOk result (λ v. map string_bytes v.items ≡ flat_map other_name (map param_view params.now.items)) }
{
    let mut names = Vec::new(alloc);
    for param in params {
        push_other(alloc, &mut names, param)?;
    }
    Ok(names)
}

fn name_there(alloc: Global, name: &String, at: Span) -> Result<Ident, AllocError>
    ensures { IfOk result (λ i. name_view i ≡ name_at at (string_bytes name.now)) }
{
    Ok(Ident {
        text: String::from_str(alloc, name)?,
        span: at,
    })
}

fn lifetime_there(alloc: Global, name: &String, at: Span) -> Result<GenericArgument, AllocError>
    ensures { IfOk result (λ g. generic_view g ≡ lifetime_at at (string_bytes name.now)) }
{
    Ok(GenericArgument::Lifetime(Lifetime {
        ident: name_there(alloc, name, at)?,
        span: at,
    }))
}

// A path of that one segment.
fn path_of(alloc: Global, ident: Ident, arguments: PathArguments) -> Result<Path, AllocError>
    ensures { IfOk result (λ p. path_view p ≡ path false (more_segments (segment (name_view ident) (arguments_view arguments)) end_segments)) }
{
    let mut segments = Vec::with_capacity(alloc, 1)?;
    segments.push(PathSegment { ident, arguments })?;
    Ok(Path {
        leading: false,
        segments,
    })
}

// The type that is that path alone.
fn plain_ty(path: Path) -> Ty
    ensures { ty result ≡ ty_path no_qself (path_view path) }
{
    Ty::Path { qself: None, path }
}

fn parameter_there(alloc: Global, name: &String, at: Span) -> Result<GenericArgument, AllocError>
    ensures { IfOk result (λ g. generic_view g ≡ parameter_at at (string_bytes name.now)) }
{
    let path = path_of(alloc, name_there(alloc, name, at)?, PathArguments::None)?;
    let ty = plain_ty(path);
    Ok(GenericArgument::Ty(ty))
}

fn lifetimes_there(
    alloc: Global,
    names: &Vec<String>,
    at: Span,
) -> Result<Vec<GenericArgument>, AllocError>
    ensures { IfOk result (λ v. map generic_view v.items ≡ map (lifetime_at at) (map string_bytes names.now.items)) }
{
    let mut arguments = Vec::with_capacity(alloc, names.len())?;
    for name in names {
        arguments.push(lifetime_there(alloc, name, at)?)?;
    }
    Ok(arguments)
}

fn parameters_there(
    alloc: Global,
    names: &Vec<String>,
    at: Span,
) -> Result<Vec<GenericArgument>, AllocError>
    ensures { IfOk result (λ v. map generic_view v.items ≡ map (parameter_at at) (map string_bytes names.now.items)) }
{
    let mut arguments = Vec::with_capacity(alloc, names.len())?;
    for name in names {
        arguments.push(parameter_there(alloc, name, at)?)?;
    }
    Ok(arguments)
}

// Arguments in angle brackets, where there are some.
fn between_angles(turbofish: bool, args: Vec<GenericArgument>) -> PathArguments
    ensures { arguments_view result ≡ in_angles turbofish (map generic_view args.items) }
{
    if args.is_empty() {
        PathArguments::None
    } else {
        PathArguments::Angle { turbofish, args }
    }
}

impl Receiver {
    pub(crate) fn of(
        alloc: Global,
        name: &Ident,
        params: &Vec<GenericParam>,
    ) -> Result<Receiver, AllocError>
        ensures { IfOk result (λ r. own_view r ≡ own_of (name_view name.now) (map param_view params.now.items)) }
    {
        Ok(Receiver {
            name: String::from_str(alloc, &name.text)?,
            lifetimes: names_of_lifetimes(alloc, params)?,
            others: names_of_others(alloc, params)?,
        })
    }

    fn arguments(&self, alloc: Global, at: Span) -> Result<Vec<GenericArgument>, AllocError>
        ensures { IfOk result (λ v. map generic_view v.items ≡ arguments_at at (own_view self.now)) }
    {
        let mut arguments = lifetimes_there(alloc, &self.lifetimes, at)?;
        let mut others = parameters_there(alloc, &self.others, at)?;
        arguments.append(&mut others)?;
        Ok(arguments)
    }

    // The item's name with its arguments, with `::` between the two where `turbofish`.
    pub(crate) fn path(&self, alloc: Global, turbofish: bool, at: Span) -> Result<Path, AllocError>
        ensures { IfOk result (λ p. path_view p ≡ own_path turbofish at (own_view self.now)) }
    {
        let arguments = between_angles(turbofish, self.arguments(alloc, at)?);
        let path = path_of(alloc, name_there(alloc, &self.name, at)?, arguments)?;
        Ok(path)
    }

    pub(crate) fn ty(&self, alloc: Global, at: Span) -> Result<Ty, AllocError>
        ensures { IfOk result (λ t. ty t ≡ own_ty at (own_view self.now)) }
    {
        let path = self.path(alloc, false, at)?;
        let ty = plain_ty(path);
        Ok(ty)
    }
}
