//! What a space ends with.
ghost use Rattle.std.specs.Prelude.{◌≡◌, is_some};
ghost use Rattle.entry_defs.specs.Space.{entry_at};
ghost use Rattle.entry_types.specs.View.{id_view};
ghost use Rattle.typify_convert.specs.Space.{entries_in};

use case_words::push_fault;
use regex_texts::RegexTexts;
use rust_syntax::ToTokens;
use std::alloc::{AllocError, Global};
use std::fmt::Write;
use token_trees::TokenStream;
use typify_convert::{Emitted, Note, TypeId, TypeSpace};

fn is_entry(space: &TypeSpace<'_>, id: TypeId) -> bool
    ensures { result ≡ is_some (entry_at (entries_in space.now) (id_view id)) }
{
    space.get_type(id).is_some()
}

/// The items and what goes with them, or the fault, behind an arrow.
pub(crate) fn push_end(
    alloc: Global,
    out: &mut String,
    space: TypeSpace<'_>,
    root: &str,
    texts: &mut RegexTexts,
) -> Result<(), AllocError> {
    out.push_str(" -> ")?;
    let Ok(root) = root.parse::<u32>() else {
        return out.push_str("no id");
    };
    let root = TypeId(root);
    if is_entry(&space, root) {
        return match space.finish(root, texts) {
            Ok(emitted) => push_emitted(alloc, out, &emitted),
            Err(fault) => push_fault(alloc, out, &fault),
        };
    }
    out.push_str("no entry")
}

fn push_tokens<T: ToTokens>(alloc: Global, out: &mut String, tree: &T) -> Result<(), AllocError> {
    let mut tokens = TokenStream::new(alloc);
    tree.to_tokens(&mut tokens)?;
    out.push_str(&tokens.text(alloc)?)
}

fn push_emitted(alloc: Global, out: &mut String, emitted: &Emitted) -> Result<(), AllocError> {
    for item in &emitted.items {
        push_tokens(alloc, out, item)?;
        out.push_str(" ")?;
    }
    push_tokens(alloc, out, &emitted.root)?;
    let constraints = emitted.table.constraints.len();
    let defaults = emitted.table.defaults.len();
    write!(out, "; {constraints} constraints, {defaults} defaults")?;
    push_notes(alloc, out, &emitted.notes)
}

fn push_notes(alloc: Global, out: &mut String, notes: &Vec<Note>) -> Result<(), AllocError> {
    for note in notes {
        let way = note.way.text();
        let kind = note.kind.text();
        let path = note.path.text(alloc)?;
        write!(out, "; {way} {kind} {path}")?;
    }
    Ok(())
}
