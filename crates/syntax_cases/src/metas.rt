//! A cursor over metas, step by step.
use crate::tokens::{PLACE, show_tree};
use rust_syntax::{MetaCursor, SyntaxError};
use rust_tokens::{TokenTree, lex};
use std::alloc::{AllocError, Global};

fn push_trees(trees: &[TokenTree], out: &mut String) -> Result<(), AllocError> {
    for tree in trees {
        show_tree(tree, 9, out)?;
    }
    Ok(())
}

fn push_path(
    found: Result<Option<&[TokenTree]>, SyntaxError>,
    out: &mut String,
) -> Result<(), AllocError> {
    out.push_str("; next")?;
    match found {
        Ok(Some(path)) => push_trees(path, out),
        Ok(None) => out.push_str(" none"),
        Err(_) => out.push_str(" !"),
    }
}

fn push_value(
    found: Result<&[TokenTree], SyntaxError>,
    out: &mut String,
) -> Result<(), AllocError> {
    out.push_str("; value")?;
    match found {
        Ok(value) => push_trees(value, out),
        Err(_) => out.push_str(" !"),
    }
}

fn push_said(label: &str, so: bool, out: &mut String) -> Result<(), AllocError> {
    out.push_str(label)?;
    out.push_str(if so { " yes" } else { " no" })
}

// A name and its value; there is no second value.
fn push_pair(metas: &mut MetaCursor<'_>, out: &mut String) -> Result<(), AllocError> {
    push_path(metas.next(), out)?;
    push_said("; eq", metas.peek_eq(), out)?;
    push_value(metas.value(), out)?;
    push_value(metas.value(), out)?;
    push_said("; end", metas.finish_meta().is_ok(), out)
}

// A group and what stands in it; there is no second group.
fn push_group(metas: &mut MetaCursor<'_>, out: &mut String) -> Result<(), AllocError> {
    push_said("; paren", metas.peek_paren(), out)?;
    match metas.nested() {
        Ok(group) => {
            let mut inner = group;
            push_path(inner.next(), out)?;
            push_path(inner.next(), out)?;
        }
        Err(_) => out.push_str("; no group")?,
    }
    push_said("; nested", metas.nested().is_ok(), out)?;
    push_said("; end", metas.finish_meta().is_ok(), out)
}

/// What a cursor over the metas of a text answers: of a name with its value, and of a group behind it.
pub(crate) fn metas_text(alloc: Global, text: &str) -> Result<String, AllocError> {
    let Ok(stream) = lex(alloc, text, PLACE) else {
        return String::from_str(alloc, "no tokens");
    };
    let mut out = String::from_str(alloc, "over")?;
    let mut metas = MetaCursor::over(&stream, PLACE);
    push_pair(&mut metas, &mut out)?;
    push_group(&mut metas, &mut out)?;
    Ok(out)
}
