//! Cases of the reader of containers: each line of standard input tells a derive and an item, and a line is printed of what is
//! told of the item, each diagnostic with its place, and, behind ` | `, of the container that it is read as.
//!
//! A line has two columns with ` | ` between them. The first is `ser` or `de`, for a derive, and behind it a renamer: `marks`
//! puts `v_` before a variant's name and `f_` before a field's, and `zed` answers `z`. The second is the item as Rust writes it.
//! In types no comma stands outside of groups and angle brackets, and in parameters none outside of groups.
//!
//! A line whose first column begins with `module` has items in the second, with ` ;; ` between them, and types in a third. Behind
//! `module` stand rules, as `S=allow:1,2`, `S=deny:1` and `S=text:LEAST:MOST:ALL:ANY`, and a `d` for each stated default. Printed are
//! `module` and whether each type is known, or what is told of the items, or the number of the first item that leaves the forms of
//! the reader of values.
//!
//! A line whose first column begins with `value` and a type has items in the second, as before, and a value in a third. Printed is whether
//! a module of these items takes the value as that type, or the place where reading stops; `other numbers` where one is no i64 and no u64.
//!
//! A line whose first column begins with `covers` and two types, with ` -> ` between them, has the old items in the second and the new ones
//! in a third, or `-` where there are none. Behind ` @ ` stand their rules and stated defaults, as those of a module. Printed is `covered`,
//! or the rule that is broken, the way to the pair that breaks it, and that pair: types, or the numbers of an item and a variant. It is
//! `unknown` where a type isn't known, and `reaches itself` where an item does.
//!
//! A line whose first column is `text item` has one item, which is printed, and behind ` | ` its copy without `Self`.
//!
//! A place is the number of the first and of the last token, from 1, where both brackets of a group count. A container is
//! printed as its name, its style and its fields, or its variants with theirs. Where names differ from what is written, those
//! that are written and read follow behind `=`, with the other names that are read behind `+`. A star marks the field of a
//! transparent struct. Fields that all of them hold are told once more in a row behind `all`, and `getter` says that one of
//! them has a getter.
ghost use Rattle.std.specs.Prelude.{◌≡◌, ◌++◌, codes, string_bytes, IfOk};

use crate::covering::covers_answer;
use crate::modules::{module_answer, value_answer};
use crate::numbers::{Places, placed_trees};
use crate::show::{show_container, show_place};
use crate::texts::texts_answer;
use attr_parts::{Ctxt, Derive, Diagnostic, RenameRule, Renamer};
use case_items::{item_of, no_case};
use derive_ast::Container;
use rust_syntax::{DeriveInput, ParseFault};
use rust_tokens::{Ident, LexError, Span, TokenStream, lex};
use std::alloc::{AllocError, Global};
use std::fmt::Write;

/// Puts `v_` before a variant's name and `f_` before a field's, whatever the rule.
#[derive(Clone, Copy)]
pub(crate) struct Marks;

/// Answers `z`, whatever the rule and the name.
#[derive(Clone, Copy)]
struct Zed;

fn marked(alloc: Global, mark: &str, name: &str) -> Result<String, AllocError>
    ensures { IfOk result (λ s. string_bytes s ≡ mark.now ++ name.now) }
{
    let mut text = String::from_str(alloc, mark)?;
    text.push_str(name)?;
    Ok(text)
}

impl Renamer for Marks {
    ghost variant_name = { λ r n. codes "v_" ++ n };

    ghost field_name = { λ r n. codes "f_" ++ n };

    fn apply_to_variant(
        &self,
        alloc: Global,
        _rule: RenameRule,
        name: &str,
    ) -> Result<String, AllocError> {
        marked(alloc, "v_", name)
    }

    fn apply_to_field(
        &self,
        alloc: Global,
        _rule: RenameRule,
        name: &str,
    ) -> Result<String, AllocError> {
        marked(alloc, "f_", name)
    }
}

impl Renamer for Zed {
    ghost variant_name = { λ r n. codes "z" };

    ghost field_name = { λ r n. codes "z" };

    fn apply_to_variant(
        &self,
        alloc: Global,
        _rule: RenameRule,
        _name: &str,
    ) -> Result<String, AllocError> {
        String::from_str(alloc, "z")
    }

    fn apply_to_field(
        &self,
        alloc: Global,
        _rule: RenameRule,
        _name: &str,
    ) -> Result<String, AllocError> {
        String::from_str(alloc, "z")
    }
}

/// The tokens of the text.
pub(crate) fn tokens_of(alloc: Global, text: &str) -> Result<TokenStream, ParseFault> {
    match lex(alloc, text, Span::call_site()) {
        Ok(stream) => Ok(stream),
        Err(LexError::Memory) => Err(ParseFault::Memory),
        Err(LexError::Bad { .. }) => Err(no_case()),
    }
}

/// Diagnostics, each with its place.
pub(crate) fn show_told(out: &mut String, told: &[Diagnostic]) -> Result<(), AllocError> {
    for diagnostic in told {
        if !out.is_empty() {
            out.push_str("; ")?;
        }
        write!(out, "{diagnostic}")?;
        show_place(out, diagnostic.span)?;
    }
    Ok(())
}

// What was collected.
fn told_of(alloc: Global, cx: Ctxt) -> Result<String, AllocError> {
    let mut out = String::new(alloc);
    match cx.check() {
        Ok(()) => out.push_str("ok")?,
        Err(told) => show_told(&mut out, &told)?,
    }
    out.push_str(" | ")?;
    Ok(out)
}

fn read<R: Renamer>(
    alloc: Global,
    item: &DeriveInput,
    derive: Derive,
    renamer: &R,
) -> Result<String, AllocError> {
    let private = Ident {
        text: String::from_str(alloc, "private")?,
        span: Span::call_site(),
    };
    let mut cx = Ctxt::new(alloc);
    let read = Container::from_ast(alloc, &mut cx, item, derive, &private, renamer);
    let mut line = told_of(alloc, cx)?;
    match read? {
        Some(container) => show_container(&mut line, &container)?,
        None => line.push_str("none")?,
    }
    Ok(line)
}

fn read_by(
    alloc: Global,
    item: &DeriveInput,
    derive: Derive,
    renamer: &str,
) -> Result<String, ParseFault> {
    let line = match renamer {
        "marks" => read(alloc, item, derive, &Marks)?,
        "zed" => read(alloc, item, derive, &Zed)?,
        _ => return Err(no_case()),
    };
    Ok(line)
}

fn derive_of(word: &str) -> Result<Derive, ParseFault> {
    match word {
        "ser" => Ok(Derive::Serialize),
        "de" => Ok(Derive::Deserialize),
        _ => Err(no_case()),
    }
}

/// The item that the text is, its tokens numbered from 1.
pub(crate) fn placed_item(alloc: Global, text: &str) -> Result<DeriveInput, ParseFault> {
    let tokens = tokens_of(alloc, text)?;
    let mut places = Places { last: 0 };
    let placed = placed_trees(alloc, tokens.trees(), 9, &mut places)?;
    item_of(alloc, placed.trees())
}

/// What is told of the item, and the container that it is read as; or what comes of a module's items, of a value by them, or of two modules.
pub(crate) fn answer(alloc: Global, line: &str) -> Result<String, ParseFault> {
    let Some((head, text)) = line.split_once(" | ") else {
        return Err(no_case());
    };
    let Some((word, renamer)) = head.split_once(" ") else {
        return Err(no_case());
    };
    if word == "module" {
        return module_answer(alloc, renamer, text);
    }
    if word == "value" {
        return value_answer(alloc, renamer, text);
    }
    if word == "covers" {
        return covers_answer(alloc, renamer, text);
    }
    if word == "text" {
        return texts_answer(alloc, text);
    }
    let derive = derive_of(word)?;
    let item = placed_item(alloc, text)?;
    read_by(alloc, &item, derive, renamer)
}
