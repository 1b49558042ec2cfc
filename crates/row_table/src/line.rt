//! The lines of the table of conversion, in their order, and the first of them that fits.
ghost use Rattle.std.specs.Prelude.{◌≡◌, IfOk, option_map};
ghost use Rattle.schema_defs.specs.Texts.{Relations};
ghost use Rattle.schema_tree.specs.Document.{view as document_seen};
ghost use Rattle.convert_defs.specs.Table.{finding_of};
ghost use Rattle.row_findings.specs.Given.{keywords_view};
ghost use Rattle.type_rows.specs.Line.{held_view};
ghost use Rattle.row_table.specs.Lines.{names, found_by as found_by_line, first_of as first_of_lines};

use crate::owners::{array_line, object_line, untyped_array_line, untyped_object_line};
use crate::scalars::{
    boolean_line, constant_text_line, enumerated_line, integer_line, listed_line, text_line,
    untyped_text_line,
};
use crate::subschema::subschema_line;
use row_findings::{Cause, Finding, Keywords, refused};
use schema_tree::Document;
use std::alloc::{AllocError, Global};
use type_rows::{
    allowed_line, any_line, beside_null_line, conditional_line, constant_line, every_type_line,
    hold, null_line, one_of_types_line, only_type_line, reference_line, reference_of_type_line,
    reference_with_others_line, several_line,
};

/// A line of the table.
#[derive(Clone, Copy)]
pub enum Line {
    /// `if`, `then` or `else`.
    Conditional,
    /// Two types, with null.
    BesideNull,
    Text,
    UntypedText,
    /// Listed texts.
    Enumerated,
    ConstantText,
    Integer,
    Boolean,
    Object,
    UntypedObject,
    Array,
    UntypedArray,
    /// No keyword.
    Any,
    Null,
    /// A reference alone.
    Reference,
    /// One beside the type of its target.
    ReferenceOfType,
    ReferenceWithOthers,
    /// Listed values of one type.
    Allowed,
    /// Those without a type.
    Listed,
    /// One keyword of subschemas.
    Subschema,
    /// Several of them, or one beside others.
    Several,
    Constant,
    /// A list of all types.
    EveryType,
    /// A list of one type.
    OnlyType,
    OneOfTypes,
}

static LINES: [Line; 25] = [
    Line::Conditional,
    Line::BesideNull,
    Line::Text,
    Line::UntypedText,
    Line::Enumerated,
    Line::ConstantText,
    Line::Integer,
    Line::Boolean,
    Line::Object,
    Line::UntypedObject,
    Line::Array,
    Line::UntypedArray,
    Line::Any,
    Line::Null,
    Line::Reference,
    Line::ReferenceOfType,
    Line::ReferenceWithOthers,
    Line::Allowed,
    Line::Listed,
    Line::Subschema,
    Line::Several,
    Line::Constant,
    Line::EveryType,
    Line::OnlyType,
    Line::OneOfTypes,
];

fn all_lines() -> &'static [Line]
    ensures { result.now ≡ names }
{
    &LINES
}

// What the line finds, where it fits.
fn found_by<'d>(
    alloc: Global,
    document: &'d Document,
    keywords: &Keywords<'d>,
    line: Line,
) -> Result<Option<Box<Finding<'d>>>, AllocError>
    ensures { IfOk result (λ o. (r : Relations) → option_map (held_view r) o ≡ found_by_line r (document_seen document.now) keywords.now line) }
{
    match line {
        Line::Conditional => conditional_line(alloc, keywords),
        Line::BesideNull => beside_null_line(alloc, keywords),
        Line::Text => text_line(alloc, keywords),
        Line::UntypedText => untyped_text_line(alloc, keywords),
        Line::Enumerated => enumerated_line(alloc, keywords),
        Line::ConstantText => constant_text_line(alloc, keywords),
        Line::Integer => integer_line(alloc, keywords),
        Line::Boolean => boolean_line(alloc, keywords),
        Line::Object => object_line(alloc, document, keywords),
        Line::UntypedObject => untyped_object_line(alloc, document, keywords),
        Line::Array => array_line(alloc, keywords),
        Line::UntypedArray => untyped_array_line(alloc, keywords),
        Line::Any => any_line(alloc, keywords),
        Line::Null => null_line(alloc, keywords),
        Line::Reference => reference_line(alloc, keywords),
        Line::ReferenceOfType => reference_of_type_line(alloc, document, keywords),
        Line::ReferenceWithOthers => reference_with_others_line(alloc, document, keywords),
        Line::Allowed => allowed_line(alloc, keywords),
        Line::Listed => listed_line(alloc, keywords),
        Line::Subschema => subschema_line(alloc, document, keywords),
        Line::Several => several_line(alloc, keywords),
        Line::Constant => constant_line(alloc, keywords),
        Line::EveryType => every_type_line(alloc, keywords),
        Line::OnlyType => only_type_line(alloc, keywords),
        Line::OneOfTypes => one_of_types_line(alloc, keywords),
    }
}

// What the first of the lines that fits finds, or that none does.
fn first_of<'d>(
    alloc: Global,
    document: &'d Document,
    keywords: &Keywords<'d>,
    lines: &[Line],
) -> Result<Box<Finding<'d>>, AllocError>
    ensures { IfOk result (λ b. (r : Relations) → held_view r b ≡ first_of_lines r (document_seen document.now) keywords.now lines.now) }
{
    for line in lines {
        if let Some(finding) = found_by(alloc, document, keywords, *line)? {
            return Ok(finding);
        }
    }
    let none = hold(alloc, refused(alloc, Cause::Mix))?;
    Ok(none)
}

/// What the first line of the table that fits finds.
pub fn by_keywords<'d>(
    alloc: Global,
    document: &'d Document,
    keywords: &Keywords<'d>,
) -> Result<Box<Finding<'d>>, AllocError>
    ensures { IfOk result (λ b. (r : Relations) → held_view r b ≡ finding_of r (document_seen document.now) (keywords_view keywords.now)) }
{
    let found = first_of(alloc, document, keywords, all_lines())?;
    Ok(found)
}
