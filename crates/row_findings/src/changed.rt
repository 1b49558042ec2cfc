//! Schemas that a row puts in the place of a written one, by a keyword taken away or changed.
ghost use Rattle.std.specs.Prelude.{◌≡◌};
ghost use Rattle.schema_defs.specs.Schema.{object};
ghost use Rattle.convert_defs.specs.Standing.{of_type as of_type_of, less_types as less_types_of, less_enum as less_enum_of, less_const as less_const_of, less_reference as less_reference_of};
ghost use Rattle.row_findings.specs.Given.{plain_view, same_view, lists_view, named_view, keywords_view};

use crate::given::{GivenTypes, Keywords};
use schema_types::InstanceType;

/// The schema with that one type. It takes no memory.
pub fn of_type<'d>(keywords: &Keywords<'d>, kind: InstanceType) -> Keywords<'d>
    ensures plain { plain_view result ≡ of_type_of kind (plain_view keywords.now) }
    ensures same { same_view result ≡ same_view keywords.now }
    ensures lists { lists_view result ≡ lists_view keywords.now }
    ensures named { named_view result ≡ named_view keywords.now }
    ensures whole { keywords_view result ≡ object (of_type_of kind (plain_view keywords.now)) (same_view keywords.now) (lists_view keywords.now) (named_view keywords.now) }
{
    let written = *keywords;
    Keywords {
        types: Some(GivenTypes::One(kind)),
        ..written
    }
}

/// The schema without `type`. It takes no memory.
pub fn less_types<'d>(keywords: &Keywords<'d>) -> Keywords<'d>
    ensures plain { plain_view result ≡ less_types_of (plain_view keywords.now) }
    ensures same { same_view result ≡ same_view keywords.now }
    ensures lists { lists_view result ≡ lists_view keywords.now }
    ensures named { named_view result ≡ named_view keywords.now }
    ensures whole { keywords_view result ≡ object (less_types_of (plain_view keywords.now)) (same_view keywords.now) (lists_view keywords.now) (named_view keywords.now) }
{
    let written = *keywords;
    Keywords {
        types: None,
        ..written
    }
}

/// The schema without `enum`. It takes no memory.
pub fn less_enum<'d>(keywords: &Keywords<'d>) -> Keywords<'d>
    ensures plain { plain_view result ≡ less_enum_of (plain_view keywords.now) }
    ensures same { same_view result ≡ same_view keywords.now }
    ensures lists { lists_view result ≡ lists_view keywords.now }
    ensures named { named_view result ≡ named_view keywords.now }
    ensures whole { keywords_view result ≡ object (less_enum_of (plain_view keywords.now)) (same_view keywords.now) (lists_view keywords.now) (named_view keywords.now) }
{
    let written = *keywords;
    Keywords {
        enum_values: None,
        ..written
    }
}

/// The schema without `const`. It takes no memory.
pub fn less_const<'d>(keywords: &Keywords<'d>) -> Keywords<'d>
    ensures plain { plain_view result ≡ less_const_of (plain_view keywords.now) }
    ensures same { same_view result ≡ same_view keywords.now }
    ensures lists { lists_view result ≡ lists_view keywords.now }
    ensures named { named_view result ≡ named_view keywords.now }
    ensures whole { keywords_view result ≡ object (less_const_of (plain_view keywords.now)) (same_view keywords.now) (lists_view keywords.now) (named_view keywords.now) }
{
    let written = *keywords;
    Keywords {
        const_value: None,
        ..written
    }
}

/// The schema without `$ref`. It takes no memory.
pub fn less_reference<'d>(keywords: &Keywords<'d>) -> Keywords<'d>
    ensures plain { plain_view result ≡ less_reference_of (plain_view keywords.now) }
    ensures same { same_view result ≡ same_view keywords.now }
    ensures lists { lists_view result ≡ lists_view keywords.now }
    ensures named { named_view result ≡ named_view keywords.now }
    ensures whole { keywords_view result ≡ object (less_reference_of (plain_view keywords.now)) (same_view keywords.now) (lists_view keywords.now) (named_view keywords.now) }
{
    let written = *keywords;
    Keywords {
        reference: None,
        ..written
    }
}
