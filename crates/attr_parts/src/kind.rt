//! The kinds of diagnostics, and diagnostics with their places.
ghost use Rattle.std.specs.Prelude.{◌≡◌, Some};
ghost use Rattle.attr_parts.specs.Diagnostics.{kind_view};
ghost use Rattle.attr_parts.specs.Texts.{text_of, kind_text, front_text, mark_text};

use crate::rename::ParseError;
use std::fmt;
use syntax_trees::SyntaxKind;
use token_trees::Span;

/// What is wrong with an item's attributes, or with the item (serde_derive's own errors).
pub enum DiagKind {
    /// A second value of that attribute.
    Duplicate(String),
    /// A container has no attribute of that path.
    UnknownContainer(String),
    /// A variant has no attribute of that path.
    UnknownVariant(String),
    /// A field has no attribute of that path.
    UnknownField(String),
    /// No rule of renaming has that name.
    UnknownRule(String),
    /// `rename_all_fields` on what is no enum.
    RenameFieldsPlace,
    /// `untagged` on what is no enum.
    UntaggedPlace,
    /// `default` on a struct without fields.
    DefaultUnit,
    /// `default` on what is no struct.
    DefaultPlace,
    /// `default` with a path on a struct without fields.
    DefaultPathUnit,
    /// `default` with a path on what is no struct.
    DefaultPathPlace,
    /// `tag` on neither an enum nor a struct with named fields.
    TagPlace,
    /// `content` on what is no enum.
    ContentPlace,
    /// An internal tag on an enum with a tuple variant.
    TagTuple,
    /// `untagged` beside `tag`.
    UntaggedTag,
    /// `content` without `tag`.
    ContentAlone,
    /// `untagged` beside `content`.
    UntaggedContent,
    /// `untagged` beside `tag` and `content`.
    UntaggedBoth,
    /// `field_identifier` beside `variant_identifier`.
    TwoIdentifiers,
    /// `field_identifier` on what is no enum.
    FieldIdPlace,
    /// `variant_identifier` on what is no enum.
    VariantIdPlace,
    /// `borrow` on a variant that is no newtype.
    BorrowPlace,
    /// `borrow` on the field of that name, whose type has no lifetimes.
    NoLifetimes(String),
    /// `borrow` on the field of that name with a lifetime, the other text, that its type lacks.
    LacksLifetime(String, String),
    /// What stands in the list of that attribute is neither `serialize` nor `deserialize`.
    Halves(String),
    /// A value of the first attribute that is no string; it stands behind the second name.
    ExpectedString(String, String),
    /// A string literal with that suffix.
    Suffix(String),
    /// That text is no path.
    BadPath(String),
    /// The text of that attribute, the second one, is no type.
    BadType(String, String),
    /// That text is no list of lifetimes.
    BadLifetimes(String),
    /// A lifetime that stands twice in a list.
    RepeatedLifetime(String),
    /// A list of lifetimes that is empty.
    NoLifetimeGiven,
    /// The tokens do not read as metas.
    Syntax(SyntaxKind),
    /// The item is a union.
    Union,
    /// An untagged variant before one that isn't.
    UntaggedOrder,
    /// A field without a default after one with a default, whose place from 0 is given.
    DefaultOrder(usize),
    /// `remote` with arguments on an item with parameters.
    RemoteGeneric,
    /// `getter` in an enum.
    GetterEnum,
    /// `getter` without `remote`.
    GetterRemote,
    /// `flatten` on a field of a tuple struct.
    FlattenTuple,
    /// `flatten` on the field of a newtype struct.
    FlattenNewtype,
    /// `other` in a variant identifier.
    OtherIdentifier,
    /// `other` in an untagged enum.
    OtherUntagged,
    /// `other` on a variant that isn't the last.
    OtherLast,
    /// `other` on a variant that is no unit.
    OtherUnit,
    /// A newtype variant of that name before the last in a field identifier.
    NewtypeLast(String),
    /// A variant with fields in a field identifier.
    FieldIdUnit,
    /// A variant with fields in a variant identifier.
    VariantIdUnit,
    /// The variant of that name has `serialize_with` and `skip_serializing`.
    SkipSer(String),
    /// The variant has `serialize_with`, and that member of it `skip_serializing`.
    SkipSerField(String, String),
    /// The variant has `serialize_with`, and that member of it `skip_serializing_if`.
    SkipIfField(String, String),
    /// The variant of that name has `deserialize_with` and `skip_deserializing`.
    SkipDe(String),
    /// The variant has `deserialize_with`, and that member of it `skip_deserializing`.
    SkipDeField(String, String),
    /// A field of a variant has the name of the internal tag.
    TagConflict(String),
    /// That text is tag and content.
    SameTags(String),
    /// `transparent` beside `from`.
    TransparentFrom,
    /// `transparent` beside `try_from`.
    TransparentTryFrom,
    /// `transparent` beside `into`.
    TransparentInto,
    /// `transparent` on an enum.
    TransparentEnum,
    /// `transparent` on a unit struct.
    TransparentUnit,
    /// `transparent` with two fields that count.
    TransparentMany,
    /// `transparent` without a field that is written.
    TransparentNoneSer,
    /// `transparent` without a field that is read and has no default.
    TransparentNoneDe,
    /// `from` beside `try_from`.
    FromConflict,
}

impl Drop for DiagKind {
    fn drop(self) {
        match self {
            DiagKind::Duplicate(_text)
            | DiagKind::UnknownContainer(_text)
            | DiagKind::UnknownVariant(_text)
            | DiagKind::UnknownField(_text)
            | DiagKind::UnknownRule(_text)
            | DiagKind::NoLifetimes(_text)
            | DiagKind::Halves(_text)
            | DiagKind::Suffix(_text)
            | DiagKind::BadPath(_text)
            | DiagKind::BadLifetimes(_text)
            | DiagKind::RepeatedLifetime(_text)
            | DiagKind::NewtypeLast(_text)
            | DiagKind::SkipSer(_text)
            | DiagKind::SkipDe(_text)
            | DiagKind::TagConflict(_text)
            | DiagKind::SameTags(_text) => {}
            DiagKind::RenameFieldsPlace
            | DiagKind::UntaggedPlace
            | DiagKind::DefaultUnit
            | DiagKind::DefaultPlace
            | DiagKind::DefaultPathUnit
            | DiagKind::DefaultPathPlace
            | DiagKind::TagPlace
            | DiagKind::ContentPlace
            | DiagKind::TagTuple
            | DiagKind::UntaggedTag
            | DiagKind::ContentAlone
            | DiagKind::UntaggedContent
            | DiagKind::UntaggedBoth
            | DiagKind::TwoIdentifiers
            | DiagKind::FieldIdPlace
            | DiagKind::VariantIdPlace
            | DiagKind::BorrowPlace
            | DiagKind::NoLifetimeGiven
            | DiagKind::Syntax(_)
            | DiagKind::Union
            | DiagKind::UntaggedOrder
            | DiagKind::DefaultOrder(_)
            | DiagKind::RemoteGeneric
            | DiagKind::GetterEnum
            | DiagKind::GetterRemote
            | DiagKind::FlattenTuple
            | DiagKind::FlattenNewtype
            | DiagKind::OtherIdentifier
            | DiagKind::OtherUntagged
            | DiagKind::OtherLast
            | DiagKind::OtherUnit
            | DiagKind::FieldIdUnit
            | DiagKind::VariantIdUnit
            | DiagKind::TransparentFrom
            | DiagKind::TransparentTryFrom
            | DiagKind::TransparentInto
            | DiagKind::TransparentEnum
            | DiagKind::TransparentUnit
            | DiagKind::TransparentMany
            | DiagKind::TransparentNoneSer
            | DiagKind::TransparentNoneDe
            | DiagKind::FromConflict => {}
            DiagKind::LacksLifetime(_text, _other_text)
            | DiagKind::ExpectedString(_text, _other_text)
            | DiagKind::BadType(_text, _other_text)
            | DiagKind::SkipSerField(_text, _other_text)
            | DiagKind::SkipIfField(_text, _other_text)
            | DiagKind::SkipDeField(_text, _other_text) => {}
        }
    }
}

/// What is wrong, and where.
pub struct Diagnostic {
    pub kind: DiagKind,
    pub span: Span,
}

impl Drop for Diagnostic {
    fn drop(self) {
        let Diagnostic {
            kind: _kind,
            span: _,
        } = self;
    }
}

// The name of the kind of syntax error.
fn syntax_name(kind: SyntaxKind) -> &'static str
    ensures { result.now ≡ kind_text kind }
{
    match kind {
        SyntaxKind::ExpectedArguments => "ExpectedArguments",
        SyntaxKind::ExpectedPath => "ExpectedPath",
        SyntaxKind::ExpectedComma => "ExpectedComma",
        SyntaxKind::ExpectedEq => "ExpectedEq",
        SyntaxKind::ExpectedEqOrParen => "ExpectedEqOrParen",
        SyntaxKind::ExpectedParen => "ExpectedParen",
        SyntaxKind::ExpectedValue => "ExpectedValue",
        SyntaxKind::ExpectedIdent => "ExpectedIdent",
        SyntaxKind::ExpectedType => "ExpectedType",
        SyntaxKind::ExpectedGt => "ExpectedGt",
        SyntaxKind::ExpectedLifetime => "ExpectedLifetime",
        SyntaxKind::ExpectedPlus => "ExpectedPlus",
        SyntaxKind::ExpectedBound => "ExpectedBound",
        SyntaxKind::UnexpectedToken => "UnexpectedToken",
        SyntaxKind::Lex => "Lex",
    }
}

// A variant with an attribute that stands beside something.
#[derive(Clone, Copy)]
struct Front<'a> {
    variant: &'a str,
    attribute: &'a str,
}

impl fmt::Display for Front<'_> {
    ghost output = { λ x. Some (front_text x.variant.now x.attribute.now) };

    fn fmt<W: fmt::Write>(&self, f: &mut fmt::Formatter<W>) -> fmt::Result {
        let variant = self.variant;
        let attribute = self.attribute;
        write!(
            f,
            "variant `{variant}` cannot have both #[serde({attribute})] and "
        )
    }
}

// A member with an attribute.
#[derive(Clone, Copy)]
struct Mark<'a> {
    member: &'a str,
    attribute: &'a str,
}

impl fmt::Display for Mark<'_> {
    ghost output = { λ x. Some (mark_text x.member.now x.attribute.now) };

    fn fmt<W: fmt::Write>(&self, f: &mut fmt::Formatter<W>) -> fmt::Result {
        let member = self.member;
        let attribute = self.attribute;
        write!(f, "a field {member} marked with #[serde({attribute})]")
    }
}

impl fmt::Display for DiagKind {
    ghost output = { λ k. text_of (kind_view k) };

    fn fmt<W: fmt::Write>(&self, f: &mut fmt::Formatter<W>) -> fmt::Result {
        match self {
            DiagKind::Duplicate(a) => write!(f, "duplicate serde attribute `{a}`"),
            DiagKind::UnknownContainer(a) => write!(f, "unknown serde container attribute `{a}`"),
            DiagKind::UnknownVariant(a) => write!(f, "unknown serde variant attribute `{a}`"),
            DiagKind::UnknownField(a) => write!(f, "unknown serde field attribute `{a}`"),
            DiagKind::UnknownRule(a) => {
                let error = ParseError {
                    unknown: a.as_str(),
                };
                error.fmt(f)
            }
            DiagKind::RenameFieldsPlace => f.write_str(
                "#[serde(rename_all_fields)] can only be used on enums",
            ),
            DiagKind::UntaggedPlace => f.write_str("#[serde(untagged)] can only be used on enums"),
            DiagKind::DefaultUnit => f.write_str(
                "#[serde(default)] can only be used on structs that have fields",
            ),
            DiagKind::DefaultPlace => f.write_str("#[serde(default)] can only be used on structs"),
            DiagKind::DefaultPathUnit => f.write_str(
                "#[serde(default = \"...\")] can only be used on structs that have fields",
            ),
            DiagKind::DefaultPathPlace => f.write_str(
                "#[serde(default = \"...\")] can only be used on structs",
            ),
            DiagKind::TagPlace => f.write_str(
                "#[serde(tag = \"...\")] can only be used on enums and structs with named fields",
            ),
            DiagKind::ContentPlace => f.write_str(
                "#[serde(content = \"...\")] can only be used on enums",
            ),
            DiagKind::TagTuple => f.write_str(
                "#[serde(tag = \"...\")] cannot be used with tuple variants",
            ),
            DiagKind::UntaggedTag => f.write_str(
                "enum cannot be both untagged and internally tagged",
            ),
            DiagKind::ContentAlone => f.write_str(
                "#[serde(tag = \"...\", content = \"...\")] must be used together",
            ),
            DiagKind::UntaggedContent => f.write_str(
                "untagged enum cannot have #[serde(content = \"...\")]",
            ),
            DiagKind::UntaggedBoth => f.write_str(
                "untagged enum cannot have #[serde(tag = \"...\", content = \"...\")]",
            ),
            DiagKind::TwoIdentifiers => f.write_str(
                "#[serde(field_identifier)] and #[serde(variant_identifier)] cannot both be set",
            ),
            DiagKind::FieldIdPlace => f.write_str(
                "#[serde(field_identifier)] can only be used on an enum",
            ),
            DiagKind::VariantIdPlace => f.write_str(
                "#[serde(variant_identifier)] can only be used on an enum",
            ),
            DiagKind::BorrowPlace => f.write_str(
                "#[serde(borrow)] may only be used on newtype variants",
            ),
            DiagKind::NoLifetimes(a) => write!(f, "field `{a}` has no lifetimes to borrow"),
            DiagKind::LacksLifetime(a, b) => write!(f, "field `{a}` does not have lifetime {b}"),
            DiagKind::Halves(a) => write!(
                f,
                "malformed {a} attribute, expected `{a}(serialize = ..., deserialize = ...)`"
            ),
            DiagKind::ExpectedString(a, b) => write!(
                f,
                "expected serde {a} attribute to be a string: `{b} = \"...\"`"
            ),
            DiagKind::Suffix(a) => write!(f, "unexpected suffix `{a}` on string literal"),
            DiagKind::BadPath(a) => write!(f, "failed to parse path: {a:?}"),
            DiagKind::BadType(a, b) => write!(f, "failed to parse type: {a} = {b:?}"),
            DiagKind::BadLifetimes(a) => write!(f, "failed to parse borrowed lifetimes: {a:?}"),
            DiagKind::RepeatedLifetime(a) => write!(f, "duplicate borrowed lifetime `{a}`"),
            DiagKind::NoLifetimeGiven => f.write_str("at least one lifetime must be borrowed"),
            DiagKind::Syntax(a) => f.write_str(syntax_name(*a)),
            DiagKind::Union => f.write_str("Serde does not support derive for unions"),
            DiagKind::UntaggedOrder => f.write_str(
                "all variants with the #[serde(untagged)] attribute must be placed at the end of the enum",
            ),
            DiagKind::DefaultOrder(a) => write!(
                f,
                "field must have #[serde(default)] because previous field {a} has #[serde(default)]"
            ),
            DiagKind::RemoteGeneric => f.write_str("remove generic parameters from this path"),
            DiagKind::GetterEnum => f.write_str(
                "#[serde(getter = \"...\")] is not allowed in an enum",
            ),
            DiagKind::GetterRemote => f.write_str(
                "#[serde(getter = \"...\")] can only be used in structs that have #[serde(remote = \"...\")]",
            ),
            DiagKind::FlattenTuple => f.write_str(
                "#[serde(flatten)] cannot be used on tuple structs",
            ),
            DiagKind::FlattenNewtype => f.write_str(
                "#[serde(flatten)] cannot be used on newtype structs",
            ),
            DiagKind::OtherIdentifier => f.write_str(
                "#[serde(other)] may not be used on a variant identifier",
            ),
            DiagKind::OtherUntagged => f.write_str(
                "#[serde(other)] cannot appear on untagged enum",
            ),
            DiagKind::OtherLast => f.write_str("#[serde(other)] must be on the last variant"),
            DiagKind::OtherUnit => f.write_str("#[serde(other)] must be on a unit variant"),
            DiagKind::NewtypeLast(a) => write!(f, "`{a}` must be the last variant"),
            DiagKind::FieldIdUnit => f.write_str(
                "#[serde(field_identifier)] may only contain unit variants",
            ),
            DiagKind::VariantIdUnit => f.write_str(
                "#[serde(variant_identifier)] may only contain unit variants",
            ),
            DiagKind::SkipSer(a) => write!(
                f,
                "variant `{a}` cannot have both #[serde(serialize_with)] and #[serde(skip_serializing)]"
            ),
            DiagKind::SkipSerField(a, b) => {
                let front = Front {
                    variant: a.as_str(),
                    attribute: "serialize_with",
                };
                let mark = Mark {
                    member: b.as_str(),
                    attribute: "skip_serializing",
                };
                write!(f, "{front}{mark}")
            }
            DiagKind::SkipIfField(a, b) => {
                let front = Front {
                    variant: a.as_str(),
                    attribute: "serialize_with",
                };
                let mark = Mark {
                    member: b.as_str(),
                    attribute: "skip_serializing_if",
                };
                write!(f, "{front}{mark}")
            }
            DiagKind::SkipDe(a) => write!(
                f,
                "variant `{a}` cannot have both #[serde(deserialize_with)] and #[serde(skip_deserializing)]"
            ),
            DiagKind::SkipDeField(a, b) => {
                let front = Front {
                    variant: a.as_str(),
                    attribute: "deserialize_with",
                };
                let mark = Mark {
                    member: b.as_str(),
                    attribute: "skip_deserializing",
                };
                write!(f, "{front}{mark}")
            }
            DiagKind::TagConflict(a) => write!(
                f,
                "variant field name `{a}` conflicts with internal tag"
            ),
            DiagKind::SameTags(a) => write!(
                f,
                "enum tags `{a}` for type and content conflict with each other"
            ),
            DiagKind::TransparentFrom => f.write_str(
                "#[serde(transparent)] is not allowed with #[serde(from = \"...\")]",
            ),
            DiagKind::TransparentTryFrom => f.write_str(
                "#[serde(transparent)] is not allowed with #[serde(try_from = \"...\")]",
            ),
            DiagKind::TransparentInto => f.write_str(
                "#[serde(transparent)] is not allowed with #[serde(into = \"...\")]",
            ),
            DiagKind::TransparentEnum => f.write_str(
                "#[serde(transparent)] is not allowed on an enum",
            ),
            DiagKind::TransparentUnit => f.write_str(
                "#[serde(transparent)] is not allowed on a unit struct",
            ),
            DiagKind::TransparentMany => f.write_str(
                "#[serde(transparent)] requires struct to have at most one transparent field",
            ),
            DiagKind::TransparentNoneSer => f.write_str(
                "#[serde(transparent)] requires at least one field that is not skipped",
            ),
            DiagKind::TransparentNoneDe => f.write_str(
                "#[serde(transparent)] requires at least one field that is neither skipped nor has a default",
            ),
            DiagKind::FromConflict => f.write_str(
                "#[serde(from = \"...\")] and #[serde(try_from = \"...\")] conflict with each other",
            ),
        }
    }
}

impl fmt::Display for Diagnostic {
    ghost output = { λ d. text_of (kind_view d.kind) };

    fn fmt<W: fmt::Write>(&self, f: &mut fmt::Formatter<W>) -> fmt::Result {
        self.kind.fmt(f)
    }
}
