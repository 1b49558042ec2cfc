//! Kinds by their names.
use attr_parts::DiagKind;
use std::alloc::{AllocError, Global};
use syntax_trees::SyntaxKind;

// The kinds without a text that attributes are told by.
fn attribute_kind(name: &str) -> Option<DiagKind> {
    match name {
        "RenameFieldsPlace" => Some(DiagKind::RenameFieldsPlace),
        "UntaggedPlace" => Some(DiagKind::UntaggedPlace),
        "DefaultUnit" => Some(DiagKind::DefaultUnit),
        "DefaultPlace" => Some(DiagKind::DefaultPlace),
        "DefaultPathUnit" => Some(DiagKind::DefaultPathUnit),
        "DefaultPathPlace" => Some(DiagKind::DefaultPathPlace),
        "TagPlace" => Some(DiagKind::TagPlace),
        "ContentPlace" => Some(DiagKind::ContentPlace),
        "TagTuple" => Some(DiagKind::TagTuple),
        "UntaggedTag" => Some(DiagKind::UntaggedTag),
        "ContentAlone" => Some(DiagKind::ContentAlone),
        "UntaggedContent" => Some(DiagKind::UntaggedContent),
        "UntaggedBoth" => Some(DiagKind::UntaggedBoth),
        "TwoIdentifiers" => Some(DiagKind::TwoIdentifiers),
        "FieldIdPlace" => Some(DiagKind::FieldIdPlace),
        "VariantIdPlace" => Some(DiagKind::VariantIdPlace),
        "BorrowPlace" => Some(DiagKind::BorrowPlace),
        "NoLifetimeGiven" => Some(DiagKind::NoLifetimeGiven),
        "Union" => Some(DiagKind::Union),
        _ => None,
    }
}

// The kinds without a text that items are told by.
fn item_kind(name: &str) -> Option<DiagKind> {
    match name {
        "UntaggedOrder" => Some(DiagKind::UntaggedOrder),
        "RemoteGeneric" => Some(DiagKind::RemoteGeneric),
        "GetterEnum" => Some(DiagKind::GetterEnum),
        "GetterRemote" => Some(DiagKind::GetterRemote),
        "FlattenTuple" => Some(DiagKind::FlattenTuple),
        "FlattenNewtype" => Some(DiagKind::FlattenNewtype),
        "OtherIdentifier" => Some(DiagKind::OtherIdentifier),
        "OtherUntagged" => Some(DiagKind::OtherUntagged),
        "OtherLast" => Some(DiagKind::OtherLast),
        "OtherUnit" => Some(DiagKind::OtherUnit),
        "FieldIdUnit" => Some(DiagKind::FieldIdUnit),
        "VariantIdUnit" => Some(DiagKind::VariantIdUnit),
        "TransparentFrom" => Some(DiagKind::TransparentFrom),
        "TransparentTryFrom" => Some(DiagKind::TransparentTryFrom),
        "TransparentInto" => Some(DiagKind::TransparentInto),
        "TransparentEnum" => Some(DiagKind::TransparentEnum),
        "TransparentUnit" => Some(DiagKind::TransparentUnit),
        "TransparentMany" => Some(DiagKind::TransparentMany),
        "TransparentNoneSer" => Some(DiagKind::TransparentNoneSer),
        "TransparentNoneDe" => Some(DiagKind::TransparentNoneDe),
        "FromConflict" => Some(DiagKind::FromConflict),
        _ => None,
    }
}

// The kinds of errors of syntax.
fn syntax_kind(name: &str) -> Option<SyntaxKind> {
    match name {
        "ExpectedArguments" => Some(SyntaxKind::ExpectedArguments),
        "ExpectedPath" => Some(SyntaxKind::ExpectedPath),
        "ExpectedComma" => Some(SyntaxKind::ExpectedComma),
        "ExpectedEq" => Some(SyntaxKind::ExpectedEq),
        "ExpectedEqOrParen" => Some(SyntaxKind::ExpectedEqOrParen),
        "ExpectedParen" => Some(SyntaxKind::ExpectedParen),
        "ExpectedValue" => Some(SyntaxKind::ExpectedValue),
        "ExpectedIdent" => Some(SyntaxKind::ExpectedIdent),
        "ExpectedType" => Some(SyntaxKind::ExpectedType),
        "ExpectedGt" => Some(SyntaxKind::ExpectedGt),
        "ExpectedLifetime" => Some(SyntaxKind::ExpectedLifetime),
        "ExpectedPlus" => Some(SyntaxKind::ExpectedPlus),
        "ExpectedBound" => Some(SyntaxKind::ExpectedBound),
        "UnexpectedToken" => Some(SyntaxKind::UnexpectedToken),
        "Lex" => Some(SyntaxKind::Lex),
        _ => None,
    }
}

// The kinds with one text.
fn kind_of_text(name: &str, text: String) -> Option<DiagKind> {
    match name {
        "Duplicate" => Some(DiagKind::Duplicate(text)),
        "UnknownContainer" => Some(DiagKind::UnknownContainer(text)),
        "UnknownVariant" => Some(DiagKind::UnknownVariant(text)),
        "UnknownField" => Some(DiagKind::UnknownField(text)),
        "UnknownRule" => Some(DiagKind::UnknownRule(text)),
        "NoLifetimes" => Some(DiagKind::NoLifetimes(text)),
        "Halves" => Some(DiagKind::Halves(text)),
        "Suffix" => Some(DiagKind::Suffix(text)),
        "BadPath" => Some(DiagKind::BadPath(text)),
        "BadLifetimes" => Some(DiagKind::BadLifetimes(text)),
        "RepeatedLifetime" => Some(DiagKind::RepeatedLifetime(text)),
        "NewtypeLast" => Some(DiagKind::NewtypeLast(text)),
        "SkipSer" => Some(DiagKind::SkipSer(text)),
        "SkipDe" => Some(DiagKind::SkipDe(text)),
        "TagConflict" => Some(DiagKind::TagConflict(text)),
        "SameTags" => Some(DiagKind::SameTags(text)),
        _ => None,
    }
}

// The kinds with two texts.
fn kind_of_texts(name: &str, first: String, second: String) -> Option<DiagKind> {
    match name {
        "LacksLifetime" => Some(DiagKind::LacksLifetime(first, second)),
        "ExpectedString" => Some(DiagKind::ExpectedString(first, second)),
        "BadType" => Some(DiagKind::BadType(first, second)),
        "SkipSerField" => Some(DiagKind::SkipSerField(first, second)),
        "SkipIfField" => Some(DiagKind::SkipIfField(first, second)),
        "SkipDeField" => Some(DiagKind::SkipDeField(first, second)),
        _ => None,
    }
}

fn bare_kind(name: &str) -> Option<DiagKind> {
    match attribute_kind(name) {
        Some(kind) => Some(kind),
        None => item_kind(name),
    }
}

fn order_kind(text: &str) -> Option<DiagKind> {
    match text.parse::<usize>() {
        Ok(place) => Some(DiagKind::DefaultOrder(place)),
        Err(_) => None,
    }
}

/// The kind of that name, with its texts.
pub(crate) fn kind_of(
    alloc: Global,
    name: &str,
    texts: &str,
) -> Result<Option<DiagKind>, AllocError> {
    match name {
        "Syntax" => Ok(syntax_kind(texts).map(|kind| DiagKind::Syntax(kind))),
        "DefaultOrder" => Ok(order_kind(texts)),
        _ => match texts.split_once(" | ") {
            Some((first, second)) => Ok(kind_of_texts(
                name,
                String::from_str(alloc, first)?,
                String::from_str(alloc, second)?,
            )),
            None => match bare_kind(name) {
                Some(kind) => Ok(Some(kind)),
                None => Ok(kind_of_text(name, String::from_str(alloc, texts)?)),
            },
        },
    }
}
