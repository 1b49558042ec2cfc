//! Texts and their formats, and the plain judge of texts.
use schema_defs::Format;
use schema_texts::{PlainTexts, TextFault, Texts, has_format};
use std::alloc::{AllocError, Global};

/// Whether the text behind the format's name has that format.
pub(crate) fn answer(line: &str) -> &'static str {
    let Some((name, text)) = line.split_once(' ') else {
        return " no format";
    };
    let Some(format) = format_of(name) else {
        return " no format";
    };
    said(has_format(format, text))
}

fn said(so: bool) -> &'static str {
    if so { " yes" } else { " no" }
}

// The format of this name.
fn format_of(name: &str) -> Option<Format> {
    match name {
        "uuid" => Some(Format::Uuid),
        "date" => Some(Format::Date),
        "date-time" => Some(Format::DateTime),
        "ip" => Some(Format::Ip),
        "ipv4" => Some(Format::Ipv4),
        "ipv6" => Some(Format::Ipv6),
        _ => None,
    }
}

/// What the plain judge with an empty table says of a pattern, and of the text behind it.
pub(crate) fn judged(alloc: Global, line: &str) -> Result<String, AllocError> {
    let Some((pattern, text)) = line.split_once(' ') else {
        return String::from_str(alloc, " no pattern");
    };
    let mut texts = PlainTexts::new(alloc);
    let Ok((pattern, matching, date)) = answers(&mut texts, pattern, text) else {
        return String::from_str(alloc, " failed");
    };
    let mut told = String::from_str(alloc, said(pattern))?;
    told.push_str(said(matching))?;
    told.push_str(said(date))?;
    Ok(told)
}

fn answers<T: Texts>(
    texts: &mut T,
    pattern: &str,
    text: &str,
) -> Result<(bool, bool, bool), TextFault> {
    let known = texts.is_pattern(pattern)?;
    let matching = texts.has_pattern(pattern, text)?;
    let date = texts.has_format(Format::Date, text)?;
    Ok((known, matching, date))
}
