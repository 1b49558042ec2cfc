//! Faults as text.
use schema_tree::{Fault, InvalidKind, Location, UnsupportedKind};
use std::alloc::{AllocError, Global};
use std::fmt::Write;

/// The name of the fault, its place, and what it says besides.
pub fn push_fault(alloc: Global, out: &mut String, fault: &Fault) -> Result<(), AllocError> {
    match fault {
        Fault::Depth { walk } => {
            out.push_str("Depth")?;
            for place in &walk.locations {
                push_place(alloc, out, place)?;
            }
            Ok(())
        }
        Fault::Places { path, places } => {
            out.push_str("Places")?;
            push_place(alloc, out, path)?;
            write!(out, " {places}")
        }
        Fault::BadValue { path, value } => {
            out.push_str("BadValue")?;
            push_place(alloc, out, path)?;
            write!(out, " {value}")
        }
        Fault::InvalidValue { path, value } => {
            out.push_str("InvalidValue")?;
            push_place(alloc, out, path)?;
            write!(out, " {value}")
        }
        Fault::InvalidSchema { path, kind } => {
            out.push_str(invalid_word(*kind))?;
            push_place(alloc, out, path)
        }
        Fault::Unsupported { path, kind } => {
            out.push_str(unsupported_word(*kind))?;
            push_place(alloc, out, path)
        }
        Fault::Texts { path } => {
            out.push_str("Texts")?;
            push_place(alloc, out, path)
        }
        _ => out.push_str("not read"),
    }
}

/// The same as a text of its own.
pub fn fault_text(alloc: Global, fault: &Fault) -> Result<String, AllocError> {
    let mut text = String::new(alloc);
    push_fault(alloc, &mut text, fault)?;
    Ok(text)
}

fn push_place(alloc: Global, out: &mut String, place: &Location) -> Result<(), AllocError> {
    let text = place.text(alloc)?;
    write!(out, " {text}")
}

fn invalid_word(kind: InvalidKind) -> &'static str {
    match kind {
        InvalidKind::Array => "InvalidSchema Array",
        InvalidKind::Pattern => "InvalidSchema Pattern",
    }
}

fn unsupported_word(kind: UnsupportedKind) -> &'static str {
    match kind {
        UnsupportedKind::Conditional => "Unsupported Conditional",
        UnsupportedKind::Mix => "Unsupported Mix",
        UnsupportedKind::MixedEnum => "Unsupported MixedEnum",
        UnsupportedKind::NestedEnum => "Unsupported NestedEnum",
        UnsupportedKind::Not => "Unsupported Not",
        UnsupportedKind::AnyOne => "Unsupported AnyOne",
        UnsupportedKind::Names => "Unsupported Names",
        UnsupportedKind::Subtract => "Unsupported Subtract",
    }
}
