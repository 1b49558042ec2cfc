//! The rows of scalars: each says which rule is broken, if one is.
ghost use Rattle.std.specs.Prelude.{◌≡◌};
ghost use Rattle.evolve_defs.specs.Forms.{Table as Tables, boolean_form, integer_form, native_form, text_form, unit_form};
ghost use Rattle.evolve_defs.specs.Steps.{format_within, plain_row};
ghost use Rattle.evolve_rows.specs.FormView.{form_view, range_view};
ghost use Rattle.evolve_rows.specs.TurnView.{checked};

use crate::form::{Form, Range};
use crate::turn::Broken;
use schema_defs::Format;

pub(crate) fn boolean_row(new: Form<'_>) -> Option<Broken>
    ensures { (o n : Tables) → checked result ≡ plain_row o n boolean_form (form_view new.entry) }
{
    match new {
        Form::Boolean => None,
        _ => Some(Broken::Kind),
    }
}

pub(crate) fn unit_row(new: Form<'_>) -> Option<Broken>
    ensures { (o n : Tables) → checked result ≡ plain_row o n unit_form (form_view new.entry) }
{
    match new {
        Form::Unit => None,
        _ => Some(Broken::Kind),
    }
}

// The old range within the new one.
fn range_broken(old: Range, new: Range) -> Option<Broken>
    ensures { (o n : Tables) → checked result ≡ plain_row o n (integer_form (range_view old)) (integer_form (range_view new)) }
{
    if new.least <= old.least && old.greatest <= new.greatest {
        None
    } else {
        Some(Broken::Range)
    }
}

pub(crate) fn integer_row(range: Range, new: Form<'_>) -> Option<Broken>
    ensures { (o n : Tables) → checked result ≡ plain_row o n (integer_form (range_view range)) (form_view new.entry) }
{
    match new {
        Form::Integer(new) => range_broken(range, new),
        _ => Some(Broken::Kind),
    }
}

pub(crate) fn text_row(new: Form<'_>) -> Option<Broken>
    ensures { (o n : Tables) → checked result ≡ plain_row o n text_form (form_view new.entry) }
{
    match new {
        Form::Text => None,
        _ => Some(Broken::Kind),
    }
}

// The same format, or an address of one version as an address.
fn format_within(old: Format, new: Format) -> bool
    ensures { result ≡ format_within old new }
{
    match (old, new) {
        (Format::Uuid, Format::Uuid) => true,
        (Format::Date, Format::Date) => true,
        (Format::DateTime, Format::DateTime) => true,
        (Format::Ip, Format::Ip) => true,
        (Format::Ipv4, Format::Ipv4) => true,
        (Format::Ipv6, Format::Ipv6) => true,
        (Format::Ipv4, Format::Ip) => true,
        (Format::Ipv6, Format::Ip) => true,
        _ => false,
    }
}

fn format_broken(old: Format, new: Format) -> Option<Broken>
    ensures { (o n : Tables) → checked result ≡ plain_row o n (native_form old) (native_form new) }
{
    if format_within(old, new) {
        None
    } else {
        Some(Broken::Kind)
    }
}

pub(crate) fn native_row(format: Format, new: Form<'_>) -> Option<Broken>
    ensures { (o n : Tables) → checked result ≡ plain_row o n (native_form format) (form_view new.entry) }
{
    match new {
        Form::Text => None,
        Form::Native(other) => format_broken(format, other),
        _ => Some(Broken::Kind),
    }
}
