//! A text of each format.
ghost use Rattle.std.specs.Prelude.{◌≡◌};
ghost use Rattle.example_tries.specs.Fixed.{fixed_text as fixed_text_in};

use schema_defs::Format;

/// A text of the format.
pub(crate) fn fixed_text(format: Format) -> &'static str
    ensures { result.now ≡ fixed_text_in format }
{
    match format {
        Format::Uuid => "00000000-0000-0000-0000-000000000000",
        Format::Date => "2000-01-01",
        Format::DateTime => "2000-01-01T00:00:00Z",
        Format::Ip => "127.0.0.1",
        Format::Ipv4 => "127.0.0.1",
        Format::Ipv6 => "::1",
    }
}
