//! What each format asks of a text.
ghost use Rattle.std.specs.Prelude.{◌≡◌};
ghost use Rattle.schema_defs.specs.Formats.{has_format, is_uuid};

use crate::address::{is_ipv4, is_ipv6};
use crate::calendar::{is_date, is_date_time};
use schema_defs::Format;
use uuid::Uuid;

/// Whether the text has the format: `uuid` (RFC 4122, and the other forms that the crate `uuid` parses), `date` and
/// `date-time` (RFC 3339, in a narrower profile), `ipv4`, `ipv6` (RFC 4291, 2.2), or `ip`, which is either of these.
pub fn has_format(format: Format, text: &str) -> bool
    ensures { result ≡ has_format format text.now }
{
    let bytes = text.as_bytes();
    match format {
        Format::Uuid => is_identifier(text),
        Format::Date => is_date(bytes),
        Format::DateTime => is_date_time(bytes),
        Format::Ip => is_ipv4(bytes) || is_ipv6(bytes),
        Format::Ipv4 => is_ipv4(bytes),
        Format::Ipv6 => is_ipv6(bytes),
    }
}

// Whether crate `uuid` parses the text.
fn is_identifier(text: &str) -> bool
    ensures { result ≡ is_uuid text.now }
{
    Uuid::parse_str(text).is_ok()
}
