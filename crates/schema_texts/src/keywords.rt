//! What keywords of texts ask: their lengths, their patterns, and which format a name means.
ghost use Rattle.std.specs.Prelude.{◌≡◌, ◌≤◌, IfOk, IsErrOf, chars, length, map, string_bytes};
ghost use Rattle.std.specs.List.{list_all};
ghost use Rattle.schema_defs.specs.Faults.{Rises};
ghost use Rattle.schema_defs.specs.Layer.{format_of, within};

use crate::judge::{TextFault, Texts};
use schema_defs::Format;

/// Whether a count lies between two bounds, where they stand. It takes no memory.
pub fn is_within(least: Option<u32>, most: Option<u32>, count: usize) -> bool
    ensures { result ≡ within least most count }
{
    let enough = match least {
        Some(least) => least as usize <= count,
        None => true,
    };
    let few = match most {
        Some(most) => count <= most as usize,
        None => true,
    };
    enough && few
}

/// How many characters the text has (Unicode scalar values). It takes no memory.
pub fn count_characters(text: &str) -> usize
    ensures { result ≡ length (chars text.now) }
{
    text.chars().count()
}

/// The format of texts of that name, where there is one. It takes no memory.
pub fn format_named(name: &str) -> Option<Format>
    ensures { result ≡ format_of name.now }
{
    match name {
        "uuid" => Some(Format::Uuid),
        "date" => Some(Format::Date),
        "date-time" => Some(Format::DateTime),
        "ip" => Some(Format::Ip),
        "ipv4" => Some(Format::Ipv4),
        "ipv6" => Some(Format::Ipv6),
        _ => None,
    }
}

/// Whether the text has each of the patterns. It fails where the judge does.
pub fn has_each<T: Texts>(
    patterns: &Vec<String>,
    text: &str,
    texts: &mut T,
) -> Result<bool, TextFault>
    ensures answer { IfOk result (λ b. b ≡ list_all (λ p. (T.relations texts.old).matches p text.now) (map string_bytes patterns.now.items)) }
    ensures keeps { T.relations texts.new ≡ T.relations texts.old }
    ensures failed { IsErrOf result TextFault.Failed → Rises (T.faults texts.old) (T.faults texts.new) }
    ensures counts { T.faults texts.old ≤ T.faults texts.new }
{
    for pattern in patterns {
        if !texts.has_pattern(pattern, text)? {
            return Ok(false);
        }
    }
    Ok(true)
}
