//! What the judge of texts is asked.
ghost use Rattle.std.specs.Prelude.{◌≡◌, ◌≤◌, IfOk, IsErrOf, map, option_map, string_bytes};
ghost use Rattle.std.specs.List.{list_all};
ghost use Rattle.schema_defs.specs.Faults.{Rises};
ghost use Rattle.schema_defs.specs.Layer.{if_given, texts_agree};
ghost use Rattle.schema_types.specs.View.{properties_view, texts_view};
ghost use Rattle.convert_defs.specs.Owners.{pattern_names};
ghost use Rattle.row_findings.specs.View.{patterns_view};

use row_findings::Patterns;
use schema_texts::{count_characters, has_each, is_within};
use schema_tree::{TextFault, Texts};
use schema_types::{Schema, StringValidation};
use std::collections::BTreeMap;

/// Whether each of them is a pattern. It fails where memory runs out, or where the judge of texts failed.
pub fn asked_patterns<'d, T: Texts>(
    patterns: &Patterns<'d>,
    texts: &mut T,
) -> Result<bool, TextFault>
    ensures answer { IfOk result (λ b. b ≡ list_all (T.relations texts.old).is_pattern (patterns_view patterns.now)) }
    ensures keeps { T.relations texts.new ≡ T.relations texts.old }
    ensures failed { IsErrOf result TextFault.Failed → Rises (T.faults texts.old) (T.faults texts.new) }
    ensures counts { T.faults texts.old ≤ T.faults texts.new }
{
    match patterns {
        Patterns::Nothing => Ok(true),
        Patterns::Listed(listed) => {
            let answer = are_patterns(listed, texts)?;
            Ok(answer)
        }
        Patterns::Named(named) => {
            let answer = are_named_patterns(named, texts)?;
            Ok(answer)
        }
    }
}

fn are_patterns<T: Texts>(patterns: &Vec<String>, texts: &mut T) -> Result<bool, TextFault>
    ensures answer { IfOk result (λ b. b ≡ list_all (T.relations texts.old).is_pattern (map string_bytes patterns.now.items)) }
    ensures keeps { T.relations texts.new ≡ T.relations texts.old }
    ensures failed { IsErrOf result TextFault.Failed → Rises (T.faults texts.old) (T.faults texts.new) }
    ensures counts { T.faults texts.old ≤ T.faults texts.new }
{
    for pattern in patterns {
        if !texts.is_pattern(pattern)? {
            return Ok(false);
        }
    }
    Ok(true)
}

fn are_named_patterns<T: Texts>(
    patterns: &BTreeMap<String, Schema>,
    texts: &mut T,
) -> Result<bool, TextFault>
    ensures answer { IfOk result (λ b. b ≡ list_all (T.relations texts.old).is_pattern (pattern_names (properties_view patterns.now.entries))) }
    ensures keeps { T.relations texts.new ≡ T.relations texts.old }
    ensures failed { IsErrOf result TextFault.Failed → Rises (T.faults texts.old) (T.faults texts.new) }
    ensures counts { T.faults texts.old ≤ T.faults texts.new }
{
    for (pattern, _) in patterns.iter() {
        if !texts.is_pattern(pattern)? {
            return Ok(false);
        }
    }
    Ok(true)
}

/// Whether the text meets the keywords of texts. It fails where memory runs out, or where the judge of texts failed.
pub fn meets_texts<T: Texts>(
    rules: Option<&StringValidation>,
    text: &str,
    texts: &mut T,
) -> Result<bool, TextFault>
    ensures answer { IfOk result (λ b. b ≡ if_given (texts_agree (T.relations texts.old) text.now) (option_map (λ t. texts_view t.now) rules.entry)) }
    ensures keeps { T.relations texts.new ≡ T.relations texts.old }
    ensures failed { IsErrOf result TextFault.Failed → Rises (T.faults texts.old) (T.faults texts.new) }
    ensures counts { T.faults texts.old ≤ T.faults texts.new }
{
    match rules {
        Some(rules) => {
            let has_each = has_each(&rules.patterns, text, texts)?;
            Ok(is_within(rules.min_length, rules.max_length, count_characters(text)) && has_each)
        }
        None => Ok(true),
    }
}
