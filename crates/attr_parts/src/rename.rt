//! Rules by which names are written, and the object that knows them.
ghost use Rattle.std.specs.Prelude.{◌≡◌, ℕ, List, Some, None, IfOk, IfErr, string_bytes};
ghost use Rattle.attr_parts.specs.declared.rename.RenameRule.{RenameRule};
ghost use Rattle.attr_parts.specs.Texts.{no_rule_text};
ghost use Rattle.attr_parts.specs.Rules.{rule_of, rule_or, rules_or};

use std::alloc::{AllocError, Global};
use std::fmt;

/// The conventions of serde's `rename_all`. `None` leaves names as they are.
#[derive(Clone, Copy, PartialEq, Eq)]
pub enum RenameRule {
    None,
    LowerCase,
    UpperCase,
    PascalCase,
    CamelCase,
    SnakeCase,
    ScreamingSnakeCase,
    KebabCase,
    ScreamingKebabCase,
}

/// The rules of the two halves of a `rename_all`.
#[derive(Clone, Copy, PartialEq, Eq)]
pub struct RenameAllRules {
    pub serialize: RenameRule,
    pub deserialize: RenameRule,
}

/// A text that names no rule.
#[derive(Clone, Copy)]
pub struct ParseError<'a> {
    pub unknown: &'a str,
}

impl RenameRule {
    /// The rule of that name, as serde spells the names of `rename_all`; any other text is refused and handed back. Takes no
    /// memory.
    pub fn from_str(text: &str) -> Result<RenameRule, ParseError<'_>>
        ensures named { IfOk result (λ r. rule_of text.now ≡ Some r) }
        ensures unnamed { IfErr result (λ e. rule_of text.now ≡ None) }
        ensures told { IfErr result (λ e. e.unknown.now ≡ text.now) }
    {
        match text {
            "lowercase" => Ok(RenameRule::LowerCase),
            "UPPERCASE" => Ok(RenameRule::UpperCase),
            "PascalCase" => Ok(RenameRule::PascalCase),
            "camelCase" => Ok(RenameRule::CamelCase),
            "snake_case" => Ok(RenameRule::SnakeCase),
            "SCREAMING_SNAKE_CASE" => Ok(RenameRule::ScreamingSnakeCase),
            "kebab-case" => Ok(RenameRule::KebabCase),
            "SCREAMING-KEBAB-CASE" => Ok(RenameRule::ScreamingKebabCase),
            unknown => Err(ParseError { unknown }),
        }
    }

    /// This rule, or `rule_b` where this one is `None`.
    pub fn or(self, rule_b: RenameRule) -> RenameRule
        ensures { result ≡ rule_or self rule_b }
    {
        match self {
            RenameRule::None => rule_b,
            rule => rule,
        }
    }
}

impl RenameAllRules {
    /// Each half by `or`.
    pub fn or(self, other_rules: RenameAllRules) -> RenameAllRules
        ensures { result ≡ rules_or self other_rules }
    {
        RenameAllRules {
            serialize: self.serialize.or(other_rules.serialize),
            deserialize: self.deserialize.or(other_rules.deserialize),
        }
    }
}

impl fmt::Display for ParseError<'_> {
    ghost output = { λ e. no_rule_text e.unknown.now };

    fn fmt<W: fmt::Write>(&self, f: &mut fmt::Formatter<W>) -> fmt::Result {
        let unknown = self.unknown;
        write!(
            f,
            "unknown rename rule `rename_all = {unknown:?}`, expected one of \"lowercase\", \"UPPERCASE\", \"PascalCase\", \"camelCase\", \"snake_case\", \"SCREAMING_SNAKE_CASE\", \"kebab-case\", \"SCREAMING-KEBAB-CASE\""
        )
    }
}

/// Writes names by a rule. Its answers depend on rule and name alone.
pub trait Renamer {
    /// What a variant's name becomes.
    ghost variant_name: { RenameRule → List ℕ → List ℕ };

    /// What a field's name becomes.
    ghost field_name: { RenameRule → List ℕ → List ℕ };

    /// The variant's name by the rule.
    fn apply_to_variant(
        &self,
        alloc: Global,
        rule: RenameRule,
        name: &str,
    ) -> Result<String, AllocError>
        ensures { IfOk result (λ s. string_bytes s ≡ variant_name rule name.now) };

    /// The field's name by the rule.
    fn apply_to_field(
        &self,
        alloc: Global,
        rule: RenameRule,
        name: &str,
    ) -> Result<String, AllocError>
        ensures { IfOk result (λ s. string_bytes s ≡ field_name rule name.now) };
}

/// Answers the name itself, whatever the rule.
#[derive(Clone, Copy)]
pub struct NoCase;

impl Renamer for NoCase {
    ghost variant_name = { λ r n. n };

    ghost field_name = { λ r n. n };

    fn apply_to_variant(
        &self,
        alloc: Global,
        _rule: RenameRule,
        name: &str,
    ) -> Result<String, AllocError> {
        String::from_str(alloc, name)
    }

    fn apply_to_field(
        &self,
        alloc: Global,
        _rule: RenameRule,
        name: &str,
    ) -> Result<String, AllocError> {
        String::from_str(alloc, name)
    }
}
