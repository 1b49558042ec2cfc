//! The plain judge: a table of patterns with their texts, and the six formats. It never fails.
ghost use Rattle.std.specs.Prelude.{◌≡◌, ℕ, List, ◌||◌, false, bytes_eq, string_bytes, IfOk, OnOk, OnErr};
ghost use Rattle.std.specs.List.{list_any};
ghost use Rattle.std.specs.BTreeSet.{contains_text};
ghost use Rattle.schema_defs.specs.Texts.{IsLawful};

use crate::format;
use crate::judge::{TextFault, Texts};
use schema_defs::Format;
use std::alloc::{AllocError, Global};
use std::collections::{BTreeMap, BTreeSet};

/// A judge over a table of patterns, each with the texts that have it. A pattern outside the table is none. It never
/// fails.
#[derive(Drop)]
pub struct PlainTexts {
    alloc: Global,
    table: BTreeMap<String, BTreeSet<String>>,
}

impl PlainTexts {
    ghost use Rattle.schema_texts.specs.Table.{plain_relations};

    /// A judge with an empty table. It takes no memory; `add` takes it from `alloc`.
    pub fn new(alloc: Global) -> PlainTexts
        ensures no_pattern { (p : List ℕ) → (plain_relations result).is_pattern p ≡ false }
        ensures no_text { (p s : List ℕ) → (plain_relations result).matches p s ≡ false }
        ensures never_faulty { (texts : PlainTexts) → ⟦<PlainTexts as Texts>⟧.faults texts ≡ 0 }
    {
        PlainTexts {
            alloc,
            table: BTreeMap::new(alloc),
        }
    }

    /// Enters a pattern with exactly these texts, in place of those that it had. It fails for want of memory alone, and
    /// then the table is as before.
    pub fn add(&mut self, pattern: String, texts: Vec<String>) -> Result<(), AllocError>
        ensures patterns { OnOk result ((p : List ℕ) → (plain_relations self.new).is_pattern p
            ≡ (bytes_eq (string_bytes pattern) p || (plain_relations self.old).is_pattern p)) }
        ensures texts { OnOk result ((s : List ℕ) → (plain_relations self.new).matches (string_bytes pattern) s
            ≡ list_any (λ t. bytes_eq s (string_bytes t)) texts.items) }
        ensures others { OnOk result ((p s : List ℕ) → bytes_eq (string_bytes pattern) p ≡ false
            → (plain_relations self.new).matches p s ≡ (plain_relations self.old).matches p s) }
        ensures unchanged { OnErr result (plain_relations self.new ≡ plain_relations self.old) }
    {
        let held = set_of(self.alloc, texts)?;
        self.table.insert(pattern, held)?;
        Ok(())
    }
}

impl Texts for PlainTexts {
    ghost use Rattle.schema_texts.specs.Table.{plain_relations};

    ghost relations = { plain_relations };

    ghost faults = { λ _. 0 };

    fn is_pattern(&mut self, pattern: &str) -> Result<bool, TextFault>
        ensures answer { result ≡ Ok ((plain_relations self.old).is_pattern pattern.now) }
        ensures same { self.new ≡ self.old }
    {
        Ok(self.table.contains_key(pattern))
    }

    fn has_pattern(&mut self, pattern: &str, text: &str) -> Result<bool, TextFault>
        ensures answer { result ≡ Ok ((plain_relations self.old).matches pattern.now text.now) }
        ensures same { self.new ≡ self.old }
    {
        match self.table.get(pattern) {
            Some(texts) => Ok(texts.contains(text)),
            None => Ok(false),
        }
    }

    fn has_format(&mut self, format: Format, text: &str) -> Result<bool, TextFault>
        ensures answer { result ≡ Ok ((plain_relations self.old).has_format format text.now) }
        ensures same { self.new ≡ self.old }
    {
        Ok(format::has_format(format, text))
    }
}

/// The relations of a plain judge are lawful.
pub fn plain_texts_are_lawful()
    ensures { (texts : PlainTexts) → IsLawful (⟦<PlainTexts as Texts>⟧.relations texts) }
{}

// These texts, in a set.
fn set_of(alloc: Global, texts: Vec<String>) -> Result<BTreeSet<String>, AllocError>
    ensures { IfOk result (λ held. (s : List ℕ) → contains_text held s
        ≡ list_any (λ t. bytes_eq s (string_bytes t)) texts.items) }
{
    let mut held = BTreeSet::new(alloc);
    for text in texts {
        held.insert(text)?;
    }
    Ok(held)
}
