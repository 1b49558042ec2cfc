//! The judge that searches with `regex`.
ghost use Rattle.std.specs.Prelude.{◌≡◌, ◌≢◌, ℕ, ◌≤◌, List, Some, true, is_some, IfOk, OnOk, IsErrOf, option_copied};
ghost use Rattle.std.specs.BTreeMap.{get_by_text};
ghost use Rattle.schema_defs.specs.Faults.{Rises};
ghost use Rattle.plain_patterns.specs.Ends.{is_plain};
ghost use Rattle.regex_texts.specs.Search.{matches, regex_relations};
ghost use Rattle.regex_texts.specs.Searchers.{Searches, search_seen};
ghost use Rattle.regex_texts.specs.Refused.{IsRefused};
ghost use Rattle.regex_texts.specs.declared.search.Search.{Search};
ghost use Rattle.schema_defs.specs.Formats.{has_format as of_format};
ghost use Rattle.schema_defs.specs.Texts.{IsLawful};

use crate::search::{Search, compile};
use plain_patterns::plain_pattern;
use regex::Error;
use schema_defs::Format;
use schema_texts::{TextFault, Texts, has_format};
use std::alloc::{AllocError, Global};
use std::collections::BTreeMap;

/// A judge that searches for plain patterns (ECMA-262, 22.2.1) with `regex`. Each pattern is compiled once, what
/// a search finds out is kept for the next text, and what is compiled isn't given back before the program ends. It fails, and counts that,
/// where `regex` refuses a plain pattern for another cause than want of memory.
#[derive(Drop)]
pub struct RegexTexts {
    alloc: Global,
    compiled: BTreeMap<String, Search>,
    faults: u64,
    ghost searching: { (pattern : List ℕ) (s : Search) → get_by_text compiled pattern ≡ Some s → Searches pattern (search_seen s) },
}

impl RegexTexts {
    /// A judge that has compiled nothing, and hasn't failed. It takes no memory; its answers take it from `alloc`.
    pub fn new(alloc: Global) -> RegexTexts
        ensures { ⟦<RegexTexts as Texts>⟧.faults result ≡ 0 }
    {
        RegexTexts {
            alloc,
            compiled: BTreeMap::new(alloc),
            faults: 0,
        }
    }

    // Compiles a plain pattern that wasn't compiled before. Whether the pattern is plain.
    fn prepare(&mut self, pattern: &str) -> Result<bool, TextFault>
        ensures plain { IfOk result (λ b. b ≡ is_plain pattern.now) }
        ensures kept { IfOk result (λ b. b ≡ is_some (get_by_text self.new.compiled pattern.now)) }
        ensures refused { IsErrOf result TextFault.Failed → IsRefused pattern.now }
        ensures failed { IsErrOf result TextFault.Failed → Rises self.old.faults self.new.faults }
        ensures counts { self.old.faults ≤ self.new.faults }
        ensures quiet { OnOk result (self.new.faults ≡ self.old.faults) }
        ensures memory { IsErrOf result TextFault.Memory → self.new.faults ≡ self.old.faults }
    {
        if self.compiled.contains_key(pattern) {
            return Ok(true);
        }
        let searches = match plain_pattern(self.alloc, pattern) {
            Ok(Some(searches)) => searches,
            Ok(None) => return Ok(false),
            Err(_) => return Err(TextFault::Memory),
        };
        match compile(self.alloc, &searches) {
            Ok(search) => self.keep(pattern, search),
            Err(error) => Err(self.fault(error)),
        }
    }

    // The fault where `regex` built nothing. It is counted, unless memory ran out.
    fn fault(&mut self, error: Error) -> TextFault
        ensures other_cause { result ≡ TextFault.Failed → error ≢ Error.OutOfMemory }
        ensures failed { result ≡ TextFault.Failed → Rises self.old.faults self.new.faults }
        ensures counts { self.old.faults ≤ self.new.faults }
        ensures memory { result ≡ TextFault.Memory → self.new.faults ≡ self.old.faults }
    {
        match error {
            Error::OutOfMemory => TextFault::Memory,
            _ => {
                self.faults = self.faults.saturating_add(1);
                TextFault::Failed
            }
        }
    }

    // Keeps what was compiled for a pattern.
    fn keep(&mut self, pattern: &str, search: Search) -> Result<bool, TextFault>
        requires { Searches pattern.now (search_seen search) }
        ensures kept { IfOk result (λ b. (b ≡ true) × (is_some (get_by_text self.new.compiled pattern.now) ≡ true)) }
        ensures failed { IsErrOf result TextFault.Failed → ⊥ }
        ensures counts { self.new.faults ≡ self.old.faults }
    {
        let Ok(key) = String::from_str(self.alloc, pattern) else {
            return Err(TextFault::Memory);
        };
        match self.compiled.insert(key, search) {
            Ok(_) => Ok(true),
            Err(_) => Err(TextFault::Memory),
        }
    }
}

impl Texts for RegexTexts {
    ghost relations = { λ _. regex_relations };

    ghost faults = { λ t. t.faults };

    fn is_pattern(&mut self, pattern: &str) -> Result<bool, TextFault>
        ensures answer { IfOk result (λ b. b ≡ is_plain pattern.now) }
        ensures refused { IsErrOf result TextFault.Failed → IsRefused pattern.now }
        ensures failed { IsErrOf result TextFault.Failed → Rises self.old.faults self.new.faults }
        ensures counts { self.old.faults ≤ self.new.faults }
        ensures quiet { OnOk result (self.new.faults ≡ self.old.faults) }
        ensures memory { IsErrOf result TextFault.Memory → self.new.faults ≡ self.old.faults }
    {
        self.prepare(pattern)
    }

    fn has_pattern(&mut self, pattern: &str, text: &str) -> Result<bool, TextFault>
        ensures answer { IfOk result (λ b. b ≡ matches pattern.now text.now) }
        ensures refused { IsErrOf result TextFault.Failed → IsRefused pattern.now }
        ensures failed { IsErrOf result TextFault.Failed → Rises self.old.faults self.new.faults }
        ensures counts { self.old.faults ≤ self.new.faults }
        ensures quiet { OnOk result (self.new.faults ≡ self.old.faults) }
        ensures memory { IsErrOf result TextFault.Memory → self.new.faults ≡ self.old.faults }
    {
        self.prepare(pattern)?;
        match self.compiled.get_mut(pattern) {
            Some(search) => Ok(search.is_match(text)),
            None => Ok(false),
        }
    }

    fn has_format(&mut self, format: Format, text: &str) -> Result<bool, TextFault>
        ensures answer { result ≡ Ok (of_format format text.now) }
        ensures same { self.new ≡ self.old }
    {
        Ok(has_format(format, text))
    }
}

/// The relations of a judge that searches with `regex` are lawful.
pub fn regex_texts_are_lawful()
    ensures { (texts : RegexTexts) → IsLawful (⟦<RegexTexts as Texts>⟧.relations texts) }
{}
