//! What is compiled of one pattern, and one search.
ghost use Rattle.std.specs.Prelude.{◌≡◌, ◌≢◌, ◌++◌, ◌∷◌, [], IfOk, IfErr, OnOk, Some, map};
ghost use Rattle.std.specs.List.{list_all};
ghost use Rattle.regex.specs.Strings.{matcher_pattern, regex_pattern, regex_source, regex_config, IsReadFromSource, IsDefaultFailure};
ghost use Rattle.regex.specs.Failures.{HasSpanIn, IsRightKind};
ghost use Rattle.regex.specs.Sources.{IsRefusal};
ghost use Rattle.regex_syntax.specs.Verdict.{default_config};
ghost use Rattle.plain_patterns.specs.Ends.{look_seen, rewritten, seen};
ghost use Rattle.regex_texts.specs.Search.{has_look};
ghost use Rattle.regex_texts.specs.Searchers.{FindsSource, IsSmall, Searches, beside_seen, finds_all, finds_beside, search_seen};
ghost use Rattle.regex_texts.specs.Refused.{IsUnbuilt, beside_sources, sources};

use plain_patterns::{Look, Searches as Sources};
use regex::{Error, Matcher, Regex, RegexBuilder};
use std::alloc::{AllocError, Global};

/// About how many bytes a compiled pattern may take: as many as a class of all letters that is counted up to 1,024 times.
const SIZE_LIMIT: usize = 67_108_864;

/// What searches for what stands in a lookahead or a lookbehind, and whether nothing may be found.
#[derive(Drop)]
pub struct Beside {
    matcher: Matcher<'static>,
    negated: bool,
}

impl Beside {
    fn is_match(&mut self, text: &str) -> bool
        ensures found { result ≡ finds_beside text.now (beside_seen self.old) }
        ensures same { beside_seen self.new ≡ beside_seen self.old }
    {
        if self.negated {
            !self.matcher.is_match(text)
        } else {
            self.matcher.is_match(text)
        }
    }
}

/// What searches for a pattern.
#[derive(Drop)]
pub struct Search {
    own: Matcher<'static>,
    beside: Vec<Beside>,
}

impl Search {
    /// Whether a text has the pattern. What was found out of it is kept for the next text.
    pub fn is_match(&mut self, text: &str) -> bool
        ensures found { result ≡ finds_all text.now (search_seen self.old) }
        ensures same { search_seen self.new ≡ search_seen self.old }
    {
        if !self.own.is_match(text) {
            return false;
        }
        all_match(&mut self.beside, text)
    }
}

fn all_match(beside: &mut [Beside], text: &str) -> bool
    ensures found { result ≡ list_all (finds_beside text.now) (map beside_seen beside.old) }
    ensures same { map beside_seen beside.new ≡ map beside_seen beside.old }
{
    for one in beside.iter_mut() {
        if !one.is_match(text) {
            return false;
        }
    }
    true
}

/// Compiles what is written for a plain pattern.
pub fn compile(alloc: Global, searches: &Sources) -> Result<Search, Error>
    ensures searches { IfOk result (λ s. (pattern : _) → rewritten pattern ≡ Some (seen searches.now) → Searches pattern (search_seen s)) }
    ensures refused { IfErr result (λ e. e ≢ Error.OutOfMemory → IsUnbuilt (sources (seen searches.now)) e) }
    ensures no_internal { IfErr result (λ e. e ≢ Error.Internal) }
{
    let own = match compiled(alloc, &searches.own) {
        Ok(own) => own,
        Err(error) => return Err(error),
    };
    match compile_beside(alloc, &searches.beside) {
        Ok(beside) => Ok(Search { own, beside }),
        Err(error) => Err(error),
    }
}

fn compile_beside(alloc: Global, looks: &[Look]) -> Result<Vec<Beside>, Error>
    ensures searches { IfOk result (λ v. (text : _) → IsSmall text → list_all (finds_beside text) (map beside_seen v.items) ≡ list_all (has_look text) (map look_seen looks.now)) }
    ensures refused { IfErr result (λ e. e ≢ Error.OutOfMemory → IsUnbuilt (beside_sources (map look_seen looks.now)) e) }
    ensures no_internal { IfErr result (λ e. e ≢ Error.Internal) }
{
    let mut beside = Vec::new(alloc);
    for look in looks {
        let matcher = match compiled(alloc, &look.source) {
            Ok(matcher) => matcher,
            Err(error) => return Err(error),
        };
        let Ok(()) = push_beside(&mut beside, matcher, look.negated) else {
            return Err(Error::OutOfMemory);
        };
    }
    Ok(beside)
}

fn push_beside(
    beside: &mut Vec<Beside>,
    matcher: Matcher<'static>,
    negated: bool,
) -> Result<(), AllocError>
    ensures { OnOk result (map beside_seen beside.new.items ≡ map beside_seen beside.old.items ++ (matcher_pattern matcher.entry, negated) ∷ []) }
{
    beside.push(Beside { matcher, negated })?;
    Ok(())
}

// What searches for what is written.
fn compiled(alloc: Global, source: &str) -> Result<Matcher<'static>, Error>
    ensures searches { IfOk result (λ m. FindsSource source.now (matcher_pattern m)) }
    ensures refused { IfErr result (λ e. e ≢ Error.OutOfMemory → IsDefaultFailure source.now e) }
    ensures no_internal { IfErr result (λ e. e ≢ Error.Internal) }
{
    let regex = built(alloc, source)?;
    let matcher = searcher(alloc, regex)?;
    Ok(matcher)
}

// What is built by the default options, but for the size.
fn built(alloc: Global, source: &str) -> Result<Regex, Error>
    ensures source { IfOk result (λ r. regex_source r ≡ source.now) }
    ensures config { IfOk result (λ r. regex_config r ≡ default_config) }
    ensures read { IfOk result IsReadFromSource }
    ensures refused { IfErr result (IsRefusal default_config source.now) }
    ensures kind { IfErr result (IsRightKind default_config source.now) }
    ensures span { IfErr result (HasSpanIn source.now) }
    ensures no_internal { IfErr result (λ e. e ≢ Error.Internal) }
{
    RegexBuilder::new(source)
        .size_limit(SIZE_LIMIT)
        .build(alloc)
}

// What searches by it, and keeps from one text to the next what it has found out. What was compiled is never given back.
fn searcher(alloc: Global, regex: Regex) -> Result<Matcher<'static>, AllocError>
    ensures { IfOk result (λ m. matcher_pattern m ≡ regex_pattern regex) }
{
    let boxed = Box::new(alloc, regex)?;
    let lasting: &'static Regex = Box::leak(boxed);
    lasting.matcher(alloc)
}
