//! The page of a sample.
ghost use Rattle.std.specs.Prelude.{◌≡◌, ◌++◌, IfOk, decimal, map, string_bytes};
ghost use Rattle.derive_model.specs.VerdictView.{verdict_view};
ghost use Rattle.sample_run.specs.Sampled.{counts_page, is_taken as is_taken_of, sample_page, taken_count};

use std::alloc::{AllocError, Global};
use typify_run::{Report, Verdict};

#[tactic(auto, using(crate::proofs::Counted::when_written, crate::proofs::Counted::when_unwritten))]
fn is_taken(verdict: &Verdict) -> bool
    ensures { result ≡ is_taken_of (verdict_view verdict.now) }
{
    match verdict.taken() {
        Some(_) => true,
        None => false,
    }
}

#[tactic(auto, using(crate::proofs::Counted::one_taken, crate::proofs::Counted::one_refused, crate::proofs::Counted::all_counted))]
fn count_taken(verdicts: &[Verdict]) -> usize
    ensures { result ≡ taken_count (map verdict_view verdicts.now) }
{
    let mut count = 0;
    for verdict in verdicts {
        if is_taken(verdict) {
            count += 1;
        }
    }
    count
}

fn taken_in(report: &Report) -> usize
    ensures { result ≡ taken_count (map verdict_view report.now.verdicts.items) }
{
    count_taken(&report.verdicts)
}

// A word and a number before the rest of a page.
fn before(alloc: Global, word: &str, count: u64, rest: &str) -> Result<String, AllocError>
    ensures { IfOk result (λ s. string_bytes s ≡ word.now ++ decimal count ++ rest.now) }
{
    format!(in alloc; "{word}{count}{rest}")
}

fn counts_text(
    alloc: Global,
    number: u64,
    items: u64,
    notes: u64,
    verdicts: u64,
) -> Result<String, AllocError>
    ensures { IfOk result (λ s. string_bytes s ≡ counts_page number items notes verdicts) }
{
    let page = before(alloc, "\ntaken ", verdicts, "\nend\n")?;
    let page = before(alloc, "\nnotes ", notes, &page)?;
    let page = before(alloc, "\nitems ", items, &page)?;
    let page = before(alloc, "sample ", number, &page)?;
    Ok(page)
}

/// The page: the number of the sample, and how many items, notes and taken values its report has.
pub(crate) fn page_text(alloc: Global, number: u32, report: &Report) -> Result<String, AllocError>
    ensures { IfOk result (λ s. string_bytes s ≡ sample_page number report.now) }
{
    let items = report.items.len() as u64;
    let notes = report.notes.len() as u64;
    let verdicts = taken_in(report) as u64;
    counts_text(alloc, u64::from(number), items, notes, verdicts)
}
