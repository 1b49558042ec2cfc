//! The page of verdicts.
ghost use Rattle.std.specs.Prelude.{◌≡◌, IfOk, string_bytes};
ghost use Rattle.admission_run.specs.Page.{page as page_of, said as said_of, verdict_line as verdict_line_of};

use std::alloc::{AllocError, Global};

/// The page: for each answer, counted from 0, `value`, its number, and `admitted` or `refused`, on a line.
pub fn page(alloc: Global, answers: &[bool]) -> Result<String, AllocError>
    ensures { IfOk result (λ s. string_bytes s ≡ page_of answers.now) }
{
    let mut text = String::new(alloc);
    for (index, admitted) in answers.iter().enumerate() {
        text.push_str(&verdict_line(alloc, index, *admitted)?)?;
    }
    Ok(text)
}

fn verdict_line(alloc: Global, index: usize, admitted: bool) -> Result<String, AllocError>
    ensures { IfOk result (λ s. string_bytes s ≡ verdict_line_of index admitted) }
{
    let number = index.to_string(alloc)?;
    let mut line = String::from_str(alloc, "value ")?;
    line.push_str(&number)?;
    line.push_str(" ")?;
    line.push_str(said(admitted))?;
    line.push_str("\n")?;
    Ok(line)
}

fn said(admitted: bool) -> &'static str
    ensures { result.now ≡ said_of admitted }
{
    if admitted { "admitted" } else { "refused" }
}
