//! Ways: marks as an answer carries them, and their text.
ghost use Rattle.std.specs.Prelude.{◌≡◌, ◌++◌, IfOk, OnOk, codes, string_bytes};
ghost use Rattle.std.specs.Fmt.{decimal};
ghost use Rattle.schema_defs.specs.Location.{escaped};
ghost use Rattle.evolve_ways.specs.Texts.{mark_text as text_of_mark, way_text as text_of_way};
ghost use Rattle.evolve_rows.specs.MarksView.{mark_view as seen_mark};
ghost use Rattle.evolve_walks.specs.Way.{marks_view};
ghost use Rattle.model_evolve.specs.WayView.{mark_view, way_view};

use crate::node::Mark;
use evolve_rows::Mark as SeenMark;
use std::alloc::{AllocError, Global};

fn mark_of(alloc: Global, mark: SeenMark<'_>) -> Result<Mark, AllocError>
    ensures { IfOk result (λ m. mark_view m ≡ seen_mark mark.entry) }
{
    match mark {
        SeenMark::Field(name) => {
            let name = String::from_str(alloc, name)?;
            Ok(Mark::Field(name))
        }
        SeenMark::Variant(name) => {
            let name = String::from_str(alloc, name)?;
            Ok(Mark::Variant(name))
        }
        SeenMark::Item => Ok(Mark::Item),
        SeenMark::Place(place) => Ok(Mark::Place(place)),
        SeenMark::Name => Ok(Mark::Name),
        SeenMark::Value => Ok(Mark::Value),
        SeenMark::Rest => Ok(Mark::Rest),
    }
}

/// The way with names of its own. It fails where memory runs out.
pub(crate) fn way_of(alloc: Global, marks: &[SeenMark<'_>]) -> Result<Vec<Mark>, AllocError>
    ensures { IfOk result (λ v. way_view v.items ≡ marks_view marks.now) }
{
    let mut way = Vec::with_capacity(alloc, marks.len())?;
    for mark in marks {
        way.push(mark_of(alloc, *mark)?)?;
    }
    Ok(way)
}

// ---- texts

// `~` is written `~0`, and `/` is written `~1`.
fn push_escaped(text: &mut String, name: &str) -> Result<(), AllocError>
    ensures { OnOk result (string_bytes text.new ≡ string_bytes text.old ++ escaped name.now) }
{
    for c in name.chars() {
        match c {
            '~' => text.push_str("~0")?,
            '/' => text.push_str("~1")?,
            _ => text.push(c)?,
        }
    }
    Ok(())
}

fn push_name(text: &mut String, before: &str, name: &str) -> Result<(), AllocError>
    ensures { OnOk result (string_bytes text.new ≡ string_bytes text.old ++ (before.now ++ escaped name.now)) }
{
    text.push_str(before)?;
    push_escaped(text, name)?;
    Ok(())
}

fn place_text(alloc: Global, place: usize) -> Result<String, AllocError>
    ensures { IfOk result (λ s. string_bytes s ≡ codes "/~place/" ++ decimal place) }
{
    format!(in alloc; "/~place/{place}")
}

fn push_place(alloc: Global, text: &mut String, place: usize) -> Result<(), AllocError>
    ensures { OnOk result (string_bytes text.new ≡ string_bytes text.old ++ (codes "/~place/" ++ decimal place)) }
{
    let more = place_text(alloc, place)?;
    text.push_str(&more)?;
    Ok(())
}

fn push_mark(alloc: Global, text: &mut String, mark: &Mark) -> Result<(), AllocError>
    ensures { OnOk result (string_bytes text.new ≡ string_bytes text.old ++ text_of_mark (mark_view mark.now)) }
{
    match mark {
        Mark::Field(name) => push_name(text, "/", name),
        Mark::Variant(name) => push_name(text, "/~variant/", name),
        Mark::Item => text.push_str("/~items"),
        Mark::Place(place) => push_place(alloc, text, *place),
        Mark::Name => text.push_str("/~names"),
        Mark::Value => text.push_str("/~values"),
        Mark::Rest => text.push_str("/~rest"),
    }
}

/// A way as a text: `#`, and for each mark `/` and what the table says. Names are written as in JSON pointers (RFC 6901, in a fragment
/// without percent signs): `~` as `~0`, and `/` as `~1`. So no name is taken for a mark. It fails where memory runs out.
///
/// | Mark | Text |
/// |---|---|
/// | a field `id` | `/id` |
/// | a variant `Circle` | `/~variant/Circle` |
/// | every item of a list, a set or an array | `/~items` |
/// | a place of a tuple or an array, from 0 on | `/~place/0` |
/// | the names of a map | `/~names` |
/// | the values of a map | `/~values` |
/// | what the rest holds | `/~rest` |
pub fn way_text(alloc: Global, way: &[Mark]) -> Result<String, AllocError>
    ensures { IfOk result (λ s. string_bytes s ≡ text_of_way (way_view way.now)) }
{
    let mut text = String::from_str(alloc, "#")?;
    for mark in way {
        push_mark(alloc, &mut text, mark)?;
    }
    Ok(text)
}
