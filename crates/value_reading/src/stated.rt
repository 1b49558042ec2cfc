//! Whether types read stated defaults.
ghost use Rattle.std.specs.Prelude.{◌≡◌, ◌≤◌, [], IfOk, IsErrOf, length};
ghost use Rattle.schema_defs.specs.Faults.{Rises};
ghost use Rattle.reading_defs.specs.Laws.{is_taken};
ghost use Rattle.reading_defs.specs.Reading.{default_inside};
ghost use Rattle.conversion_table.specs.Conversions.{conversions_view};
ghost use Rattle.value_models.specs.ContainersView.{containers_in};
ghost use Rattle.value_models.specs.TypeView.{type_view};
ghost use Rattle.value_parts.specs.Seen.{one_view};

use crate::reading::read_default;
use conversion_table::Conversions;
use schema_texts::{TextFault, Texts};
use std::alloc::Global;
use value_models::{Containers, Typed, ValueType};
use value_parts::{MOST_LEVELS, Outcome, Setting, count_defaults};

fn is_taken(read: &Outcome<Typed>) -> bool
    ensures { result ≡ is_taken (one_view read.now) }
{
    match read {
        Outcome::Taken(_) => true,
        Outcome::Refused(_) | Outcome::Unsound => false,
    }
}

/// Whether the type reads the stated default at the place of the table (serde.rs/field-attrs), which is null past its end.
/// It doesn't read one that is met inside itself. It fails where memory runs out, or where the judge of texts failed, whose
/// count of failures then rose.
pub fn reads_default<T: Texts>(
    alloc: Global,
    containers: &Containers,
    conversions: &Conversions,
    texts: &mut T,
    place: u32,
    ty: &ValueType,
) -> Result<bool, TextFault>
    ensures answer { IfOk result (λ b. b ≡ is_taken (default_inside (containers_in containers.now) (conversions_view conversions.now) (T.relations texts.old) (length (conversions_view conversions.now).defaults) [] place (type_view ty.now))) }
    ensures keeps { T.relations texts.new ≡ T.relations texts.old }
    ensures failed { IsErrOf result TextFault.Failed → Rises (T.faults texts.old) (T.faults texts.new) }
    ensures counts { T.faults texts.old ≤ T.faults texts.new }
{
    let entered = Vec::new(alloc);
    let setting = Setting {
        alloc,
        containers,
        conversions,
        entered: &entered,
        more: count_defaults(conversions),
        levels: MOST_LEVELS,
    };
    let read = read_default(&setting, texts, place, ty)?;
    Ok(is_taken(&read))
}
