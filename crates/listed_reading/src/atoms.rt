//! Values and entries without parts.
ghost use Rattle.std.specs.Prelude.{◌≡◌, ◌≤◌, IfOk, IfSome, IsErrOf};
ghost use Rattle.schema_defs.specs.Faults.{Rises};
ghost use Rattle.schema_defs.specs.Integers.{in_range};
ghost use Rattle.json_value.specs.View.{kept_view};
ghost use Rattle.model_defs.specs.Layer.{has_the_format, is_boolean as is_boolean_value, is_in_range, is_text as is_text_value};
ghost use Rattle.entry_defs.specs.Entry.{reference};
ghost use Rattle.entry_defs.specs.Layer.{integer_range};
ghost use Rattle.entry_types.specs.View.{integer_view};
ghost use Rattle.tree_types.specs.View.{atom_view, target_view};
ghost use Rattle.listed_reading.specs.Followed.{Followed, takes_in};

use entry_types::IntName;
use row_findings::is_null;
use schema_tree::{Format, TextFault, Texts};
use serde_json::Value;
use tree_types::{Atom, Target};

#[tactic(auto, using(row_findings::proofs::KindsSeen::boolean_seen))]
fn is_boolean(value: &Value) -> bool
    ensures { result ≡ is_boolean_value (kept_view value.now) }
{
    value.is_boolean()
}

#[tactic(auto, using(row_findings::proofs::KindsSeen::text_seen))]
fn is_text(value: &Value) -> bool
    ensures { result ≡ is_text_value (kept_view value.now) }
{
    value.is_string()
}

fn is_in(whole: i128, least: i128, greatest: i128) -> bool
    ensures { result ≡ in_range whole (record { least = least; greatest = greatest }) }
{
    least <= whole && whole <= greatest
}

fn is_of_type(name: IntName, whole: i128) -> bool
    ensures { result ≡ in_range whole (integer_range (integer_view name)) }
{
    match name {
        IntName::I8 => is_in(whole, -128, 127),
        IntName::U8 => is_in(whole, 0, 255),
        IntName::I16 => is_in(whole, -32_768, 32_767),
        IntName::U16 => is_in(whole, 0, 65_535),
        IntName::I32 => is_in(whole, -2_147_483_648, 2_147_483_647),
        IntName::U32 => is_in(whole, 0, 4_294_967_295),
        IntName::I64 => is_in(whole, -9_223_372_036_854_775_808, 9_223_372_036_854_775_807),
        IntName::U64 => is_in(whole, 0, 18_446_744_073_709_551_615),
        IntName::NonZeroU8 => is_in(whole, 1, 255),
        IntName::NonZeroU16 => is_in(whole, 1, 65_535),
        IntName::NonZeroU32 => is_in(whole, 1, 4_294_967_295),
        IntName::NonZeroU64 => is_in(whole, 1, 18_446_744_073_709_551_615),
    }
}

fn is_integer(name: IntName, value: &Value) -> bool
    ensures { result ≡ is_in_range (integer_range (integer_view name)) (kept_view value.now) }
{
    match value {
        Value::Number(number) => match number.as_i128() {
            Some(whole) => is_of_type(name, whole),
            None => false,
        },
        _ => false,
    }
}

fn has_format<T: Texts>(format: Format, value: &Value, texts: &mut T) -> Result<bool, TextFault>
    ensures answer { IfOk result (λ b. b ≡ has_the_format (T.relations texts.old) format (kept_view value.now)) }
    ensures keeps { T.relations texts.new ≡ T.relations texts.old }
    ensures failed { IsErrOf result TextFault.Failed → Rises (T.faults texts.old) (T.faults texts.new) }
    ensures counts { T.faults texts.old ≤ T.faults texts.new }
{
    match value {
        Value::String(text) => {
            let answer = texts.has_format(format, text)?;
            Ok(answer)
        }
        _ => Ok(false),
    }
}

/// Whether an entry without parts takes the value. It fails where the judge of texts does, and a reference is answered by want of memory.
#[tactic(auto, using(crate::proofs::Forms::boolean_taken, crate::proofs::Forms::integer_taken, crate::proofs::Forms::text_taken, crate::proofs::Forms::native_taken, crate::proofs::Forms::any_taken, crate::proofs::Forms::unit_taken))]
pub fn atom_takes<T: Texts>(atom: &Atom, value: &Value, texts: &mut T) -> Result<bool, TextFault>
    ensures taken { IfOk result (λ b. (t : Followed) → takes_in t (T.relations texts.old) (atom_view atom.now) (kept_view value.now) ≡ b) }
    ensures keeps { T.relations texts.new ≡ T.relations texts.old }
    ensures failed { IsErrOf result TextFault.Failed → Rises (T.faults texts.old) (T.faults texts.new) }
    ensures counts { T.faults texts.old ≤ T.faults texts.new }
{
    match atom {
        Atom::Bool => Ok(is_boolean(value)),
        Atom::Integer(name) => Ok(is_integer(*name, value)),
        Atom::Text => Ok(is_text(value)),
        Atom::Native(format) => {
            let answer = has_format(*format, value, texts)?;
            Ok(answer)
        }
        Atom::Any => Ok(true),
        Atom::Unit => Ok(is_null(value)),
        Atom::Reference(_) => Err(TextFault::Memory),
    }
}

/// What an atom refers to.
pub fn target_of(atom: &Atom) -> Option<&Target>
    ensures { IfSome result (λ q. atom_view atom.now ≡ reference (target_view q.now)) }
{
    match atom {
        Atom::Reference(target) => Some(target),
        Atom::Bool => None,
        Atom::Integer(_) => None,
        Atom::Text => None,
        Atom::Native(_) => None,
        Atom::Any => None,
        Atom::Unit => None,
    }
}
