//! A call of `typify_present` with the value and a literal.
ghost use Rattle.std.specs.Prelude.{◌≡◌, ◌++◌, OnOk, string_bytes};
ghost use Rattle.module_texts.specs.Calls.{broken_call, call_line, is_broken as broken, plain_call};

use crate::tokens::width;
use std::alloc::AllocError;

fn push_plain_call(out: &mut String, call: &str, literal: &str) -> Result<(), AllocError>
    ensures { OnOk result (string_bytes out.new ≡ string_bytes out.old ++ plain_call call.now literal.now) }
{
    out.push_str("        typify_present::")?;
    out.push_str(call)?;
    out.push_str("(&value, ")?;
    out.push_str(literal)?;
    out.push_str(")?;\n")?;
    Ok(())
}

fn push_broken_call(out: &mut String, call: &str, literal: &str) -> Result<(), AllocError>
    ensures { OnOk result (string_bytes out.new ≡ string_bytes out.old ++ broken_call call.now literal.now) }
{
    out.push_str("        typify_present::")?;
    out.push_str(call)?;
    out.push_str("(\n            &value,\n            ")?;
    out.push_str(literal)?;
    out.push_str(",\n        )?;\n")?;
    Ok(())
}

// Whether the arguments stand on lines of their own.
fn is_broken(literal: &str) -> bool
    ensures { result ≡ broken literal.now }
{
    let count = width(literal);
    count > 52 && count <= 87
}

/// Appends the line or the lines of the call.
pub(crate) fn push_call(out: &mut String, call: &str, literal: &str) -> Result<(), AllocError>
    ensures { OnOk result (string_bytes out.new ≡ string_bytes out.old ++ call_line call.now literal.now) }
{
    if is_broken(literal) {
        return push_broken_call(out, call, literal);
    }
    push_plain_call(out, call, literal)
}
