//! What judges texts by patterns and formats.
ghost use Rattle.std.specs.Prelude.{◌≡◌, ℕ, ◌≤◌, IfOk, IsErrOf};
ghost use Rattle.schema_defs.specs.Faults.{Rises};
ghost use Rattle.schema_defs.specs.Texts.{Relations};

use schema_defs::Format;
use thiserror::Error;

/// Why a question on a text got no answer.
#[derive(Debug, Drop, Error)]
pub enum TextFault {
    /// Memory ran out.
    #[error("out of memory")]
    Memory,
    /// The judge failed.
    #[error("failed")]
    Failed,
}

/// Something that judges texts. `relations` is what it answers by, which no call changes, and `faults` counts its
/// failures.
pub trait Texts {
    ghost relations: { Self → Relations };

    ghost faults: { Self → ℕ };

    /// Whether the text is a pattern that can be asked about. It fails only where the count of failures rose.
    fn is_pattern(&mut self, pattern: &str) -> Result<bool, TextFault>
        ensures answer { IfOk result (λ b. b ≡ (relations self.old).is_pattern pattern.now) }
        ensures keeps { relations self.new ≡ relations self.old }
        ensures failed { IsErrOf result TextFault.Failed → Rises (faults self.old) (faults self.new) }
        ensures counts { faults self.old ≤ faults self.new };

    /// Whether the pattern matches somewhere in the text. It fails only where the count of failures rose.
    fn has_pattern(&mut self, pattern: &str, text: &str) -> Result<bool, TextFault>
        ensures answer { IfOk result (λ b. b ≡ (relations self.old).matches pattern.now text.now) }
        ensures keeps { relations self.new ≡ relations self.old }
        ensures failed { IsErrOf result TextFault.Failed → Rises (faults self.old) (faults self.new) }
        ensures counts { faults self.old ≤ faults self.new };

    /// Whether the text has the format. It fails only where the count of failures rose.
    fn has_format(&mut self, format: Format, text: &str) -> Result<bool, TextFault>
        ensures answer { IfOk result (λ b. b ≡ (relations self.old).has_format format text.now) }
        ensures keeps { relations self.new ≡ relations self.old }
        ensures failed { IsErrOf result TextFault.Failed → Rises (faults self.old) (faults self.new) }
        ensures counts { faults self.old ≤ faults self.new };
}
