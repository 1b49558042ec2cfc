//! A judge by whom no text has a pattern or a format.
ghost use Rattle.std.specs.Prelude.{◌≡◌, Ok, false};

use schema_defs::Format;
use schema_texts::{TextFault, Texts};

/// A judge by whom no text has a pattern or a format. It never fails.
#[derive(Drop)]
pub(crate) struct NoTexts;

impl Texts for NoTexts {
    ghost use Rattle.example_defs.specs.Enough.{no_texts};

    ghost relations = { λ _. no_texts };

    ghost faults = { λ _. 0 };

    fn is_pattern(&mut self, pattern: &str) -> Result<bool, TextFault>
        ensures { result ≡ Ok false }
    {
        let _pattern = pattern;
        Ok(false)
    }

    fn has_pattern(&mut self, pattern: &str, text: &str) -> Result<bool, TextFault>
        ensures { result ≡ Ok false }
    {
        let _pattern = pattern;
        let _text = text;
        Ok(false)
    }

    fn has_format(&mut self, format: Format, text: &str) -> Result<bool, TextFault>
        ensures { result ≡ Ok false }
    {
        let _format = format;
        let _text = text;
        Ok(false)
    }
}
