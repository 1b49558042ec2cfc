//! What holds of every tidied text.
ghost use Rattle.tidy_laws.specs.Laws.{TidyKeepsTokens};

/// Tokens, printed with spaces between them and tidied, are read again, but for whether punctuation is joint. Each is such as some text begins with, as those of a
/// text are.
pub fn tidy_keeps_tokens()
    ensures { TidyKeepsTokens }
{}
