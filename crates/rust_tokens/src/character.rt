//! Classes of characters.
ghost use Rattle.std.specs.Prelude.{◌≡◌};
ghost use Rattle.rust_tokens.specs.Front.{begins_name, is_punctuation};

/// Whether an identifier may begin with the character: `_` or XID_Start.
pub(crate) fn begins_name(ch: char) -> bool
    ensures { result ≡ begins_name ch }
{
    (ch == '_') | unicode_ident::is_xid_start(ch)
}

/// Whether it is one of `+ - * / % ^ ! & | = < > @ . , ; : # $ ? ~ '`.
pub(crate) fn is_punctuation(ch: char) -> bool
    ensures { result ≡ is_punctuation ch }
{
    (ch == '+')
        | (ch == '-')
        | (ch == '*')
        | (ch == '/')
        | (ch == '%')
        | (ch == '^')
        | (ch == '!')
        | (ch == '&')
        | (ch == '|')
        | (ch == '=')
        | (ch == '<')
        | (ch == '>')
        | (ch == '@')
        | (ch == '.')
        | (ch == ',')
        | (ch == ';')
        | (ch == ':')
        | (ch == '#')
        | (ch == '$')
        | (ch == '?')
        | (ch == '~')
        | (ch == '\'')
}
