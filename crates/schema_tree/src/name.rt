//! Which names of properties are names in Rust as they stand.
ghost use Rattle.std.specs.Prelude.{◌≡◌, ◌||◌, ◌==◌, bytes_eq, chars};
ghost use Rattle.std.specs.List.{list_any, list_all};
ghost use Rattle.unicode_ident.specs.Ident.{is_xid_start, is_xid_continue};
ghost use Rattle.schema_tree.specs.KeptName.{is_kept_name as is_kept, is_one_of, keywords, primitive_types, spells_identifier};

const KEYWORDS: [&str; 51] = [
    "abstract", "as", "async", "await", "become", "box", "break", "const", "continue", "crate",
    "do", "dyn", "else", "enum", "extern", "false", "final", "fn", "for", "gen", "if", "impl",
    "in", "let", "loop", "macro", "match", "mod", "move", "mut", "override", "priv", "pub", "ref",
    "return", "self", "static", "struct", "super", "trait", "true", "try", "type", "typeof",
    "unsafe", "unsized", "use", "virtual", "where", "while", "yield",
];

const PRIMITIVE_TYPES: [&str; 17] = [
    "bool", "char", "str", "i8", "i16", "i32", "i64", "i128", "isize", "u8", "u16", "u32", "u64",
    "u128", "usize", "f32", "f64",
];

/// Whether an item, a field or a variant can have the name as it stands: it is an identifier, and neither `_`, a keyword,
/// `Self` nor the name of a primitive type. Takes no memory.
pub fn is_kept_name(name: &str) -> bool
    ensures { result ≡ is_kept name.now }
{
    is_identifier(name)
        && !(name == "_" || name == "Self" || is_keyword(name) || is_primitive_type(name))
}

fn is_keyword(name: &str) -> bool
    ensures { result ≡ is_one_of keywords name.now }
{
    is_among(name, &KEYWORDS)
}

fn is_primitive_type(name: &str) -> bool
    ensures { result ≡ is_one_of primitive_types name.now }
{
    is_among(name, &PRIMITIVE_TYPES)
}

fn is_among(name: &str, words: &[&str]) -> bool
    ensures { result ≡ list_any (λ w. bytes_eq w.now name.now) words.now }
{
    for word in words {
        if *word == name {
            return true;
        }
    }
    false
}

#[tactic(auto, using(crate::proofs::KeptNames::spells_past))]
fn is_identifier(name: &str) -> bool
    ensures { result ≡ spells_identifier (chars name.now) }
{
    let mut rest = name.chars();
    match rest.next() {
        Some(first) => begins_identifier(first) && continues_identifier(rest.as_str()),
        None => false,
    }
}

fn begins_identifier(c: char) -> bool
    ensures { result ≡ (is_xid_start c || (c == 95)) }
{
    unicode_ident::is_xid_start(c) | (c == '_')
}

fn continues_identifier(name: &str) -> bool
    ensures { result ≡ list_all is_xid_continue (chars name.now) }
{
    for c in name.chars() {
        if !unicode_ident::is_xid_continue(c) {
            return false;
        }
    }
    true
}
