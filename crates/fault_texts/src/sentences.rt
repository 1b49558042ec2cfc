//! What is said of a fault.
ghost use Rattle.std.specs.Prelude.{◌≡◌};
ghost use Rattle.schema_tree.specs.Fault.{fault_view};
ghost use Rattle.fault_texts.specs.Sentences.{change_of as change_text, invalid_change as invalid_change_text, invalid_rule as invalid_rule_text, invalid_word as invalid_word_text, rule_of as rule_text, unsupported_change as unsupported_change_text, unsupported_rule as unsupported_rule_text, unsupported_word as unsupported_word_text};

use schema_tree::{Fault, InvalidKind, UnsupportedKind};

/// The name of the kind.
pub(crate) fn invalid_word(kind: InvalidKind) -> &'static str
    ensures { result.now ≡ invalid_word_text kind }
{
    match kind {
        InvalidKind::Array => "Array",
        InvalidKind::Pattern => "Pattern",
    }
}

// The rule that the kind breaks.
fn invalid_rule(kind: InvalidKind) -> &'static str
    ensures { result.now ≡ invalid_rule_text kind }
{
    match kind {
        InvalidKind::Array =>
            "The list has `contains`, or schemas by place where `minItems` and `maxItems` aren't one number above 0, or where `uniqueItems` or `contains` stands beside them.",
        InvalidKind::Pattern =>
            "The pattern isn't plain, which is what means one thing in ECMA-262 (22.2.1) and in crate `regex`.",
    }
}

// What to change of the kind.
fn invalid_change(kind: InvalidKind) -> &'static str
    ensures { result.now ≡ invalid_change_text kind }
{
    match kind {
        InvalidKind::Array =>
            "Of a list by place let both sizes be its length, or write one schema at `items`. Leave `contains` out: then more lists are taken.",
        InvalidKind::Pattern =>
            "Let lookaheads stand right behind a `^` at the front, lookbehinds right before a `$` at the end, and no bar outside of groups beside these. Leave out what else begins with `(?` but for `(?:`, references such as `\\1`, letters behind a backslash that have no meaning there, and a quantifier behind a quantifier. docs/FAULTS.md has the rest.",
    }
}

/// The name of the kind.
pub(crate) fn unsupported_word(kind: UnsupportedKind) -> &'static str
    ensures { result.now ≡ unsupported_word_text kind }
{
    match kind {
        UnsupportedKind::Conditional => "Conditional",
        UnsupportedKind::Mix => "Mix",
        UnsupportedKind::MixedEnum => "MixedEnum",
        UnsupportedKind::NestedEnum => "NestedEnum",
        UnsupportedKind::Not => "Not",
        UnsupportedKind::AnyOne => "AnyOne",
        UnsupportedKind::Names => "Names",
        UnsupportedKind::Subtract => "Subtract",
    }
}

// The rule that the kind breaks.
fn unsupported_rule(kind: UnsupportedKind) -> &'static str
    ensures { result.now ≡ unsupported_rule_text kind }
{
    match kind {
        UnsupportedKind::Conditional => "`if`, `then` or `else` stands there (Draft 7, 6.6).",
        UnsupportedKind::Mix =>
            "Keywords of several kinds stand without a type, or a format or listed values beside keywords without one, or listed values beside several types.",
        UnsupportedKind::MixedEnum => "`enum` lists values of several kinds.",
        UnsupportedKind::NestedEnum => "`enum` lists a value that is a list or an object.",
        UnsupportedKind::Not =>
            "`not`, alone or beside a type, holds more than a boolean, `{}`, one type with an `enum`, or listed values of one kind.",
        UnsupportedKind::AnyOne => "One side of a merge has both `anyOf` and `oneOf`.",
        UnsupportedKind::Names =>
            "The names of a map are bound by more than keywords of texts, or rules on names are merged with properties that the other side names.",
        UnsupportedKind::Subtract =>
            "In a merge `not` stands beside nothing else, or holds several of `allOf`, `anyOf`, `oneOf` and `not`.",
    }
}

// What to change of the kind.
fn unsupported_change(kind: UnsupportedKind) -> &'static str
    ensures { result.now ≡ unsupported_change_text kind }
{
    match kind {
        UnsupportedKind::Conditional =>
            "Write the cases as `oneOf`, each with what tells it apart; or leave the condition out, which takes more.",
        UnsupportedKind::Mix =>
            "Write the type; or, of listed values beside several types, `oneOf` of one list a type.",
        UnsupportedKind::MixedEnum => "Write `oneOf` of one list a kind.",
        UnsupportedKind::NestedEnum => "Write it as a schema of its parts.",
        UnsupportedKind::Not => "Say what is admitted instead of what isn't.",
        UnsupportedKind::AnyOne => "Put one of them in a member of `allOf` of its own.",
        UnsupportedKind::Names =>
            "Keep keywords of texts alone under `propertyNames`; write both sides in one schema.",
        UnsupportedKind::Subtract =>
            "Say what is admitted instead; leave one of these under `not`.",
    }
}

/// The rule that the fault tells, in a sentence or two; nothing for want of memory.
pub fn rule_of(fault: &Fault) -> &'static str
    ensures { result.now ≡ rule_text (fault_view fault.now) }
{
    match fault {
        Fault::Memory => "",
        Fault::Malformed { .. } =>
            "The keyword holds what Draft 7 doesn't allow there (JSON Schema Validation, 6, 7, 9 and 10; Core, 4.3 and 8.3).",
        Fault::MissingRef { .. } =>
            "The reference names neither the root, `#`, nor a definition of the root, `#/definitions/NAME` or `#/$defs/NAME` (Core, 8.3; RFC 6901).",
        Fault::ExternalRef { .. } =>
            "The reference doesn't begin with `#`: it names another document, or this one by its own name, and one document is read.",
        Fault::Unguarded { .. } =>
            "References lead back to where they began without stepping into a part of the value (Core, 8.3). The steps are the walk round.",
        Fault::Depth { .. } =>
            "More steps than DEPTH lead from a definition or the root to a schema of it. The steps are that walk.",
        Fault::Places { .. } =>
            "A list by place has fewer schemas than its sizes say, and more places than DEPTH; each place is written out in the item.",
        Fault::Float { .. } =>
            "The type `number` stands where not all seven types do, or a number isn't whole: in a bound or a size, or anywhere in `enum`, `const` or `default`. Values have whole numbers alone.",
        Fault::ValueNumber { .. } => "A value holds a number that isn't an i64.",
        Fault::InvalidValue { .. } =>
            "A value that the schema states isn't read by its type: one of `enum`, or of `not` with an `enum`, or a default, which may also come round to itself.",
        Fault::BadValue { .. } =>
            "A list of texts, `enum` beside the type `string`, has a value that is neither a text nor null.",
        Fault::InvalidSchema { kind, .. } => invalid_rule(*kind),
        Fault::Unsupported { kind, .. } => unsupported_rule(*kind),
        Fault::Texts { .. } => "A pattern is plain, but larger than `regex` compiles.",
    }
}

/// What to change, in a sentence or two; nothing for want of memory.
pub fn change_of(fault: &Fault) -> &'static str
    ensures { result.now ≡ change_text (fault_view fault.now) }
{
    match fault {
        Fault::Memory => "",
        Fault::Malformed { .. } =>
            "Correct what stands at that keyword. `exclusiveMinimum: true` is Draft 4: tools/bundle turns it.",
        Fault::MissingRef { .. } =>
            "Correct the name, or write the definition. Where the reference leads deeper, to an anchor, or has percent signs, tools/bundle brings what it names under `definitions`.",
        Fault::ExternalRef { .. } =>
            "tools/bundle brings files that stand beside the schema, and turns the document's own `$id`. Of what stands on a network keep a copy beside the schema, and name that.",
        Fault::Unguarded { .. } =>
            "Let one of the references on that walk stand under `properties`, `items` or the like, or name another schema.",
        Fault::Depth { .. } =>
            "Say a greater DEPTH; 64 serves. Where this is told at 512 too, a merge doesn't end: take away what stands beside the reference, or the reference from `allOf`.",
        Fault::Places { .. } =>
            "Say a greater DEPTH, or write one schema at `items` for all places, which has no such bound.",
        Fault::Float { .. } =>
            "Write `integer`, if whole numbers are meant, with whole bounds; or `true` in place of the schema, which takes any value. Write `100` for `1e2`.",
        Fault::ValueNumber { .. } =>
            "Leave the value out of the list, or write the number as a text.",
        Fault::InvalidValue { .. } =>
            "Leave the value out of the list, or correct the default. Where null stands for absence, `--null-absent` may take a default that is refused without it.",
        Fault::BadValue { .. } =>
            "Leave the value out, as beside that type nothing is lost; or correct the type.",
        Fault::InvalidSchema { kind, .. } => invalid_change(*kind),
        Fault::Unsupported { kind, .. } => unsupported_change(*kind),
        Fault::Texts { .. } =>
            "Write smaller counts in the pattern, such as `{0,1000}` for `{0,1000000}`, or `maxLength` in their place.",
    }
}
