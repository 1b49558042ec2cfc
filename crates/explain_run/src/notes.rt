//! What is said of a note.
ghost use Rattle.std.specs.Prelude.{◌≡◌};
ghost use Rattle.explain_run.specs.Notes.{narrowed_text, note_sentence as note_sentence_of, widened_text};

use convert_document::{NoteKind, Way};

// What the items refuse.
fn narrowed(kind: NoteKind) -> &'static str
    ensures { result.now ≡ narrowed_text kind }
{
    match kind {
        NoteKind::N1 =>
            "Without a type the schema is converted by the keywords that it has, as an object, a text or an array: values of every other kind are refused.",
        NoteKind::N2 => "",
        NoteKind::N3 => "",
        NoteKind::N4 =>
            "The type chosen by the bounds or the format holds fewer numbers: others are refused.",
        NoteKind::N5 => "",
        NoteKind::N6 => "",
        NoteKind::N7 =>
            "A member of an enum in external form is open; the enum reads that one member alone, and refuses others beside it.",
        NoteKind::N8 =>
            "Some members of an enum by a tag are closed, some open; the enum is closed, and refuses further names at those that are open.",
        NoteKind::N9 =>
            "A member of an enum by a tag has the tag alone and is open; the enum refuses a content beside it.",
        NoteKind::N10 => "",
        NoteKind::N11 => "",
        NoteKind::N12 => "",
        NoteKind::N13 => "",
        NoteKind::N14 => "Names beyond the patterns or the rules are refused.",
        NoteKind::N15 => "Of a type with an `enum` under `not` values of other types are refused.",
        NoteKind::N16 =>
            "What stands beside a reference is left out of what is taken away, so that more is taken away.",
        NoteKind::N17 =>
            "No text is taken to have two formats that differ, and nothing else is taken either.",
        NoteKind::N18 =>
            "Bounds, sizes or lengths cross, or items or required names clash: nothing is taken, values of other kinds included.",
        NoteKind::N19 =>
            "Members of `anyOf` beside a body are told apart, each without the others: a value of several is refused.",
        NoteKind::N20 =>
            "Taking away goes by listed values, properties and required names; all else is passed over: more may be taken away.",
        NoteKind::N21 => "Null where a member is absent is lost by a merge.",
    }
}

// What the items take.
fn widened(kind: NoteKind) -> &'static str
    ensures { result.now ≡ widened_text kind }
{
    match kind {
        NoteKind::N1 => "",
        NoteKind::N2 => "Null is taken where another keyword refuses it.",
        NoteKind::N3 =>
            "A constant beside a type, which isn't a text, is left out: other values of the type are taken.",
        NoteKind::N4 => "The type holds more numbers than the schema admits, and these are taken.",
        NoteKind::N5 =>
            "A text of one of the six formats is read as that format alone: its lengths and patterns are left out.",
        NoteKind::N6 =>
            "A list's sizes, and that a set's items differ, are left out: a set drops repeated items when it is read.",
        NoteKind::N7 => "",
        NoteKind::N8 => "",
        NoteKind::N9 => "",
        NoteKind::N10 => "A list of one boolean is read as `bool`: the other one is taken too.",
        NoteKind::N11 => "A type beside `anyOf`, `oneOf`, `allOf` or `not` is left out.",
        NoteKind::N12 =>
            "Several members of `oneOf` may admit one value; it is taken by the first.",
        NoteKind::N13 => "How many members an object has is left out.",
        NoteKind::N14 =>
            "Rules on the names of members are left out: a name that no property has is passed over.",
        NoteKind::N15 => "",
        NoteKind::N16 => "What stands beside a reference is left out where it is merged.",
        NoteKind::N17 => "Formats that differ clash in what is taken away: nothing is taken away.",
        NoteKind::N18 => "The clash is in what is taken away: nothing is taken away.",
        NoteKind::N19 =>
            "A member of `oneOf` is left out, or the body stands for it, though several members may admit one value.",
        NoteKind::N20 =>
            "Taking away goes by listed values, properties and required names; all else is passed over: less may be taken away.",
        NoteKind::N21 => "Null where a member is absent is lost by a merge that is taken away.",
    }
}

/// What the items refuse that the schema admits, or take that it doesn't, in a sentence; nothing for a way and a kind of which there is no note.
pub fn note_sentence(way: Way, kind: NoteKind) -> &'static str
    ensures { result.now ≡ note_sentence_of way kind }
{
    match way {
        Way::Narrowed => narrowed(kind),
        Way::Widened => widened(kind),
    }
}
