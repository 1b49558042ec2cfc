//! What holds of all items: each law is the contract of a function that does nothing.
ghost use Rattle.container_defs.specs.Laws.{UnionsAlone, DerivesAgree, OneIsMarked, NothingIsTold, FieldsAreRead};

/// Every item but a union is a container.
pub fn unions_alone_are_none()
    ensures { UnionsAlone }
{}

/// The reader of values makes the same of what is read for either derive.
pub fn derives_agree()
    ensures { DerivesAgree }
{}

/// Of the fields of a transparent struct the one that counts is marked.
pub fn one_is_marked()
    ensures { OneIsMarked }
{}

/// Nothing is told of a struct with named fields whose one attribute, if any, is `deny_unknown_fields`.
pub fn plain_structs_are_clean()
    ensures { NothingIsTold }
{}

/// Each of its fields is required, and read by its name as its type.
pub fn plain_structs_are_read()
    ensures { FieldsAreRead }
{}
