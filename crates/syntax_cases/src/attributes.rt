//! Cases of the readers of serde's attributes: each line of standard input tells an owner and its attributes, and a line is
//! printed of what is told of them, each with its place, and, behind ` | `, of what they say.
//!
//! A line has columns with ` | ` between two. The first says whose attributes they are: `struct S` and `named`, `tuple` or
//! `unit`; `union U`; `enum E` and the forms of its variants, `named`, `newtype`, `tuple`, `unit` or `none`, which has
//! parentheses and no field; `variant V` and its form; or `field f` and its type, a number in place of the name where it has
//! none. Each other column is an attribute, as it stands between `#[` and `]`. `of default` says that the container of a field
//! has a default, and `of` before an attribute that the field's variant has it. `by` before two rules has them rename what
//! was read, by a renamer that puts `v_` or `f_` before a name.
//!
//! In attributes braces stand for a group without delimiters. A place is the number of the first and of the last token in the
//! line's attributes, where both brackets of a group count, and 0 where there is none. A container's keyword stands at 900,
//! the owner's name at 901, the type of a field at 902, and the variants of an enum at 910, 912 and so on, each with its fields
//! at the place after it. What an attribute leaves as it was is not printed, but for names.
//!
//! A line that begins with `kind` names a kind of diagnostic, with its texts behind ` | `, and what is said is printed. `SyntaxKind` stands
//! behind `Syntax`, and the place of a field behind `DefaultOrder`. `kind name`, `kind no rule` and `kind symbols` print a name, a text
//! that names no rule, and all symbols.
//!
//! A line that begins with `receiver` tells an item, which is printed with its `Self` replaced. It has five columns: the item's kind and
//! name, its parameters, its predicates, a form, and a text. The parameters are written as predicates: `'a:` is a lifetime, `T: A` a type
//! with its bounds, `[N]: u8` a constant of the type behind the colon. The form says what is made of the text: a type, an array whose
//! length is an expression over the text's path, and so on.

mod attribute;
mod case;
mod form;
mod item;
mod kind;
mod numbers;
mod readers;
mod receiver;
mod said;
mod show;

pub(crate) use case::answer;
