//! What metas do: they tell something, or give a value to a slot.

ghost use Rattle.std.specs.Prelude.{◌≡◌, ◌++◌, ◌∷◌, [], OnOk};
ghost use Rattle.attr_defs.specs.Acts.{tells, sets, offers, adds, same_half, same_slot};
ghost use Rattle.attr_defs.specs.Owners.{whole, written, read};
ghost use Rattle.attr_parts.specs.Diagnostics.{kind_view, syntax};
ghost use Rattle.attr_parts.specs.Names.{attr_name};
ghost use Rattle.attr_acts.specs.Views.{acts_view, slot_view, value_view};

use attr_defs::Half;
use attr_parts::{Default, DiagKind, Diagnostic, Name, RenameRule};
use std::alloc::AllocError;
use std::collections::BTreeSet;
use syntax_trees::{ExprPath, Lifetime, Path, SyntaxError, Ty, WherePredicate};
use token_trees::{Span, Symbol};

/// What an attribute sets: it has the attribute's name, and may be one half alone.
#[derive(Clone, Copy)]
pub struct Slot {
    pub name: Symbol,
    pub half: Half,
}

/// What a slot is set to.
pub enum Value {
    Flag,
    Plain(String),
    Name(Name),
    Rule(RenameRule),
    Default(Default),
    Predicates(Vec<WherePredicate>),
    Ty(Ty),
    Path(Path),
    Function(ExprPath),
    Lifetimes(BTreeSet<Lifetime>),
}

impl Drop for Value {
    fn drop(self) {
        match self {
            Value::Flag | Value::Rule(_) => {}
            Value::Plain(_text) => {}
            Value::Name(_name) => {}
            Value::Default(_default) => {}
            Value::Predicates(_predicates) => {}
            Value::Ty(_ty) => {}
            Value::Path(_path) => {}
            Value::Function(_path) => {}
            Value::Lifetimes(_lifetimes) => {}
        }
    }
}

/// What a meta does.
#[derive(Drop)]
pub enum Act {
    /// A diagnostic is told.
    Tell(Diagnostic),
    /// A slot is set by the meta whose path stands there; a later value of the slot is told as a duplicate.
    Set(Slot, Span, Value),
    /// A slot is given a value where it has none.
    Offer(Slot, Value),
    /// A name is added to those that are read.
    Add(Name),
}

/// The first value of a slot, and the place of the meta that set it.
pub struct Setting {
    pub slot: Slot,
    pub at: Span,
    pub value: Value,
}

impl Drop for Setting {
    fn drop(self) {
        let Setting {
            slot: _,
            at: _,
            value: _value,
        } = self;
    }
}

impl Slot {
    /// What an attribute sets for both halves, or for neither alone.
    pub fn whole(name: Symbol) -> Slot
        ensures { slot_view result ≡ whole name.0.now }
    {
        Slot {
            name,
            half: Half::Whole,
        }
    }

    /// The half that is written.
    pub fn written(name: Symbol) -> Slot
        ensures { slot_view result ≡ written name.0.now }
    {
        Slot {
            name,
            half: Half::Serialize,
        }
    }

    /// The half that is read.
    pub fn read(name: Symbol) -> Slot
        ensures { slot_view result ≡ read name.0.now }
    {
        Slot {
            name,
            half: Half::Deserialize,
        }
    }

    /// Whether the two are one slot.
    pub fn is(self, other: Slot) -> bool
        ensures { result ≡ same_slot (slot_view self) (slot_view other) }
    {
        is_half(self.half, other.half) && self.name.text() == other.name.text()
    }
}

// Whether the two are one half.
fn is_half(a: Half, b: Half) -> bool
    ensures { result ≡ same_half a b }
{
    match a {
        Half::Whole => matches!(b, Half::Whole),
        Half::Serialize => matches!(b, Half::Serialize),
        Half::Deserialize => matches!(b, Half::Deserialize),
    }
}

/// A diagnostic is told.
pub fn tell(acts: &mut Vec<Act>, kind: DiagKind, span: Span) -> Result<(), AllocError>
    ensures { OnOk result (acts_view acts.new.items ≡ acts_view acts.old.items ++ tells (record { kind = kind_view kind; span = span }) ∷ []) }
{
    acts.push(Act::Tell(Diagnostic { kind, span }))?;
    Ok(())
}

/// An error of syntax is told.
pub fn tell_syntax(acts: &mut Vec<Act>, error: SyntaxError) -> Result<(), AllocError>
    ensures { OnOk result (acts_view acts.new.items ≡ acts_view acts.old.items ++ tells (syntax error) ∷ []) }
{
    tell(acts, DiagKind::Syntax(error.kind), error.span)
}

/// A slot is set by the meta whose path stands there.
pub fn set(acts: &mut Vec<Act>, slot: Slot, at: Span, value: Value) -> Result<(), AllocError>
    ensures { OnOk result (acts_view acts.new.items ≡ acts_view acts.old.items ++ sets (slot_view slot) at (value_view value) ∷ []) }
{
    acts.push(Act::Set(slot, at, value))?;
    Ok(())
}

/// A slot is given a value where it has none.
pub fn offer(acts: &mut Vec<Act>, slot: Slot, value: Value) -> Result<(), AllocError>
    ensures { OnOk result (acts_view acts.new.items ≡ acts_view acts.old.items ++ offers (slot_view slot) (value_view value) ∷ []) }
{
    acts.push(Act::Offer(slot, value))?;
    Ok(())
}

/// A name is added to those that are read.
pub fn add(acts: &mut Vec<Act>, name: Name) -> Result<(), AllocError>
    ensures { OnOk result (acts_view acts.new.items ≡ acts_view acts.old.items ++ adds (attr_name name) ∷ []) }
{
    acts.push(Act::Add(name))?;
    Ok(())
}
