//! What metas do is done: diagnostics are told in order, and of the values of each slot the first is kept.
ghost use Rattle.std.specs.Prelude.{◌≡◌, ◌++◌, ◌∷◌, [], Some, None, IfOk, OnOk, OnErr, option_map, is_some, map};
ghost use Rattle.token_trees.specs.Token.{site};
ghost use Rattle.attr_parts.specs.Diagnostics.{diagnostics, kind_view, duplicate, TellsFront};
ghost use Rattle.attr_parts.specs.Names.{attr_name};
ghost use Rattle.attr_defs.specs.Acts.{first_of, values_of, value_of, added, told, told_by, repeated};
ghost use Rattle.attr_acts.specs.Views.{act_view, acts_view, slot_view, setting_view, value_view};
ghost use Rattle.attr_acts.specs.Kept.{keep, kept_on, settings_view, values_in};

use crate::act::{Act, Setting, Slot, Value};
use attr_parts::{Ctxt, DiagKind, Name};
use std::alloc::{AllocError, Global};
use token_trees::{Span, Symbol};

/// The first setting of each slot that is set, and the names that are added, in order.
#[derive(Drop)]
pub struct Settings {
    kept: Vec<Setting>,
    pub names: Vec<Name>,
}

// The first setting of the slot.
fn find(settings: &[Setting], slot: Slot) -> Option<&Setting>
    ensures { option_map (λ s. setting_view s.now) result ≡ first_of (slot_view slot) (map setting_view settings.now) }
{
    for setting in settings {
        if setting.slot.is(slot) {
            return Some(setting);
        }
    }
    None
}

impl Settings {
    /// The slot's setting.
    pub fn get(&self, slot: Slot) -> Option<&Setting>
        ensures { option_map (λ s. setting_view s.now) result ≡ values_in self.now (slot_view slot) }
    {
        find(&self.kept, slot)
    }

    // A setting is kept where its slot has none. Whether the slot had one.
    #[tactic(auto, using(crate::proofs::Kept::kept_some, crate::proofs::Kept::kept_none, crate::proofs::Kept::is_there))]
    fn keep(&mut self, setting: Setting) -> Result<bool, AllocError>
        ensures kept { OnOk result (settings_view self.new ≡ keep (settings_view self.old) (setting_view setting)) }
        ensures had { IfOk result (λ b. b ≡ is_some (first_of (setting_view setting).slot (settings_view self.old))) }
        ensures names { self.new.names ≡ self.old.names }
    {
        if self.get(setting.slot).is_some() {
            return Ok(true);
        }
        self.kept.push(setting)?;
        Ok(false)
    }
}

// A second value of a slot is told.
fn tell_repeated(alloc: Global, cx: &mut Ctxt, name: Symbol, at: Span) -> Result<(), AllocError>
    ensures ok { OnOk result (diagnostics cx.new ≡ diagnostics cx.old ++ record { kind = duplicate name.0.now; span = at } ∷ []) }
    ensures err { OnErr result (diagnostics cx.new ≡ diagnostics cx.old) }
{
    let text = String::from_str(alloc, name.text())?;
    cx.error_spanned_by(at, DiagKind::Duplicate(text))
}

// A slot is set; that is told where it had a value.
#[tactic(auto, using(crate::proofs::Kept::repeated_some, crate::proofs::Kept::repeated_none))]
fn set_one(
    alloc: Global,
    cx: &mut Ctxt,
    settings: &mut Settings,
    setting: Setting,
) -> Result<(), AllocError>
    ensures kept { OnOk result (settings_view settings.new ≡ keep (settings_view settings.old) (setting_view setting)) }
    ensures names { settings.new.names ≡ settings.old.names }
    ensures ok { OnOk result (diagnostics cx.new ≡ diagnostics cx.old ++ repeated (first_of (setting_view setting).slot (settings_view settings.old)) (setting_view setting).slot setting.at) }
    ensures err { OnErr result (diagnostics cx.new ≡ diagnostics cx.old) }
{
    let name = setting.slot.name;
    let at = setting.at;
    if settings.keep(setting)? {
        return tell_repeated(alloc, cx, name, at);
    }
    Ok(())
}

// One act.
fn perform_one(
    alloc: Global,
    cx: &mut Ctxt,
    settings: &mut Settings,
    act: Act,
) -> Result<(), AllocError>
    ensures kept { OnOk result (settings_view settings.new ≡ kept_on (settings_view settings.old) (act_view act)) }
    ensures names { OnOk result (map attr_name settings.new.names.items ≡ map attr_name settings.old.names.items ++ added (act_view act ∷ [])) }
    ensures ok { OnOk result (diagnostics cx.new ≡ diagnostics cx.old ++ told_by (settings_view settings.old) (act_view act)) }
    ensures err { OnErr result (diagnostics cx.new ≡ diagnostics cx.old) }
{
    match act {
        Act::Tell(diagnostic) => cx.push(diagnostic),
        Act::Set(slot, at, value) => set_one(alloc, cx, settings, Setting { slot, at, value }),
        Act::Offer(slot, value) => {
            let at = Span::call_site();
            let _ = settings.keep(Setting { slot, at, value })?;
            Ok(())
        }
        Act::Add(name) => {
            settings.names.push(name)?;
            Ok(())
        }
    }
}

/// All acts in order. Where memory runs out, a front of what they tell was told.
pub fn perform(alloc: Global, cx: &mut Ctxt, acts: Vec<Act>) -> Result<Settings, AllocError>
    ensures values { IfOk result (λ s. values_in s ≡ values_of (acts_view acts.items)) }
    ensures names { IfOk result (λ s. map attr_name s.names.items ≡ added (acts_view acts.items)) }
    ensures told { OnOk result (diagnostics cx.new ≡ diagnostics cx.old ++ told (acts_view acts.items)) }
    ensures err { OnErr result (TellsFront (diagnostics cx.old) (diagnostics cx.new) (told (acts_view acts.items))) }
{
    let mut left = acts.into_iter();
    let mut settings = Settings {
        kept: Vec::new(alloc),
        names: Vec::new(alloc),
    };
    while let Some(act) = left.next() {
        perform_one(alloc, cx, &mut settings, act)?;
    }
    Ok(settings)
}
