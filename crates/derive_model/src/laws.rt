//! What holds of all modules: each law is the contract of a function that does nothing.
ghost use Rattle.derive_model.specs.Laws.{TablesWithoutDefaultsAreSound, TestedDefaultsAreSound};

/// A module without stated defaults meets what reading asks of them.
pub fn tables_without_defaults_are_sound()
    ensures { TablesWithoutDefaultsAreSound }
{}

/// A module that `Module::is_sound` finds sound meets what reading asks of its defaults.
pub fn tested_defaults_are_sound()
    ensures { TestedDefaultsAreSound }
{}
