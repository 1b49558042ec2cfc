//! What holds of all items within the forms: each law is the contract of a function that does nothing.
ghost use Rattle.form_laws.specs.Laws.{ItemsInsideAreFit};

/// The models of items within the forms are fit to be read: where a missing field, an empty one and one that is let out are
/// one and the same typed value, rules stand at newtypes alone, and variants have as many fields as their styles say.
pub fn items_inside_are_fit()
    ensures { ItemsInsideAreFit }
{}
