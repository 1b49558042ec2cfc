//! What holds of conversion: the law is the contract of a function that does nothing.

ghost use Rattle.convert_defs.specs.Chains.{ChainsEnd};

/// Schemas that rows make one of another, in the place of one written schema, come to an end before the bound.
pub fn chains_end()
    ensures { ChainsEnd }
{}
