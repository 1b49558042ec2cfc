//! What holds of each schema inside a schema. The definitions stand in specs/.
#![tactic(auto)]
