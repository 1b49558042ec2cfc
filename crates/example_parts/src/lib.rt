//! What is asked of single items where examples are made: by which name a field or a variant is found, which value a rule
//! gives, and of which items no example is made.
#![tactic(auto)]

pub mod examples;
mod names;
mod native;
mod numbers;
mod odd;
mod ruled;
mod setting;
mod small;

pub use names::{found_field, found_variant};
pub use native::names_native;
pub use numbers::{has_number, nearest};
pub use odd::is_odd;
pub use ruled::{inner_type, ruled_value};
pub use setting::Setting;
pub use value_taking::{may_be_missing, present_type};
