//! Forms outside the reader of JSON values: which containers it doesn't read, one question for each cause.
#![tactic(auto)]

mod beside;
mod condition;
mod container_test;
mod field_test;
mod fields;
mod type_form;
mod variant_test;

pub use beside::{ListTest, any_fields};
pub use container_test::{ContainerTest, asked_of};
pub use field_test::FieldTest;
pub use fields::{any_field, any_in_fields};
pub use type_form::is_text;
pub use variant_test::{VariantTest, any_variant};
