//! The types that emitted items use, as syntax trees.
#![tactic(auto)]

mod built_in;
mod parts;
mod types;

pub use built_in::IntegerName;
pub use parts::{lone, name_of, no_arguments, of_one, of_two, path_at, rooted};
pub use types::{
    any_ty, array_ty, boolean_ty, boxed_ty, integer_ty, map_ty, native_ty, option_ty, set_ty,
    text_ty, tuple_ty, unit_ty, used_ty, vec_ty,
};
