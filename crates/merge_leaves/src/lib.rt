//! Merging what holds no schema: types, formats, numbers, texts, listed values, and the sizes of lists and of members. Each step takes the
//! keywords of both sides, writes its notes behind those before it, and answers the merged keyword, or nothing where no value is admitted.
#![tactic(auto)]

mod bounds;
mod formats;
mod kept;
mod lists;
mod members;
mod multiples;
mod names;
mod numbers;
mod sizes;
mod texts;
mod types;
mod values;

pub use formats::both_formats;
pub use lists::{ListSizes, kept_lists, list_sizes, two_list_sizes};
pub use members::{
    MemberSizes, MergedSizes, holds_no_schema, joined_names, kept_named, member_sizes,
    two_member_sizes,
};
pub use names::{push_names, rising_names};
pub use numbers::both_numbers;
pub use texts::both_texts;
pub use types::{both_types, is_only};
pub use values::{both_values, less_values, tidied_values, values_of};
