//! Which walks schemas carry within merges, and copies that carry them.
#![tactic(auto)]

mod inside;
mod longest;
mod settle;
mod side;
mod walks;

pub use inside::{
    copy_array, copy_child, copy_items, copy_list, copy_maybe, copy_maybe_array, copy_maybe_list,
    copy_maybe_members, copy_maybe_subschemas, copy_members, copy_properties, copy_subschemas,
    opened,
};
pub use settle::settled;
pub use side::{
    Side, child_side, list_sides, maybe_side, member_side, named_side, place_side, walked,
};
pub use walks::{
    has_more_steps, is_made, longer, made_on, own_walk, to_child, to_member, to_place, to_target,
    unmarked,
};
