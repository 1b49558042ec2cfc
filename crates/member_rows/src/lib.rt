//! What the members of `anyOf` and `oneOf` make: options, and the variants of enums by their shapes.
#![tactic(auto)]

mod adjacent;
mod external;
mod internal;
mod members;
mod nulls;
mod tagged;

pub use adjacent::adjacent_variants;
pub use external::{external_variants, with_open_branches, with_text_branches};
pub use internal::internal_variants;
pub use members::{
    Member, branches_of, child_part, child_parts, lone_part, members_in, only_member,
    untagged_variants,
};
pub use nulls::{has_odd_null, has_one_null, option_member};
pub use tagged::{has_tag_alone, some_closed, some_open};
