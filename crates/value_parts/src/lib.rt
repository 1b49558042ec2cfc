//! What reading JSON values goes through at one level: scalars, rules, variants, members by fields, and what is made of
//! the parts that were read.
#![tactic(auto)]

mod built;
mod choice;
mod demand;
mod holds;
mod leaf;
mod members;
mod missing;
mod outcome;
mod plain;
mod rules;
mod setting;
mod slots;
mod sorted;
mod sorting;
mod variants;

pub use built::list_of;
pub use choice::{Choice, choose};
pub use demand::{Demand, fits, length_of, type_at};
pub use holds::{rule_holds, rule_of};
pub use leaf::{as_whole, is_absent, leaf_of, read_scalar};
pub use members::{Member, members_of, name_value};
pub use missing::{Absence, absence_of, empty_value, inner_type, without_default};
pub use outcome::{
    Outcome, as_list, as_map, as_newtype, as_single, as_some, as_struct, as_unit, as_variant,
    if_sound, kept_if, paired, push_pair, push_typed, refused_at, refused_here, refused_pair_at,
    refused_pairs, refused_several, refused_several_at, under_name, under_place,
};
pub use plain::read_unit;
pub use setting::{MOST_LEVELS, Setting, count_defaults, with_entered};
pub use slots::Slot;
pub use sorted::Sorted;
pub use sorting::sort;
pub use variants::{Found, is_unit, short_place};
