//! The acts of serde's attributes: the metas of a list, the texts, trees and halves of their values, and what acts set and tell.
#![tactic(auto)]

mod act;
mod halves;
mod look;
mod part;
mod performing;
mod string;
mod text;
mod tree;

pub use act::{Act, Setting, Slot, Value, add, offer, set, tell, tell_syntax};
pub use halves::{
    Both, Given, Halves, Pair, both_texts, group_parts, only_text, tell_more_texts, tell_no_half,
    tell_second, text_pair,
};
pub use part::{Part, after_one, is_sign_next, parts_in, place_next};
pub use performing::{Settings, perform};
pub use string::{Text, literal_of, string_step, text_alone};
pub use text::{is_path, is_symbol, text_of_path};
pub use tree::{function_of_string, function_step, path_step, predicates_step, type_step, why};
