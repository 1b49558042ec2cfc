//! `Self` in an item, replaced by the item's own type, as serde's derives do before they write an item's impls.
#![tactic(auto)]

mod head;
mod item;
mod laws;
mod own;
mod walk;

pub use item::replace_receiver;
pub use laws::{keeps_others, leaves_none, settles};
