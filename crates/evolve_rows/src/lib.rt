//! The rows of the evolution checker over tables of containers: what is seen at a place, and what is asked of two
//! places.
#![tactic(auto)]

mod asked;
mod fields;
mod form;
mod kinds;
mod lists;
mod look;
mod mark;
mod marks;
mod place;
mod plain;
mod question;
mod rows;
mod rules;
mod scalars;
mod turn;
mod variants;

pub use mark::{Mark, Step};
pub use marks::steps_at;
pub use place::{Place, Table, Tables};
pub use rows::turn_at;
pub use turn::{Broken, Pair, Turn};
