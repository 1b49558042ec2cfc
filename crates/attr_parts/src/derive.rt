//! Which of the two derives reads an item.

/// The derive for which attributes are read.
#[derive(Clone, Copy, PartialEq, Eq)]
pub enum Derive {
    Serialize,
    Deserialize,
}
