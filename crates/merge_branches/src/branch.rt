//! `anyOf` or `oneOf`.

/// Which of the two.
#[derive(Clone, Copy)]
pub enum Branch {
    Any,
    One,
}
