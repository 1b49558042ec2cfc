//! Where a schema inside stands.
use crate::start::Start;
use row_findings::Steps;

/// A start of its own, or that of its owner, and the steps since.
#[derive(Drop)]
pub struct Place<'d> {
    pub start: Option<Start>,
    pub trail: Vec<Steps<'d>>,
}
