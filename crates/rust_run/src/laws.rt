//! What is known of `rust`: each law is the contract of a function that does nothing.
ghost use Rattle.rust_run.specs.Laws.{AlwaysAPage};

/// `rust` never ends with the line that there is no page.
pub fn always_a_page()
    ensures { AlwaysAPage }
{}
