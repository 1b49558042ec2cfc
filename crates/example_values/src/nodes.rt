//! How much may be made.
use std::alloc::AllocError;

/// Counts a node that is made, where one may still be made.
pub(crate) fn count_node(nodes: &mut u32) -> Result<(), AllocError> {
    if *nodes == 0 {
        return Err(AllocError);
    }
    *nodes -= 1;
    Ok(())
}
