//! The entries of a space that is given up.
ghost use Rattle.std.specs.Prelude.{◌≡◌, IfOk, map};
ghost use Rattle.entry_types.specs.View.{entry_view};
ghost use Rattle.entry_space.specs.Seen.{seen};

use crate::space::EntrySpace;
use entry_types::TypeEntry;
use std::alloc::AllocError;

impl EntrySpace {
    /// The entries in the order of their ids. Fails only for want of memory.
    #[tactic(auto, using(crate::proofs::GivenUp::seen_values))]
    pub fn into_entries(self) -> Result<Vec<TypeEntry>, AllocError>
        ensures { IfOk result (λ v. map entry_view v.items ≡ seen self) }
    {
        let entries = self
            .entries
            .into_values()
            .collect::<Vec<TypeEntry>>(self.alloc)?;
        Ok(entries)
    }
}
