//! A schema document as its parts, which are known to be guarded.
ghost use Rattle.schema_defs.specs.Walks.{IsGuarded};
ghost use Rattle.schema_types.specs.DocumentView.{document_view};

/// A schema document that was read (JSON Schema Draft 7, in the profile that is read): each reference leads to the root
/// or to a definition, and no references at one value lead back to where they began.
#[derive(Drop)]
pub struct Document {
    pub(crate) parts: schema_types::Document,
    ghost guarded: { IsGuarded (document_view parts) },
}
