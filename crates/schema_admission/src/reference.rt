//! How many references are followed at one value.
ghost use Rattle.std.specs.Prelude.{◌≡◌, IfErr, IfOk};
ghost use Rattle.schema_defs.specs.Admits.{allowed as allowed_in};
ghost use Rattle.schema_types.specs.DocumentView.{document_view};

use schema_tree::TextFault;
use schema_types::Document;
use std::alloc::Global;

/// As many as the document has definitions, and one more.
pub fn allowed(alloc: Global, document: &Document) -> Result<usize, TextFault>
    ensures answer { IfOk result (λ n. n ≡ allowed_in (document_view document.now)) }
    ensures memory { IfErr result (λ e. e ≡ TextFault.Memory) }
{
    let mut held = Vec::new(alloc);
    let mut names = document.names();
    while let Some(name) = names.next() {
        match held.push(name) {
            Ok(()) => {}
            Err(_) => return Err(TextFault::Memory),
        }
    }
    Ok(held.len() + 1)
}
