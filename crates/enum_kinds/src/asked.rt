//! What references leave open, kept as it is found, so that a definition is asked once.
ghost use Rattle.std.specs.Prelude.{◌≡◌, ℕ, List, Some, string_bytes};
ghost use Rattle.std.specs.BTreeMap.{get_by_text};
ghost use Rattle.schema_types.specs.DocumentView.{document_view};
ghost use Rattle.enum_defs.specs.Kinds.{kinds_beyond};
ghost use Rattle.enum_kinds.specs.Kept.{AreKept, kept_of};

use enum_defs::KindSet;
use schema_types::Document;
use std::alloc::Global;
use std::collections::BTreeMap;

/// A document, and what references to its schemas leave open, of those that were asked.
#[derive(Drop)]
pub(crate) struct Asked<'d> {
    pub(crate) document: &'d Document,
    pub(crate) kept: Option<BTreeMap<String, KindSet>>,
    ghost right: { AreKept (document_view document.now) kept },
}

fn or_empty(alloc: Global, kept: Option<BTreeMap<String, KindSet>>) -> BTreeMap<String, KindSet>
    ensures { (q : List ℕ) → get_by_text result q ≡ kept_of kept q }
{
    match kept {
        Some(kept) => kept,
        None => BTreeMap::new(alloc),
    }
}

impl<'d> Asked<'d> {
    pub(crate) fn new(document: &'d Document) -> Asked<'d>
        ensures { result.document.now ≡ document.now }
    {
        Asked {
            document,
            kept: None,
        }
    }

    // What a reference leaves open, where it was kept.
    pub(crate) fn get(&self, reference: &String) -> Option<KindSet>
        ensures { (k : KindSet) → result ≡ Some k → kinds_beyond (document_view self.now.document.now) (string_bytes reference.now) ≡ k }
    {
        match &self.kept {
            Some(kept) => kept.get(reference.as_str()).copied(),
            None => None,
        }
    }

    // Where memory runs out all that was kept is given back, and asked again.
    pub(crate) fn keep(&mut self, reference: &String, kinds: KindSet)
        requires { kinds_beyond (document_view self.now.document.now) (string_bytes reference.now) ≡ kinds }
        ensures { self.new.document.now ≡ self.old.document.now }
    {
        let alloc = *reference.allocator();
        let Ok(name) = String::from_str(alloc, reference.as_str()) else {
            return;
        };
        let mut kept = or_empty(alloc, self.kept.take());
        match kept.insert(name, kinds) {
            Ok(_) => self.kept = Some(kept),
            Err(_) => {}
        }
    }
}
