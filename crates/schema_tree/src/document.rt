//! A JSON value read as a schema document, with every reference resolved and guarded.
ghost use Rattle.std.specs.Prelude.{◌≡◌, IfOk, IfErr, OnOk, Some, map, option_map, if◌then◌else◌};
ghost use Rattle.serde_json.specs.View.{view};
ghost use Rattle.json_value.specs.View.{value_of};
ghost use Rattle.schema_defs.specs.Admits.{defined, target as target_of};
ghost use Rattle.schema_defs.specs.Children.{schema_at as schema_at_of};
ghost use Rattle.schema_defs.specs.Laws.{NamesRise};
ghost use Rattle.schema_defs.specs.Read.{document_of};
ghost use Rattle.schema_defs.specs.Walks.{IsGuarded};
ghost use Rattle.schema_faults.specs.Faults.{is_internal};
ghost use Rattle.schema_types.specs.DocumentView.{document_view};
ghost use Rattle.schema_types.specs.View.{schema_view};
ghost use Rattle.schema_tree.specs.Document.{IsReadAs, IsReadable, IsRefusal, IsResolved, IsWellFormed, view as document_seen};
ghost use Rattle.schema_tree.specs.Fault.{external_ref, fault_view, missing_ref};

use crate::fault::Fault;
use crate::guarded::Document;
use schema_faults::{
    Place, first_bad_reference, first_float, first_malformed, is_internal_reference,
};
use schema_loops::loop_of;
use schema_reading::document;
use schema_types::{Location, Names, Schema, Setting};
use serde_json::Value;
use std::alloc::{AllocError, Global};

impl Document {
    /// The document that a JSON value is, under the setting `Strict`. Refused, in this order, are a keyword that holds what
    /// it may not (`Malformed`), a reference that names neither the root nor a definition (`MissingRef`; `ExternalRef` where
    /// it doesn't begin with `#`), a number that isn't whole, or the type `number` outside a list of all types (`Float`),
    /// and a walk at one value that returns to its first place (`Unguarded`), each at its first place: a schema before those
    /// inside it, these by the bytes of their keywords, in a list by place, and in an object by name. `Memory` where memory
    /// runs out.
    pub fn read(alloc: Global, value: &Value) -> Result<Document, Fault>
        ensures document { IfOk result (λ d. IsReadAs Setting.Strict (value_of (view value.now)) (document_seen d)) }
        ensures refusal { IfErr result (λ f. IsRefusal (value_of (view value.now)) (fault_view f)) }
    {
        let document = Document::read_with(alloc, value, Setting::Strict)?;
        Ok(document)
    }

    /// The document that a JSON value is under a setting, with the refusals of `read`, which don't depend on it. Under
    /// `NullAbsent` null may stand for the absence of a property that isn't required; `read` is this under `Strict`.
    pub fn read_with(alloc: Global, value: &Value, setting: Setting) -> Result<Document, Fault>
        ensures document { IfOk result (λ d. IsReadAs setting (value_of (view value.now)) (document_seen d)) }
        ensures refusal { IfErr result (λ f. IsRefusal (value_of (view value.now)) (fault_view f)) }
    {
        check_form(alloc, value)?;
        check_references(alloc, value)?;
        check_numbers(alloc, value)?;
        read_guarded(alloc, value, setting)
    }

    /// Whether null may stand for an absent property. It takes no memory.
    pub fn setting(&self) -> Setting
        ensures { result ≡ (document_seen self.now).setting }
    {
        self.parts.setting()
    }

    /// The root. It takes no memory.
    pub fn root(&self) -> &Schema
        ensures { schema_view result.now ≡ (document_seen self.now).root }
    {
        self.parts.root()
    }

    /// The definition of a name, under whichever keyword it stands. It takes no memory.
    pub fn definition(&self, name: &str) -> Option<&Schema>
        ensures { option_map (λ s. schema_view s.now) result ≡ option_map (λ e. e.body) (defined name.now (document_seen self.now).definitions) }
    {
        self.parts.definition(name)
    }

    /// The names of the definitions, in their order, compared byte by byte. It takes no memory.
    pub fn names(&self) -> Names<'_>
        ensures names { result ≡ map (λ e. e.name) (document_seen self.now).definitions }
        ensures ordered { NamesRise result }
    {
        self.parts.names()
    }

    /// The schema that stands at a location, or nothing where no schema stands there. It takes no memory.
    pub fn schema_at(&self, at: &Location) -> Option<&Schema>
        ensures { option_map (λ s. schema_view s.now) result ≡ schema_at_of (document_seen self.now) at.now }
    {
        self.parts.schema_at(at)
    }

    /// The root for `#`, and the definition NAME for `#/definitions/NAME` and `#/$defs/NAME`, whichever of the two
    /// keywords it stands under. In NAME `~1` is `/`, `~0` is `~`, and nothing else is decoded. It takes no memory.
    pub fn target(&self, reference: &str) -> Option<&Schema>
        ensures { option_map (λ s. schema_view s.now) result ≡ target_of (document_seen self.now) reference.now }
    {
        self.parts.target(reference)
    }

    /// The root and the definitions, as they stand in the value; no references at one value lead back to where they began.
    /// It takes no memory.
    pub fn parts(&self) -> &schema_types::Document
        ensures document { document_view result.now ≡ document_seen self.now }
        ensures guarded { IsGuarded (document_view result.now) }
    {
        &self.parts
    }
}

fn check_form(alloc: Global, value: &Value) -> Result<(), Fault>
    ensures fine { OnOk result (IsWellFormed (value_of (view value.now))) }
    ensures refusal { IfErr result (λ f. IsRefusal (value_of (view value.now)) (fault_view f)) }
{
    match first_malformed(alloc, value) {
        Ok(None) => Ok(()),
        Ok(Some(place)) => Err(Fault::Malformed {
            path: place.path,
            keyword: place.text,
        }),
        Err(_) => Err(Fault::Memory),
    }
}

fn check_references(alloc: Global, value: &Value) -> Result<(), Fault>
    requires { IsWellFormed (value_of (view value.now)) }
    ensures fine { OnOk result (IsResolved (value_of (view value.now))) }
    ensures refusal { IfErr result (λ f. IsRefusal (value_of (view value.now)) (fault_view f)) }
{
    match first_bad_reference(alloc, value) {
        Ok(None) => Ok(()),
        Ok(Some(place)) => Err(bad_reference(place)),
        Err(_) => Err(Fault::Memory),
    }
}

// A reference within the document is missing, any other leaves it.
fn bad_reference(place: Place) -> Fault
    ensures { fault_view result ≡ (if is_internal place.1 then missing_ref place.0 place.1 else external_ref place.0 place.1) }
{
    if is_internal_reference(&place.text) {
        Fault::MissingRef {
            path: place.path,
            name: place.text,
        }
    } else {
        Fault::ExternalRef {
            path: place.path,
            name: place.text,
        }
    }
}

fn check_numbers(alloc: Global, value: &Value) -> Result<(), Fault>
    requires { IsResolved (value_of (view value.now)) }
    ensures fine { OnOk result (IsReadable (value_of (view value.now))) }
    ensures refusal { IfErr result (λ f. IsRefusal (value_of (view value.now)) (fault_view f)) }
{
    match first_float(alloc, value) {
        Ok(None) => Ok(()),
        Ok(Some(place)) => Err(Fault::Float { path: place.path }),
        Err(_) => Err(Fault::Memory),
    }
}

// The document, unless a walk at one value returns to its first place.
#[tactic(auto, using(crate::proofs::Settings::loop_is_told))]
fn read_guarded(alloc: Global, value: &Value, setting: Setting) -> Result<Document, Fault>
    requires { IsReadable (value_of (view value.now)) }
    ensures document { IfOk result (λ d. IsReadAs setting (value_of (view value.now)) (document_seen d)) }
    ensures refusal { IfErr result (λ f. IsRefusal (value_of (view value.now)) (fault_view f)) }
{
    let Ok(parts) = read_parts(alloc, value, setting) else {
        return Err(Fault::Memory);
    };
    match loop_of(alloc, &parts) {
        Ok(None) => Ok(Document { parts }),
        Ok(Some(walk)) => Err(Fault::Unguarded { walk }),
        Err(_) => Err(Fault::Memory),
    }
}

// A value without a fault has a reading.
fn read_parts(
    alloc: Global,
    value: &Value,
    setting: Setting,
) -> Result<schema_types::Document, AllocError>
    requires { IsReadable (value_of (view value.now)) }
    ensures { IfOk result (λ d. document_of setting (value_of (view value.now)) ≡ Some (document_view d)) }
{
    match document(alloc, value, setting)? {
        Some(parts) => Ok(parts),
        None => unreachable!(),
    }
}
