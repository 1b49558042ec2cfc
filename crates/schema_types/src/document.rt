//! A schema document: the root, and the definitions by name.
ghost use Rattle.std.specs.Prelude.{◌≡◌, [], ◌∷◌, IfOk, MatchOption, map, option_map};
ghost use Rattle.schema_defs.specs.Location.{unescaped};
ghost use Rattle.schema_defs.specs.Admits.{defined, definition_location, definition_word, target, target_location};
ghost use Rattle.schema_defs.specs.Children.{schema_at};
ghost use Rattle.schema_defs.specs.Laws.{NamesRise};
ghost use Rattle.schema_types.specs.View.{schema_view};
ghost use Rattle.schema_types.specs.DocumentView.{document_view, definitions_view, placed_view, placed_of};

use crate::place::{Node, after, schema_of};
use crate::reference::{decodes_to, is_escaped, written_name};
use crate::schema::Schema;
use locations::Location;
use schema_defs::Setting;
use std::alloc::{AllocError, Global};
use std::collections::BTreeMap;
use std::collections::btree_map::Keys;
use std::marker::Model;

/// A definition, and the keyword that it stands under: `$defs`, or else `definitions`.
pub struct Definition {
    pub under_defs: bool,
    pub schema: Schema,
}

impl Drop for Definition {
    fn drop(self) {
        let Definition {
            under_defs: _,
            schema: _schema,
        } = self;
    }
}

/// A schema document: its setting, the root, and the definitions in the order of their names, whichever of the two
/// keywords they stand under.
#[derive(Drop)]
pub struct Document {
    setting: Setting,
    root: Schema,
    definitions: BTreeMap<String, Definition>,
}

impl Document {
    /// The document of these parts. It takes no memory.
    pub fn new(
        setting: Setting,
        root: Schema,
        definitions: BTreeMap<String, Definition>,
    ) -> Document
        ensures { document_view result ≡ record { setting = setting; root = schema_view root; definitions = definitions_view definitions.entries } }
    {
        Document {
            setting,
            root,
            definitions,
        }
    }

    /// Whether null may stand for an absent property. It takes no memory.
    pub fn setting(&self) -> Setting
        ensures { result ≡ (document_view self.now).setting }
    {
        self.setting
    }

    /// The root. It takes no memory.
    pub fn root(&self) -> &Schema
        ensures { schema_view result.now ≡ (document_view self.now).root }
    {
        &self.root
    }

    /// The definition of a name, under whichever keyword it stands. It takes no memory.
    pub fn definition(&self, name: &str) -> Option<&Schema>
        ensures { option_map (λ s. schema_view s.now) result ≡ option_map (λ e. e.body) (defined name.now (document_view self.now).definitions) }
    {
        match self.placed(name) {
            Some(definition) => Some(&definition.schema),
            None => None,
        }
    }

    // The definition of a name with the keyword that it stands under.
    pub(crate) fn placed(&self, name: &str) -> Option<&Definition>
        ensures { option_map (λ d. placed_view d.now) result ≡ option_map placed_of (defined name.now (document_view self.now).definitions) }
    {
        self.definitions.get(name)
    }

    /// The root for `#`, and the definition NAME for `#/definitions/NAME` and `#/$defs/NAME`, whichever of the two
    /// keywords it stands under. In NAME `~1` is `/`, `~0` is `~`, and nothing else is decoded. It takes no memory.
    pub fn target(&self, reference: &str) -> Option<&Schema>
        ensures { option_map (λ s. schema_view s.now) result ≡ target (document_view self.now) reference.now }
    {
        if reference == "#" {
            return Some(&self.root);
        }
        match written_name(reference) {
            Some(name) => self.decoded_definition(name),
            None => None,
        }
    }

    /// Where the target of a reference stands: the root for `#`, and else the definition's place under the keyword that it stands under, whichever of the two
    /// the reference writes; nothing where the reference has no target.
    pub fn target_location(
        &self,
        alloc: Global,
        reference: &str,
    ) -> Result<Option<Location>, AllocError>
        ensures { IfOk result (λ x. x ≡ target_location (document_view self.now) reference.now) }
    {
        if reference == "#" {
            return Ok(Some(Location::root(alloc)));
        }
        match written_name(reference) {
            Some(name) => self.decoded_location(alloc, name),
            None => Ok(None),
        }
    }

    /// The names of the definitions, in their order. It takes no memory.
    #[tactic(auto, using(crate::proofs::References::names_of_view, crate::proofs::References::names_rise))]
    pub fn names(&self) -> Names<'_>
        ensures names { result ≡ map (λ e. e.name) (document_view self.now).definitions }
        ensures ordered { NamesRise result }
    {
        Names {
            keys: self.definitions.keys(),
        }
    }

    /// The schema that stands at a location, or nothing where no schema stands there. It takes no memory.
    pub fn schema_at(&self, at: &Location) -> Option<&Schema>
        ensures { option_map (λ s. schema_view s.now) result ≡ schema_at (document_view self.now) at.now }
    {
        let mut node = Node::Document(self);
        for step in &at.steps {
            node = after(node, step)?;
        }
        schema_of(node)
    }

    // The definition of the name that the text decodes to.
    #[tactic(auto, using(crate::proofs::References::plain_decodes))]
    fn decoded_definition(&self, escaped: &str) -> Option<&Schema>
        ensures { option_map (λ s. schema_view s.now) result ≡ option_map (λ e. e.body) (defined (unescaped escaped.now) (document_view self.now).definitions) }
    {
        if !is_escaped(escaped) {
            return self.definition(escaped);
        }
        for (name, definition) in self.definitions.iter() {
            if decodes_to(escaped, name) {
                return Some(&definition.schema);
            }
        }
        None
    }

    // Where the definition of the name that the text decodes to stands.
    #[tactic(auto, using(crate::proofs::References::plain_decodes))]
    fn decoded_location(&self, alloc: Global, escaped: &str) -> Result<Option<Location>, AllocError>
        ensures { IfOk result (λ x. x ≡ option_map definition_location (defined (unescaped escaped.now) (document_view self.now).definitions)) }
    {
        if !is_escaped(escaped) {
            return self.named_location(alloc, escaped);
        }
        for (name, _) in self.definitions.iter() {
            if decodes_to(escaped, name) {
                return self.named_location(alloc, name);
            }
        }
        Ok(None)
    }

    // Where the definition of a name stands.
    fn named_location(&self, alloc: Global, name: &str) -> Result<Option<Location>, AllocError>
        ensures { IfOk result (λ x. x ≡ option_map definition_location (defined name.now (document_view self.now).definitions)) }
    {
        match self.placed(name) {
            Some(definition) => Ok(Some(definition_place(alloc, definition.under_defs, name)?)),
            None => Ok(None),
        }
    }
}

fn definition_place(alloc: Global, under_defs: bool, name: &str) -> Result<Location, AllocError>
    ensures { IfOk result (λ l. l ≡ definition_word under_defs ∷ name.now ∷ []) }
{
    let word = if under_defs { "$defs" } else { "definitions" };
    Location::root(alloc).child(alloc, word)?.child(alloc, name)
}

/// The names of a document's definitions that are left, in their order. It is seen as the list of them.
#[derive(Drop)]
pub struct Names<'a> {
    keys: Keys<'a, String, Definition>,
}

impl<'a> Model for Names<'a> {
    ghost use Rattle.std.specs.Prelude.{ℕ, List, map, string_bytes};

    ghost Value = { List (List ℕ) };

    ghost view = { λ n. map string_bytes n.keys };
}

impl<'a> Names<'a> {
    /// The first name that is left, or nothing once none is. It takes no memory.
    pub fn next(&mut self) -> Option<&'a str>
        ensures { MatchOption result ((self.old ≡ []) × (self.new ≡ [])) (λ name. self.old ≡ name.now ∷ self.new) }
    {
        match self.keys.next() {
            Some(name) => Some(name.as_str()),
            None => None,
        }
    }
}
