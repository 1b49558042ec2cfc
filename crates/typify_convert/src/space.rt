//! The space and its calls.
ghost use Rattle.std.specs.Prelude.{◌≡◌, ◌⊎◌, ◌≤◌, [], true, false, Some, None, IfErr, IfOk, OnOk, is_some, map, option_map};
ghost use Rattle.std.specs.List.{IsDistinct};
ghost use Rattle.schema_defs.specs.Children.{schema_at};
ghost use Rattle.schema_tree.specs.Document.{view as document_seen};
ghost use Rattle.schema_tree.specs.Fault.{FaultD, fault_view, memory};
ghost use Rattle.convert_walks.specs.Told.{ordered};
ghost use Rattle.convert_document.specs.Told.{AreFine, Refuses};
ghost use Rattle.convert_document.specs.Levels.{most_levels};
ghost use Rattle.entry_defs.specs.Space.{entry_at};
ghost use Rattle.entry_types.specs.View.{id_view, entry_view};
ghost use Rattle.entry_space.specs.Keys.{same_key};
ghost use Rattle.entry_space.specs.Seen.{entries_left};
ghost use Rattle.space_defs.specs.Emission.{emission_at};
ghost use Rattle.convert_document.specs.Emitted.{emitted_view};
ghost use Rattle.convert_document.specs.Note.{note_of};
ghost use Rattle.typify_convert.specs.Space.{History, Holds, IsOfSame, depth_in, document_in, entries_in, is_begun, nothing, refusal_in};
ghost use Rattle.history_laws.specs.Added.{target_nodes};
ghost use Rattle.typify_convert.specs.Added.{Adds, added, added_nodes, met_nodes, with_targets};
ghost use Rattle.plain_defs.specs.Plain.{IsPlain};
ghost use Rattle.typify_convert.specs.Refused.{IsRefusal, IsUnread};
ghost use Rattle.typify_convert.specs.Plain.{AddsNoNote, IsPlainAt, IsQuiet, IsRefusedPlainly};

use crate::collect::add_targets;
use crate::finish::finished;
use crate::keeping::Held;
use crate::plan::empty_plan;
use crate::refusing::{check, keep};
use crate::schema::add_schema;
use convert_document::{Emitted, levels};
use entry_space::{TypeEntries, TypeEntry, TypeId};
use schema_tree::{Document, Fault, Location, Texts};
use std::alloc::Global;

/// A space of types for the schemas of a document. It gives its entries ids in the order in which they come: first those of the items
/// that references lead to, and then those of each schema that is added. Items get their names in that order too. A space that
/// refused tells the same fault, or want of memory, at each later call that may fail.
#[derive(Drop)]
pub struct TypeSpace<'d> {
    pub(crate) alloc: Global,
    pub(crate) document: &'d Document,
    pub(crate) depth: u32,
    pub(crate) begun: bool,
    pub(crate) held: Held,
    pub(crate) refusal: Option<Fault>,
}

impl<'d> TypeSpace<'d> {
    /// The empty space. `depth` bounds the steps of a walk to a schema, and the places of a list that is shorter than its sizes. It takes
    /// no memory.
    #[tactic(auto, using(crate::proofs::Holding::nothing_held))]
    pub fn new(alloc: Global, document: &'d Document, depth: u32) -> TypeSpace<'d>
        ensures holds { Holds result nothing }
        ensures document { document_in result ≡ document_seen document.now }
        ensures depth { depth_in result ≡ depth }
        ensures begun { is_begun result ≡ false }
        ensures refusal { refusal_in result ≡ None }
    {
        TypeSpace {
            alloc,
            document,
            depth,
            begun: false,
            held: Held {
                plan: empty_plan(alloc),
                notes: Vec::new(alloc),
                unread: None,
            },
            refusal: None,
        }
    }

    /// Converts what references lead to: each definition in the order of their names, and then the root, where some `$ref` is `#`.
    /// Refused is the first fault in that order, each schema before its parts. A document of plain rows alone, of at most as many schemas as the depth (`IsPlain`),
    /// adds no note, and is refused by want of memory or a failure of the judge of texts alone.
    pub fn add_ref_types<T: Texts>(&mut self, texts: &mut T) -> Result<(), Fault>
        requires begins { is_begun self.old ≡ false }
        ensures added { OnOk result ((h : History) → Holds self.old h → Holds self.new (with_targets (T.relations texts.old) (document_in self.old) (depth_in self.old) most_levels h)) }
        ensures fine { OnOk result (AreFine (T.relations texts.old) (document_in self.old) (depth_in self.old) most_levels (target_nodes (T.relations texts.old) (document_in self.old) (depth_in self.old) most_levels)) }
        ensures refused { IfErr result (λ f. IsRefusal (refusal_in self.old) (Refuses (T.relations texts.old) (document_in self.old) (depth_in self.old) most_levels (T.faults texts.old) (T.faults texts.new) (target_nodes (T.relations texts.old) (document_in self.old) (depth_in self.old) most_levels)) (fault_view f)) }
        ensures plain_unnoted { OnOk result (IsPlain (document_in self.old) (depth_in self.old) → (h : History) → Holds self.old h → AddsNoNote h self.new) }
        ensures plain_refused { IfErr result (λ f. IsPlain (document_in self.old) (depth_in self.old) → IsRefusedPlainly (refusal_in self.old) (T.faults texts.old) (T.faults texts.new) (target_nodes (T.relations texts.old) (document_in self.old) (depth_in self.old) most_levels) (fault_view f)) }
        ensures kept { IfErr result (λ f. refusal_in self.new ≡ Some (fault_view f)) }
        ensures before { OnOk result (refusal_in self.old ≡ None) }
        ensures after { OnOk result (refusal_in self.new ≡ None) }
        ensures begun { is_begun self.new ≡ true }
        ensures same { IsOfSame self.old self.new }
        ensures keeps { T.relations texts.new ≡ T.relations texts.old }
        ensures counts { T.faults texts.old ≤ T.faults texts.new }
    {
        let most = levels();
        self.ref_types_within(most, texts)
    }

    // The same, where so many schemas may stand in one another.
    fn ref_types_within<T: Texts>(&mut self, levels: u32, texts: &mut T) -> Result<(), Fault>
        requires begins { is_begun self.old ≡ false }
        ensures added { OnOk result ((h : History) → Holds self.old h → Holds self.new (with_targets (T.relations texts.old) (document_in self.old) (depth_in self.old) levels h)) }
        ensures fine { OnOk result (AreFine (T.relations texts.old) (document_in self.old) (depth_in self.old) levels (target_nodes (T.relations texts.old) (document_in self.old) (depth_in self.old) levels)) }
        ensures refused { IfErr result (λ f. IsRefusal (refusal_in self.old) (Refuses (T.relations texts.old) (document_in self.old) (depth_in self.old) levels (T.faults texts.old) (T.faults texts.new) (target_nodes (T.relations texts.old) (document_in self.old) (depth_in self.old) levels)) (fault_view f)) }
        ensures kept { IfErr result (λ f. refusal_in self.new ≡ Some (fault_view f)) }
        ensures before { OnOk result (refusal_in self.old ≡ None) }
        ensures after { OnOk result (refusal_in self.new ≡ None) }
        ensures begun { is_begun self.new ≡ true }
        ensures same { IsOfSame self.old self.new }
        ensures keeps { T.relations texts.new ≡ T.relations texts.old }
        ensures counts { T.faults texts.old ≤ T.faults texts.new }
    {
        self.begun = true;
        check(self.alloc, &mut self.refusal)?;
        match add_targets(
            self.alloc,
            self.document,
            self.depth,
            levels,
            texts,
            &mut self.held,
        ) {
            Ok(_) => Ok(()),
            Err(fault) => Err(keep(self.alloc, &mut self.refusal, fault)),
        }
    }

    /// The id of the schema at a location. A definition, and the root where some `$ref` is `#`, has it already, and nothing is
    /// converted. Elsewhere the schema is converted anew; where that gives a reference it has an entry of its own. Where it lists values,
    /// the items that references lead to are converted once more, to ask those. Refused is the first fault in that order. A row of a plain document
    /// (`IsPlainAt`) adds no note, and is refused by want of memory or a failure of the judge of texts alone.
    pub fn add_type<T: Texts>(&mut self, at: &Location, texts: &mut T) -> Result<TypeId, Fault>
        requires begun { is_begun self.old ≡ true }
        requires there { is_some (schema_at (document_in self.old) at.now) ≡ true }
        ensures added { IfOk result (λ i. (h : History) → Holds self.old h → Adds self.new (id_view i) (added (T.relations texts.old) (document_in self.old) (depth_in self.old) most_levels at.now None h)) }
        ensures fine { OnOk result (AreFine (T.relations texts.old) (document_in self.old) (depth_in self.old) most_levels (added_nodes (T.relations texts.old) (document_in self.old) (depth_in self.old) most_levels at.now None)) }
        ensures refused { IfErr result (λ f. IsRefusal (refusal_in self.old) (Refuses (T.relations texts.old) (document_in self.old) (depth_in self.old) most_levels (T.faults texts.old) (T.faults texts.new) (met_nodes (T.relations texts.old) (document_in self.old) (depth_in self.old) most_levels at.now None)) (fault_view f)) }
        ensures plain_unnoted { OnOk result (IsPlainAt (document_in self.old) (depth_in self.old) at.now → (h : History) → Holds self.old h → AddsNoNote h self.new) }
        ensures plain_refused { IfErr result (λ f. IsPlainAt (document_in self.old) (depth_in self.old) at.now → IsRefusedPlainly (refusal_in self.old) (T.faults texts.old) (T.faults texts.new) (added_nodes (T.relations texts.old) (document_in self.old) (depth_in self.old) most_levels at.now None) (fault_view f)) }
        ensures kept { IfErr result (λ f. refusal_in self.new ≡ Some (fault_view f)) }
        ensures before { OnOk result (refusal_in self.old ≡ None) }
        ensures after { OnOk result (refusal_in self.new ≡ None) }
        ensures begun { is_begun self.new ≡ true }
        ensures same { IsOfSame self.old self.new }
        ensures keeps { T.relations texts.new ≡ T.relations texts.old }
        ensures counts { T.faults texts.old ≤ T.faults texts.new }
    {
        let id = self.add_type_with_name(at, None, texts)?;
        Ok(id)
    }

    /// As `add_type`, where a name that is given is the wanted name of what is converted.
    pub fn add_type_with_name<T: Texts>(
        &mut self,
        at: &Location,
        name: Option<&str>,
        texts: &mut T,
    ) -> Result<TypeId, Fault>
        requires begun { is_begun self.old ≡ true }
        requires there { is_some (schema_at (document_in self.old) at.now) ≡ true }
        ensures added { IfOk result (λ i. (h : History) → Holds self.old h → Adds self.new (id_view i) (added (T.relations texts.old) (document_in self.old) (depth_in self.old) most_levels at.now (option_map (λ n. n.now) name.entry) h)) }
        ensures fine { OnOk result (AreFine (T.relations texts.old) (document_in self.old) (depth_in self.old) most_levels (added_nodes (T.relations texts.old) (document_in self.old) (depth_in self.old) most_levels at.now (option_map (λ n. n.now) name.entry))) }
        ensures refused { IfErr result (λ f. IsRefusal (refusal_in self.old) (Refuses (T.relations texts.old) (document_in self.old) (depth_in self.old) most_levels (T.faults texts.old) (T.faults texts.new) (met_nodes (T.relations texts.old) (document_in self.old) (depth_in self.old) most_levels at.now (option_map (λ n. n.now) name.entry))) (fault_view f)) }
        ensures plain_unnoted { OnOk result (IsPlainAt (document_in self.old) (depth_in self.old) at.now → (h : History) → Holds self.old h → AddsNoNote h self.new) }
        ensures plain_refused { IfErr result (λ f. IsPlainAt (document_in self.old) (depth_in self.old) at.now → IsRefusedPlainly (refusal_in self.old) (T.faults texts.old) (T.faults texts.new) (added_nodes (T.relations texts.old) (document_in self.old) (depth_in self.old) most_levels at.now (option_map (λ n. n.now) name.entry)) (fault_view f)) }
        ensures kept { IfErr result (λ f. refusal_in self.new ≡ Some (fault_view f)) }
        ensures before { OnOk result (refusal_in self.old ≡ None) }
        ensures after { OnOk result (refusal_in self.new ≡ None) }
        ensures begun { is_begun self.new ≡ true }
        ensures same { IsOfSame self.old self.new }
        ensures keeps { T.relations texts.new ≡ T.relations texts.old }
        ensures counts { T.faults texts.old ≤ T.faults texts.new }
    {
        let most = levels();
        self.type_within(at, name, most, texts)
    }

    // The same, where so many schemas may stand in one another.
    fn type_within<T: Texts>(
        &mut self,
        at: &Location,
        name: Option<&str>,
        levels: u32,
        texts: &mut T,
    ) -> Result<TypeId, Fault>
        requires begun { is_begun self.old ≡ true }
        requires there { is_some (schema_at (document_in self.old) at.now) ≡ true }
        ensures added { IfOk result (λ i. (h : History) → Holds self.old h → Adds self.new (id_view i) (added (T.relations texts.old) (document_in self.old) (depth_in self.old) levels at.now (option_map (λ n. n.now) name.entry) h)) }
        ensures fine { OnOk result (AreFine (T.relations texts.old) (document_in self.old) (depth_in self.old) levels (added_nodes (T.relations texts.old) (document_in self.old) (depth_in self.old) levels at.now (option_map (λ n. n.now) name.entry))) }
        ensures refused { IfErr result (λ f. IsRefusal (refusal_in self.old) (Refuses (T.relations texts.old) (document_in self.old) (depth_in self.old) levels (T.faults texts.old) (T.faults texts.new) (met_nodes (T.relations texts.old) (document_in self.old) (depth_in self.old) levels at.now (option_map (λ n. n.now) name.entry))) (fault_view f)) }
        ensures kept { IfErr result (λ f. refusal_in self.new ≡ Some (fault_view f)) }
        ensures before { OnOk result (refusal_in self.old ≡ None) }
        ensures after { OnOk result (refusal_in self.new ≡ None) }
        ensures begun { is_begun self.new ≡ true }
        ensures same { IsOfSame self.old self.new }
        ensures keeps { T.relations texts.new ≡ T.relations texts.old }
        ensures counts { T.faults texts.old ≤ T.faults texts.new }
    {
        check(self.alloc, &mut self.refusal)?;
        match add_schema(
            self.alloc,
            self.document,
            self.depth,
            levels,
            texts,
            &mut self.held,
            at,
            name,
        ) {
            Ok(id) => Ok(id),
            Err(fault) => Err(keep(self.alloc, &mut self.refusal, fault)),
        }
    }

    /// The entry of an id, or nothing exactly where no entry has it. It takes no memory.
    pub fn get_type(&self, id: TypeId) -> Option<&TypeEntry>
        ensures { option_map (λ e. entry_view e.now) result ≡ entry_at (entries_in self.now) (id_view id) }
    {
        self.held.plan.space.get(id)
    }

    /// The entries in the order of their ids; no two of them are equal, and no two items have one name. It takes no memory.
    pub fn iter_types(&self) -> TypeEntries<'_>
        ensures entries { entries_left result ≡ entries_in self.now }
        ensures apart { IsDistinct same_key (entries_in self.now) }
    {
        self.held.plan.space.iter()
    }

    /// What is emitted for the space, where the type of one entry is the root's, with the notes on all that was converted. Refused is
    /// the first stated value, in the order of conversion, that isn't read.
    pub fn finish<T: Texts>(self, root: TypeId, texts: &mut T) -> Result<Emitted, Fault>
        requires there { is_some (entry_at (entries_in self) (id_view root)) ≡ true }
        ensures emission { IfOk result (λ e. emitted_view e ≡ emission_at (entries_in self.entry) (id_view root)) }
        ensures notes { IfOk result (λ e. (h : History) → Holds self.entry h → e.notes.items ≡ map note_of (ordered h.notes)) }
        ensures read { OnOk result ((h : History) → Holds self.entry h → h.unread ≡ []) }
        ensures before { OnOk result (refusal_in self.entry ≡ None) }
        ensures refused { IfErr result (λ f. IsRefusal (refusal_in self.entry) (λ (g : FaultD). (h : History) → Holds self.entry h → IsUnread h.unread g) (fault_view f)) }
        ensures quiet_unnoted { IfOk result (λ e. (h : History) → Holds self.entry h → IsQuiet h → e.notes.items ≡ []) }
        ensures quiet_refused { IfErr result (λ f. (h : History) → Holds self.entry h → IsQuiet h → (fault_view f ≡ memory) ⊎ (refusal_in self.entry ≡ Some (fault_view f))) }
        ensures keeps { T.relations texts.new ≡ T.relations texts.old }
        ensures counts { T.faults texts.old ≤ T.faults texts.new }
    {
        let _ = texts;
        let alloc = self.alloc;
        let mut refusal = self.refusal;
        check(alloc, &mut refusal)?;
        let emitted = finished(alloc, self.held, root)?;
        Ok(emitted)
    }
}
