//! The table of a document.
ghost use Rattle.std.specs.Prelude.{◌≡◌, ◌≤◌, ◌++◌, suc, [], ◌∷◌, true, false, None, Some, IfErr, IfOk, OnOk, map, option_map};
ghost use Rattle.schema_defs.specs.Admits.{defined, definition_word};
ghost use Rattle.schema_types.specs.View.{schema_view};
ghost use Rattle.schema_tree.specs.Document.{view as document_seen};
ghost use Rattle.schema_tree.specs.Fault.{fault_view, memory};
ghost use Rattle.tree_types.specs.View.{item_in, table_view, target_entry, tree_view};
ghost use Rattle.entry_defs.specs.Entry.{definition, the_root};
ghost use Rattle.convert_defs.specs.Convert.{Handed, as_item as as_item_of, root_name as root_name_of};
ghost use Rattle.convert_walks.specs.Told.{faults_of, notes_in};
ghost use Rattle.convert_walks.specs.Tree.{definition_target, definition_trees, document_tree, entry_at, root_entry, root_spot, table_of as table_of_document, tree_at as tree_nodes};
ghost use Rattle.merge_walks.specs.Carried.{root_walk};
ghost use Rattle.merged_rows.specs.Starts.{spot_of};
ghost use Rattle.document_merges.specs.Merges.{merges_in, merges_view};
ghost use Rattle.convert_defs.specs.RootReference.{refers_to_root as refers_to_root_of};
ghost use Rattle.note_order.specs.Notes.{notes_view};
ghost use Rattle.convert_trees.specs.Keeping.{kept_view, unread_view};
ghost use Rattle.document_merges.specs.Definitions.{is_under_defs};
ghost use Rattle.convert_trees.specs.Tables.{root_targets_of, root_use_of};
ghost use Rattle.convert_trees.specs.Told.{Begins, IsTold, Refuses};
ghost use Rattle.convert_trees.specs.Unread.{first_kept, unread_in, unread_in_document};

use crate::convert::convert;
use crate::keeping::{Kept, Merges, Unread, Values};
use crate::names::root_name;
use crate::scope::Scope;
use document_merges::{Merge, definition_start, root_start};
use merged_rows::Start;
use note_order::PlacedNote;
use root_references::refers_to_root;
use row_findings::Source;
use schema_tree::{Document, Fault, Schema, Texts};
use std::alloc::{AllocError, Global};
use tree_parts::{as_item, atom};
use tree_types::{Atom, Target, Tree, TreeTable};

/// A document's table, and what conversion doesn't keep, in the order of conversion.
#[derive(Drop)]
pub struct Converted<'d> {
    pub table: TreeTable<'d>,
    pub notes: Vec<PlacedNote>,
    pub unread: Option<Unread<'d>>,
}

/// The table of a document, where walks may have so many steps, and lists as many places. Refused is the first fault in the order of
/// conversion.
pub fn table_of<'d, T: Texts>(
    alloc: Global,
    document: &'d Document,
    merges: &'d Vec<Merge>,
    depth: u32,
    levels: u32,
    texts: &mut T,
) -> Result<Converted<'d>, Fault>
    requires { merges_view merges.now.items ≡ merges_in (document_tree (T.relations texts.old) (document_seen document.now) depth levels) }
    ensures table { IfOk result (λ c. table_view c.table ≡ table_of_document (T.relations texts.old) (document_seen document.now) depth levels) }
    ensures faultless { OnOk result (faults_of (T.relations texts.old) (document_seen document.now) depth levels ≡ []) }
    ensures notes { IfOk result (λ c. notes_view c.notes.items ≡ notes_in (T.relations texts.old) (document_seen document.now) depth levels (document_tree (T.relations texts.old) (document_seen document.now) depth levels)) }
    ensures unread { IfOk result (λ c. option_map unread_view c.unread ≡ first_kept None (unread_in_document (T.relations texts.old) (document_seen document.now) depth levels)) }
    ensures refused { IfErr result (λ f. Refuses (T.relations texts.old) (document_seen document.now) depth levels (T.faults texts.old) (T.faults texts.new) (document_tree (T.relations texts.old) (document_seen document.now) depth levels) (fault_view f)) }
    ensures keeps { T.relations texts.new ≡ T.relations texts.old }
    ensures counts { T.faults texts.old ≤ T.faults texts.new }
{
    let mut kept = nothing_kept(alloc, None, merges);
    let table = table_with(alloc, document, depth, levels, texts, &mut kept)?;
    let unread = first_unread(
        alloc,
        document,
        merges,
        depth,
        levels,
        texts,
        &table,
        &kept.values.unread,
    )?;
    Ok(Converted {
        table,
        notes: kept.notes,
        unread,
    })
}

/// Nothing is kept yet, and all merges are left. Stated values are asked by the table, and where none is known all count as unread. It takes
/// no memory.
pub fn nothing_kept<'d, 't, 'k>(
    alloc: Global,
    known: Option<&'t TreeTable<'k>>,
    merges: &'d Vec<Merge>,
) -> Kept<'d, 't, 'k>
    ensures { kept_view result ≡ record { notes = []; values = record { known = option_map (λ t. table_view t.now) known.entry; unread = None }; merges = merges_view merges.now.items } }
{
    Kept {
        notes: Vec::new(alloc),
        values: Values {
            known,
            unread: None,
        },
        merges: Merges {
            all: merges,
            next: 0,
        },
    }
}

// The same, with what isn't kept in the table added to what was kept.
fn table_with<'d, T: Texts>(
    alloc: Global,
    document: &'d Document,
    depth: u32,
    levels: u32,
    texts: &mut T,
    kept: &mut Kept<'d, '_, '_>,
) -> Result<TreeTable<'d>, Fault>
    requires { Begins (kept_view kept.old).merges (merges_in (document_tree (T.relations texts.old) (document_seen document.now) depth levels)) }
    ensures table { IfOk result (λ t. table_view t ≡ table_of_document (T.relations texts.old) (document_seen document.now) depth levels) }
    ensures told { OnOk result (IsTold (T.relations texts.old) (document_seen document.now) depth levels (document_tree (T.relations texts.old) (document_seen document.now) depth levels) (kept_view kept.old) (kept_view kept.new)) }
    ensures refused { IfErr result (λ f. Refuses (T.relations texts.old) (document_seen document.now) depth levels (T.faults texts.old) (T.faults texts.new) (document_tree (T.relations texts.old) (document_seen document.now) depth levels) (fault_view f)) }
    ensures keeps { T.relations texts.new ≡ T.relations texts.old }
    ensures counts { T.faults texts.old ≤ T.faults texts.new }
{
    let targets = definition_targets(alloc, document, depth, levels, texts, kept)?;
    let root = root_tree(alloc, document, depth, levels, texts, kept)?;
    let table = rooted(alloc, document, targets, root)?;
    Ok(table)
}

// The first stated value that isn't read by the table, which takes another conversion where some are stated.
fn first_unread<'d, T: Texts>(
    alloc: Global,
    document: &'d Document,
    merges: &'d Vec<Merge>,
    depth: u32,
    levels: u32,
    texts: &mut T,
    table: &TreeTable<'d>,
    stated: &Option<Unread<'d>>,
) -> Result<Option<Unread<'d>>, Fault>
    requires { merges_view merges.now.items ≡ merges_in (document_tree (T.relations texts.old) (document_seen document.now) depth levels) }
    ensures unread { IfOk result (λ o. option_map unread_view stated.now ≡ first_kept None (unread_in (T.relations texts.old) None (document_seen document.now) (document_tree (T.relations texts.old) (document_seen document.now) depth levels))
        → option_map unread_view o ≡ first_kept None (unread_in (T.relations texts.old) (Some (table_view table.now)) (document_seen document.now) (document_tree (T.relations texts.old) (document_seen document.now) depth levels))) }
    ensures refused { IfErr result (λ f. Refuses (T.relations texts.old) (document_seen document.now) depth levels (T.faults texts.old) (T.faults texts.new) (document_tree (T.relations texts.old) (document_seen document.now) depth levels) (fault_view f)) }
    ensures keeps { T.relations texts.new ≡ T.relations texts.old }
    ensures counts { T.faults texts.old ≤ T.faults texts.new }
{
    match stated {
        Some(_) => unread_by_table(alloc, document, merges, depth, levels, texts, table),
        None => Ok(None),
    }
}

fn unread_by_table<'d, T: Texts>(
    alloc: Global,
    document: &'d Document,
    merges: &'d Vec<Merge>,
    depth: u32,
    levels: u32,
    texts: &mut T,
    table: &TreeTable<'d>,
) -> Result<Option<Unread<'d>>, Fault>
    requires { merges_view merges.now.items ≡ merges_in (document_tree (T.relations texts.old) (document_seen document.now) depth levels) }
    ensures unread { IfOk result (λ o. option_map unread_view o ≡ first_kept None (unread_in (T.relations texts.old) (Some (table_view table.now)) (document_seen document.now) (document_tree (T.relations texts.old) (document_seen document.now) depth levels))) }
    ensures refused { IfErr result (λ f. Refuses (T.relations texts.old) (document_seen document.now) depth levels (T.faults texts.old) (T.faults texts.new) (document_tree (T.relations texts.old) (document_seen document.now) depth levels) (fault_view f)) }
    ensures keeps { T.relations texts.new ≡ T.relations texts.old }
    ensures counts { T.faults texts.old ≤ T.faults texts.new }
{
    let mut kept = nothing_kept(alloc, Some(table), merges);
    table_with(alloc, document, depth, levels, texts, &mut kept)?;
    Ok(kept.values.unread)
}

fn start_of_definition(alloc: Global, document: &Document, name: &str) -> Result<Start, Fault>
    ensures place { IfOk result (λ t. (h : Handed) → spot_of t [] h ≡ record (record { handed = Some name.now; path = definition_word (is_under_defs (document_seen document.now) name.now) ∷ name.now ∷ []; walk = (definition_word (is_under_defs (document_seen document.now) name.now) ∷ name.now ∷ []) ∷ []; in_made = false }) { handed = h }) }
    ensures memory { IfErr result (λ f. fault_view f ≡ memory) }
{
    match definition_start(alloc, document, name) {
        Ok(start) => Ok(start),
        Err(_) => Err(Fault::Memory),
    }
}

fn start_of_root(alloc: Global) -> Result<Start, Fault>
    ensures place { IfOk result (λ t. (h : Handed) → spot_of t [] h ≡ record { handed = h; path = []; walk = root_walk; in_made = false }) }
    ensures memory { IfErr result (λ f. fault_view f ≡ memory) }
{
    match root_start(alloc) {
        Ok(start) => Ok(start),
        Err(_) => Err(Fault::Memory),
    }
}

fn item_of<'d>(alloc: Global, name: &'d str, tree: Tree<'d>) -> Result<Tree<'d>, Fault>
    ensures item { IfOk result (λ t. item_in (tree_view t) ≡ as_item_of name.now (tree_view tree.entry)) }
    ensures memory { IfErr result (λ f. fault_view f ≡ memory) }
{
    match as_item(alloc, name, tree) {
        Ok(tree) => Ok(tree),
        Err(_) => Err(Fault::Memory),
    }
}

/// What the schema at a place is converted to, with the name that is handed down to it, where walks from there may have so many steps. What
/// isn't kept in the tree is added to what was kept. It fails with the first fault from there on, or where memory runs out or the judge of
/// texts failed.
pub fn tree_at<'d, T: Texts>(
    alloc: Global,
    document: &'d Document,
    depth: u32,
    levels: u32,
    texts: &mut T,
    kept: &mut Kept<'d, '_, '_>,
    start: &Start,
    name: Option<&'d str>,
    schema: &'d Schema,
) -> Result<Tree<'d>, Fault>
    requires { Begins (kept_view kept.old).merges (merges_in (tree_nodes (T.relations texts.old) (document_seen document.now) depth levels (spot_of start.now [] (option_map (λ n. n.now) name)) (schema_view schema.now))) }
    ensures entry { IfOk result (λ t. tree_view t ≡ entry_at (T.relations texts.old) (document_seen document.now) depth levels (spot_of start.now [] (option_map (λ n. n.now) name.entry)) (schema_view schema.now)) }
    ensures told { OnOk result (IsTold (T.relations texts.old) (document_seen document.now) depth levels (tree_nodes (T.relations texts.old) (document_seen document.now) depth levels (spot_of start.now [] (option_map (λ n. n.now) name.entry)) (schema_view schema.now)) (kept_view kept.old) (kept_view kept.new)) }
    ensures refused { IfErr result (λ f. Refuses (T.relations texts.old) (document_seen document.now) depth levels (T.faults texts.old) (T.faults texts.new) (tree_nodes (T.relations texts.old) (document_seen document.now) depth levels (spot_of start.now [] (option_map (λ n. n.now) name.entry)) (schema_view schema.now)) (fault_view f)) }
    ensures keeps { T.relations texts.new ≡ T.relations texts.old }
    ensures counts { T.faults texts.old ≤ T.faults texts.new }
{
    let scope = Scope {
        alloc,
        document,
        depth,
        start,
    };
    let trail = Vec::new(alloc);
    let source = Source::Written(schema);
    let tree = convert(&scope, texts, kept, &trail, levels, name, &source)?;
    Ok(tree)
}

fn definition_item<'d, T: Texts>(
    alloc: Global,
    document: &'d Document,
    depth: u32,
    levels: u32,
    texts: &mut T,
    kept: &mut Kept<'d, '_, '_>,
    name: &'d str,
    schema: &'d Schema,
) -> Result<Tree<'d>, Fault>
    requires { Begins (kept_view kept.old).merges (merges_in (tree_nodes (T.relations texts.old) (document_seen document.now) depth levels (record { handed = Some name.now; path = definition_word (is_under_defs (document_seen document.now) name.now) ∷ name.now ∷ []; walk = (definition_word (is_under_defs (document_seen document.now) name.now) ∷ name.now ∷ []) ∷ []; in_made = false }) (schema_view schema.now))) }
    ensures item { IfOk result (λ t. item_in (tree_view t) ≡ as_item_of name.now (entry_at (T.relations texts.old) (document_seen document.now) depth levels (record { handed = Some name.now; path = definition_word (is_under_defs (document_seen document.now) name.now) ∷ name.now ∷ []; walk = (definition_word (is_under_defs (document_seen document.now) name.now) ∷ name.now ∷ []) ∷ []; in_made = false }) (schema_view schema.now))) }
    ensures told { OnOk result (IsTold (T.relations texts.old) (document_seen document.now) depth levels (tree_nodes (T.relations texts.old) (document_seen document.now) depth levels (record { handed = Some name.now; path = definition_word (is_under_defs (document_seen document.now) name.now) ∷ name.now ∷ []; walk = (definition_word (is_under_defs (document_seen document.now) name.now) ∷ name.now ∷ []) ∷ []; in_made = false }) (schema_view schema.now)) (kept_view kept.old) (kept_view kept.new)) }
    ensures refused { IfErr result (λ f. Refuses (T.relations texts.old) (document_seen document.now) depth levels (T.faults texts.old) (T.faults texts.new) (tree_nodes (T.relations texts.old) (document_seen document.now) depth levels (record { handed = Some name.now; path = definition_word (is_under_defs (document_seen document.now) name.now) ∷ name.now ∷ []; walk = (definition_word (is_under_defs (document_seen document.now) name.now) ∷ name.now ∷ []) ∷ []; in_made = false }) (schema_view schema.now)) (fault_view f)) }
    ensures keeps { T.relations texts.new ≡ T.relations texts.old }
    ensures counts { T.faults texts.old ≤ T.faults texts.new }
{
    let start = start_of_definition(alloc, document, name)?;
    let tree = tree_at(
        alloc,
        document,
        depth,
        levels,
        texts,
        kept,
        &start,
        Some(name),
        schema,
    )?;
    let item = item_of(alloc, name, tree)?;
    Ok(item)
}

/// The item of each definition in the order of their names, with what isn't kept in them added to what was kept.
pub fn definition_targets<'d, T: Texts>(
    alloc: Global,
    document: &'d Document,
    depth: u32,
    levels: u32,
    texts: &mut T,
    kept: &mut Kept<'d, '_, '_>,
) -> Result<Vec<(Target, Tree<'d>)>, Fault>
    requires { Begins (kept_view kept.old).merges (merges_in (definition_trees (T.relations texts.old) (document_seen document.now) depth levels (document_seen document.now).definitions)) }
    ensures targets { IfOk result (λ ts. map target_entry ts.items ≡ map (definition_target (T.relations texts.old) (document_seen document.now) depth levels) (document_seen document.now).definitions) }
    ensures told { OnOk result (IsTold (T.relations texts.old) (document_seen document.now) depth levels (definition_trees (T.relations texts.old) (document_seen document.now) depth levels (document_seen document.now).definitions) (kept_view kept.old) (kept_view kept.new)) }
    ensures refused { IfErr result (λ f. Refuses (T.relations texts.old) (document_seen document.now) depth levels (T.faults texts.old) (T.faults texts.new) (definition_trees (T.relations texts.old) (document_seen document.now) depth levels (document_seen document.now).definitions) (fault_view f)) }
    ensures keeps { T.relations texts.new ≡ T.relations texts.old }
    ensures counts { T.faults texts.old ≤ T.faults texts.new }
{
    let mut targets = Vec::new(alloc);
    let mut names = document.names();
    while let Some(name) = names.next() {
        let schema = body_of(document, name)?;
        let item = definition_item(alloc, document, depth, levels, texts, kept, name, schema)?;
        push_definition(alloc, &mut targets, name, item)?;
    }
    Ok(targets)
}

// What is defined by a name; each name of the document has a definition.
fn body_of<'d>(document: &'d Document, name: &str) -> Result<&'d Schema, Fault>
    ensures body { IfOk result (λ s. Some (schema_view s.now) ≡ option_map (λ e. e.body) (defined name.now (document_seen document.now).definitions)) }
    ensures memory { IfErr result (λ f. fault_view f ≡ memory) }
{
    match document.definition(name) {
        Some(schema) => Ok(schema),
        None => Err(Fault::Memory),
    }
}

fn push_definition<'d>(
    alloc: Global,
    targets: &mut Vec<(Target, Tree<'d>)>,
    name: &str,
    item: Tree<'d>,
) -> Result<(), Fault>
    ensures targets { OnOk result (map target_entry targets.new.items ≡ map target_entry targets.old.items ++ record { target = definition name.now; led_to = item_in (tree_view item.entry) } ∷ []) }
    ensures memory { IfErr result (λ f. fault_view f ≡ memory) }
{
    let Ok(key) = String::from_str(alloc, name) else {
        return Err(Fault::Memory);
    };
    match targets.push((Target::Definition(key), item)) {
        Ok(_) => Ok(()),
        Err(_) => Err(Fault::Memory),
    }
}

/// What the root is converted to, with what isn't kept in it added to what was kept.
pub fn root_tree<'d, T: Texts>(
    alloc: Global,
    document: &'d Document,
    depth: u32,
    levels: u32,
    texts: &mut T,
    kept: &mut Kept<'d, '_, '_>,
) -> Result<Tree<'d>, Fault>
    requires { Begins (kept_view kept.old).merges (merges_in (tree_nodes (T.relations texts.old) (document_seen document.now) depth levels (root_spot (T.relations texts.old) (document_seen document.now) depth levels) (document_seen document.now).root)) }
    ensures entry { IfOk result (λ t. tree_view t ≡ root_entry (T.relations texts.old) (document_seen document.now) depth levels) }
    ensures told { OnOk result (IsTold (T.relations texts.old) (document_seen document.now) depth levels (tree_nodes (T.relations texts.old) (document_seen document.now) depth levels (root_spot (T.relations texts.old) (document_seen document.now) depth levels) (document_seen document.now).root) (kept_view kept.old) (kept_view kept.new)) }
    ensures refused { IfErr result (λ f. Refuses (T.relations texts.old) (document_seen document.now) depth levels (T.faults texts.old) (T.faults texts.new) (tree_nodes (T.relations texts.old) (document_seen document.now) depth levels (root_spot (T.relations texts.old) (document_seen document.now) depth levels) (document_seen document.now).root) (fault_view f)) }
    ensures keeps { T.relations texts.new ≡ T.relations texts.old }
    ensures counts { T.faults texts.old ≤ T.faults texts.new }
{
    let start = start_of_root(alloc)?;
    let schema = document.root();
    let name = root_name(schema);
    let tree = tree_at(
        alloc,
        document,
        depth,
        levels,
        texts,
        kept,
        &start,
        Some(name),
        schema,
    )?;
    Ok(tree)
}

fn one_tree<'d>(alloc: Global, tree: Tree<'d>) -> Result<Vec<Tree<'d>>, AllocError>
    ensures { IfOk result (λ v. map tree_view v.items ≡ tree_view tree.entry ∷ []) }
{
    let mut trees = Vec::new(alloc);
    trees.push(tree)?;
    Ok(trees)
}

fn with_root_item<'d>(
    targets: Vec<(Target, Tree<'d>)>,
    item: Tree<'d>,
) -> Result<Vec<(Target, Tree<'d>)>, AllocError>
    ensures { IfOk result (λ v. map target_entry v.items ≡ map target_entry targets.entry.items ++ record { target = the_root; led_to = item_in (tree_view item.entry) } ∷ []) }
{
    let mut targets = targets;
    targets.push((Target::Root, item))?;
    Ok(targets)
}

// A root that references lead to is an item, and is used by a reference.
fn with_used_root<'d>(
    alloc: Global,
    name: &'d str,
    targets: Vec<(Target, Tree<'d>)>,
    root: Tree<'d>,
) -> Result<TreeTable<'d>, AllocError>
    ensures { IfOk result (λ t. table_view t ≡ record { targets = map target_entry targets.entry.items ++ root_targets_of true name.now (tree_view root.entry); trees = root_use_of true (tree_view root.entry) ∷ [] }) }
{
    let item = as_item(alloc, name, root)?;
    let all = with_root_item(targets, item)?;
    let reference = atom(Atom::Reference(Target::Root));
    let trees = one_tree(alloc, reference)?;
    Ok(TreeTable {
        targets: all,
        trees,
    })
}

fn with_plain_root<'d>(
    alloc: Global,
    targets: Vec<(Target, Tree<'d>)>,
    root: Tree<'d>,
) -> Result<TreeTable<'d>, AllocError>
    ensures { IfOk result (λ t. table_view t ≡ record { targets = map target_entry targets.entry.items; trees = tree_view root.entry ∷ [] }) }
{
    let trees = one_tree(alloc, root)?;
    Ok(TreeTable { targets, trees })
}

fn with_root<'d>(
    alloc: Global,
    document: &'d Document,
    targets: Vec<(Target, Tree<'d>)>,
    root: Tree<'d>,
) -> Result<TreeTable<'d>, AllocError>
    ensures { IfOk result (λ t. table_view t ≡ record { targets = map target_entry targets.entry.items ++ root_targets_of (refers_to_root_of (document_seen document.now)) (root_name_of (document_seen document.now).root) (tree_view root.entry); trees = root_use_of (refers_to_root_of (document_seen document.now)) (tree_view root.entry) ∷ [] }) }
{
    if refers_to_root(document) {
        let name = root_name(document.root());
        let used = with_used_root(alloc, name, targets, root)?;
        return Ok(used);
    }
    let plain = with_plain_root(alloc, targets, root)?;
    Ok(plain)
}

fn rooted<'d>(
    alloc: Global,
    document: &'d Document,
    targets: Vec<(Target, Tree<'d>)>,
    root: Tree<'d>,
) -> Result<TreeTable<'d>, Fault>
    ensures table { IfOk result (λ t. table_view t ≡ record { targets = map target_entry targets.entry.items ++ root_targets_of (refers_to_root_of (document_seen document.now)) (root_name_of (document_seen document.now).root) (tree_view root.entry); trees = root_use_of (refers_to_root_of (document_seen document.now)) (tree_view root.entry) ∷ [] }) }
    ensures memory { IfErr result (λ f. fault_view f ≡ memory) }
{
    match with_root(alloc, document, targets, root) {
        Ok(table) => Ok(table),
        Err(_) => Err(Fault::Memory),
    }
}
