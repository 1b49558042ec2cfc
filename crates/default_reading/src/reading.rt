//! Values and trees, where defaults are read for what is left out.
ghost use Rattle.std.specs.Prelude.{◌≡◌, ◌≤◌, ◌+◌, ℕ, List, Option, Some, IfOk, IsErrOf, if◌then◌else◌, length, option_map, string_bytes};
ghost use Rattle.schema_defs.specs.Faults.{Rises};
ghost use Rattle.serde_json.specs.View.{items_view, members_view};
ghost use Rattle.json_value.specs.Value.{text};
ghost use Rattle.json_value.specs.View.{items_of, members_of, kept_view};
ghost use Rattle.model_defs.specs.Model.{adjacent_tag, external_tag, internal_tag};
ghost use Rattle.entry_defs.specs.Entry.{array_entry, entries_of, enum_shape, fields_of, item, map_entry, newtype_shape, option_entry, reference, rest_of, struct_shape, tuple_entry, vec_entry};
ghost use Rattle.entry_defs.specs.Layer.{contents_entry};
ghost use Rattle.row_findings.specs.View.{state_view, tag_view};
ghost use Rattle.tree_types.specs.View.{atom_view, contents_view, first_part, parts_of, rule_view, table_view, target_view, tree_view, wrapped};
ghost use Rattle.default_defs.specs.Found.{both as both_of, ended};
ghost use Rattle.default_defs.specs.Layer.{left_out as left_out_of};
ghost use Rattle.default_reading.specs.Seen.{case_named, content as content_of, contents_in, entry_of, fields_in, found_view, listed, places_in, state_in, variants_in};
ghost use Rattle.default_reading.specs.Steps.{adjacent_by, adjacent_comes, beside_comes, comes, comes_in, content_comes, field_comes, fields_come, first_comes, given_at, internal_comes, is_other as is_other_of, items_come, members_come, missed, named_comes, only_comes, others_come, places_come, rest_comes, setting, struct_comes, supplies};

use crate::found::{Found, both, given, is_ended, is_refused, told};
use crate::members::{given_member, is_too_much, member, only_member, text_value};
use crate::owners::{list_of, object_of, text_of};
use crate::parts::{
    field_tree, front_part, has_unnamed, is_other, names_unit, rest_tree, tagged, tree_from,
    variant_named,
};
use crate::room::{Room, deeper, further};
use listed_reading::{atom_takes, given_rule_holds, is_unit, led_to, target_of};
use row_findings::{FieldState, TagRow, is_null};
use schema_tree::{TextFault, Texts};
use serde_json::Value;
use serde_json::value::Map;
use tree_types::{
    Atom, ContentKind, FieldHead, Target, Tree, TreeRule, TreeTable, VariantHead, Wrap,
};

// Where so many references may be followed at the value, or more.
#[cycle(reading)]
fn read<'d, 'k, T: Texts>(
    table: &TreeTable<'k>,
    room: Room,
    left: usize,
    tree: &Tree<'d>,
    value: &Value,
    texts: &mut T,
) -> Result<Found, TextFault>
    ensures read { IfOk result (λ b. (m : ℕ) → comes_in (setting (table_view table.now) room.inside) (T.relations texts.old) (left + m) (tree_view tree.now) (kept_view value.now) ≡ found_view b) }
    ensures keeps { T.relations texts.new ≡ T.relations texts.old }
    ensures failed { IsErrOf result TextFault.Failed → Rises (T.faults texts.old) (T.faults texts.new) }
    ensures counts { T.faults texts.old ≤ T.faults texts.new }
{
    match tree {
        Tree::Atom(atom) => {
            let found = atom_read(table, room, left, atom, value, texts)?;
            Ok(found)
        }
        Tree::One(wrap, held) => {
            let found = one_read(table, room, left, wrap, held, value, texts)?;
            Ok(found)
        }
        Tree::Map(keys, held) => {
            let found = map_read(table, room, keys, held, value, texts)?;
            Ok(found)
        }
        Tree::Tuple(places) => {
            let found = places_read(table, room, places, value, texts)?;
            Ok(found)
        }
        Tree::Struct {
            name: _,
            closed,
            fields,
            rest,
        } => {
            let rest = rest_tree(rest);
            let found = struct_read(table, room, *closed, fields, rest, value, texts)?;
            Ok(found)
        }
        Tree::Enum {
            name: _,
            closed,
            tag,
            variants,
        } => {
            let found = enum_read(table, room, left, *closed, tag, variants, value, texts)?;
            Ok(found)
        }
    }
}

#[cycle(reading)]
fn atom_read<'k, T: Texts>(
    table: &TreeTable<'k>,
    room: Room,
    left: usize,
    atom: &Atom,
    value: &Value,
    texts: &mut T,
) -> Result<Found, TextFault>
    ensures read { IfOk result (λ b. (m : ℕ) → comes_in (setting (table_view table.now) room.inside) (T.relations texts.old) (left + m) (atom_view atom.now) (kept_view value.now) ≡ found_view b) }
    ensures keeps { T.relations texts.new ≡ T.relations texts.old }
    ensures failed { IsErrOf result TextFault.Failed → Rises (T.faults texts.old) (T.faults texts.new) }
    ensures counts { T.faults texts.old ≤ T.faults texts.new }
{
    if let Some(target) = target_of(atom) {
        let found = follow(table, room, left, target, value, texts)?;
        return Ok(found);
    }
    let taken = atom_takes(atom, value, texts)?;
    Ok(told(taken))
}

// What the reference leads to.
#[cycle(reading)]
fn follow<'k, T: Texts>(
    table: &TreeTable<'k>,
    room: Room,
    left: usize,
    target: &Target,
    value: &Value,
    texts: &mut T,
) -> Result<Found, TextFault>
    ensures read { IfOk result (λ b. (m : ℕ) → comes_in (setting (table_view table.now) room.inside) (T.relations texts.old) (left + m) (reference (target_view target.now)) (kept_view value.now) ≡ found_view b) }
    ensures keeps { T.relations texts.new ≡ T.relations texts.old }
    ensures failed { IsErrOf result TextFault.Failed → Rises (T.faults texts.old) (T.faults texts.new) }
    ensures counts { T.faults texts.old ≤ T.faults texts.new }
{
    if left == 0 {
        return Err(TextFault::Memory);
    }
    if room.levels == 0 {
        return Err(TextFault::Memory);
    }
    match led_to(table, target) {
        Some(tree) => {
            let found = read(table, deeper(room), left - 1, tree, value, texts)?;
            Ok(found)
        }
        None => Ok(Found::Refused),
    }
}

#[cycle(reading)]
fn one_read<'d, 'k, T: Texts>(
    table: &TreeTable<'k>,
    room: Room,
    left: usize,
    wrap: &Wrap<'d>,
    held: &Tree<'d>,
    value: &Value,
    texts: &mut T,
) -> Result<Found, TextFault>
    ensures read { IfOk result (λ b. (m : ℕ) → comes_in (setting (table_view table.now) room.inside) (T.relations texts.old) (left + m) (wrapped wrap.now (tree_view held.now)) (kept_view value.now) ≡ found_view b) }
    ensures keeps { T.relations texts.new ≡ T.relations texts.old }
    ensures failed { IsErrOf result TextFault.Failed → Rises (T.faults texts.old) (T.faults texts.new) }
    ensures counts { T.faults texts.old ≤ T.faults texts.new }
{
    match wrap {
        Wrap::Option => {
            let found = option_read(table, room, left, held, value, texts)?;
            Ok(found)
        }
        Wrap::Vec => {
            let found = each_read(table, room, held, value, texts)?;
            Ok(found)
        }
        Wrap::Set => {
            let found = each_read(table, room, held, value, texts)?;
            Ok(found)
        }
        Wrap::Array(count) => {
            let found = array_read(table, room, *count, held, value, texts)?;
            Ok(found)
        }
        Wrap::Newtype { name: _, rule } => {
            let found = ruled_read(table, room, left, rule, held, value, texts)?;
            Ok(found)
        }
    }
}

#[cycle(reading)]
fn option_read<'d, 'k, T: Texts>(
    table: &TreeTable<'k>,
    room: Room,
    left: usize,
    held: &Tree<'d>,
    value: &Value,
    texts: &mut T,
) -> Result<Found, TextFault>
    ensures read { IfOk result (λ b. (m : ℕ) → comes_in (setting (table_view table.now) room.inside) (T.relations texts.old) (left + m) (option_entry (tree_view held.now)) (kept_view value.now) ≡ found_view b) }
    ensures keeps { T.relations texts.new ≡ T.relations texts.old }
    ensures failed { IsErrOf result TextFault.Failed → Rises (T.faults texts.old) (T.faults texts.new) }
    ensures counts { T.faults texts.old ≤ T.faults texts.new }
{
    if is_null(value) {
        return Ok(Found::Ended);
    }
    let found = read(table, room, left, held, value, texts)?;
    Ok(found)
}

#[cycle(reading)]
fn ruled_read<'d, 'k, T: Texts>(
    table: &TreeTable<'k>,
    room: Room,
    left: usize,
    rule: &Option<TreeRule<'d>>,
    held: &Tree<'d>,
    value: &Value,
    texts: &mut T,
) -> Result<Found, TextFault>
    ensures read { IfOk result (λ b. (m : ℕ) (n : List ℕ) → comes_in (setting (table_view table.now) room.inside) (T.relations texts.old) (left + m) (item n (newtype_shape (tree_view held.now) (option_map rule_view rule.now))) (kept_view value.now) ≡ found_view b) }
    ensures keeps { T.relations texts.new ≡ T.relations texts.old }
    ensures failed { IsErrOf result TextFault.Failed → Rises (T.faults texts.old) (T.faults texts.new) }
    ensures counts { T.faults texts.old ≤ T.faults texts.new }
{
    let found = read(table, room, left, held, value, texts)?;
    if !is_ended(found) {
        return Ok(found);
    }
    let holds = given_rule_holds(rule, value, texts)?;
    Ok(told(holds))
}

#[cycle(reading)]
fn each_read<'d, 'k, T: Texts>(
    table: &TreeTable<'k>,
    room: Room,
    held: &Tree<'d>,
    value: &Value,
    texts: &mut T,
) -> Result<Found, TextFault>
    ensures read { IfOk result (λ b. (m : ℕ) → comes_in (setting (table_view table.now) room.inside) (T.relations texts.old) m (vec_entry (tree_view held.now)) (kept_view value.now) ≡ found_view b) }
    ensures keeps { T.relations texts.new ≡ T.relations texts.old }
    ensures failed { IsErrOf result TextFault.Failed → Rises (T.faults texts.old) (T.faults texts.new) }
    ensures counts { T.faults texts.old ≤ T.faults texts.new }
{
    match list_of(value) {
        Some(values) => {
            let found = items_read(table, room, held, values, texts)?;
            Ok(found)
        }
        None => Ok(Found::Refused),
    }
}

#[cycle(reading)]
fn array_read<'d, 'k, T: Texts>(
    table: &TreeTable<'k>,
    room: Room,
    count: u32,
    held: &Tree<'d>,
    value: &Value,
    texts: &mut T,
) -> Result<Found, TextFault>
    ensures read { IfOk result (λ b. (m : ℕ) → comes_in (setting (table_view table.now) room.inside) (T.relations texts.old) m (array_entry (tree_view held.now) count) (kept_view value.now) ≡ found_view b) }
    ensures keeps { T.relations texts.new ≡ T.relations texts.old }
    ensures failed { IsErrOf result TextFault.Failed → Rises (T.faults texts.old) (T.faults texts.new) }
    ensures counts { T.faults texts.old ≤ T.faults texts.new }
{
    match list_of(value) {
        Some(values) => {
            if values.len() != count as usize {
                return Ok(Found::Refused);
            }
            let found = items_read(table, room, held, values, texts)?;
            Ok(found)
        }
        None => Ok(Found::Refused),
    }
}

#[cycle(reading)]
fn items_read<'d, 'k, T: Texts>(
    table: &TreeTable<'k>,
    room: Room,
    held: &Tree<'d>,
    values: &Vec<Value>,
    texts: &mut T,
) -> Result<Found, TextFault>
    ensures read { IfOk result (λ b. items_come (setting (table_view table.now) room.inside) (T.relations texts.old) (tree_view held.now) (items_of (items_view values.now.items)) ≡ found_view b) }
    ensures keeps { T.relations texts.new ≡ T.relations texts.old }
    ensures failed { IsErrOf result TextFault.Failed → Rises (T.faults texts.old) (T.faults texts.new) }
    ensures counts { T.faults texts.old ≤ T.faults texts.new }
{
    let mut found = Found::Ended;
    for value in values {
        found = also(table, room, found, held, value, texts)?;
    }
    Ok(found)
}

// What came before, and then a part of the value, where all references may be followed.
#[cycle(reading)]
pub fn also<'d, 'k, T: Texts>(
    table: &TreeTable<'k>,
    room: Room,
    before: Found,
    tree: &Tree<'d>,
    value: &Value,
    texts: &mut T,
) -> Result<Found, TextFault>
    ensures read { IfOk result (λ b. both_of (found_view before) (comes (setting (table_view table.now) room.inside) (T.relations texts.old) (tree_view tree.now) (kept_view value.now)) ≡ found_view b) }
    ensures keeps { T.relations texts.new ≡ T.relations texts.old }
    ensures failed { IsErrOf result TextFault.Failed → Rises (T.faults texts.old) (T.faults texts.new) }
    ensures counts { T.faults texts.old ≤ T.faults texts.new }
{
    if !is_ended(before) {
        return Ok(before);
    }
    if room.levels == 0 {
        return Err(TextFault::Memory);
    }
    let left = table.targets.len();
    let found = read(table, deeper(room), left, tree, value, texts)?;
    Ok(found)
}

#[cycle(reading)]
fn also_part<'d, 'k, T: Texts>(
    table: &TreeTable<'k>,
    room: Room,
    before: Found,
    tree: Option<&Tree<'d>>,
    value: &Value,
    texts: &mut T,
) -> Result<Found, TextFault>
    ensures read { IfOk result (λ b. both_of (found_view before) (comes (setting (table_view table.now) room.inside) (T.relations texts.old) (entry_of (option_map (λ x. x.now) tree.entry)) (kept_view value.now)) ≡ found_view b) }
    ensures keeps { T.relations texts.new ≡ T.relations texts.old }
    ensures failed { IsErrOf result TextFault.Failed → Rises (T.faults texts.old) (T.faults texts.new) }
    ensures counts { T.faults texts.old ≤ T.faults texts.new }
{
    match tree {
        Some(tree) => {
            let found = also(table, room, before, tree, value, texts)?;
            Ok(found)
        }
        None => Ok(before),
    }
}

#[cycle(reading)]
fn map_read<'d, 'k, T: Texts>(
    table: &TreeTable<'k>,
    room: Room,
    keys: &Tree<'d>,
    held: &Tree<'d>,
    value: &Value,
    texts: &mut T,
) -> Result<Found, TextFault>
    ensures read { IfOk result (λ b. (m : ℕ) → comes_in (setting (table_view table.now) room.inside) (T.relations texts.old) m (map_entry (tree_view keys.now) (tree_view held.now)) (kept_view value.now) ≡ found_view b) }
    ensures keeps { T.relations texts.new ≡ T.relations texts.old }
    ensures failed { IsErrOf result TextFault.Failed → Rises (T.faults texts.old) (T.faults texts.new) }
    ensures counts { T.faults texts.old ≤ T.faults texts.new }
{
    match object_of(value) {
        Some(members) => {
            let found = members_read(table, room, keys, held, members, texts)?;
            Ok(found)
        }
        None => Ok(Found::Refused),
    }
}

#[cycle(reading)]
fn members_read<'d, 'k, T: Texts>(
    table: &TreeTable<'k>,
    room: Room,
    keys: &Tree<'d>,
    held: &Tree<'d>,
    members: &Map<String, Value>,
    texts: &mut T,
) -> Result<Found, TextFault>
    ensures read { IfOk result (λ b. members_come (setting (table_view table.now) room.inside) (T.relations texts.old) (tree_view keys.now) (tree_view held.now) (members_of (members_view members.now.entries)) ≡ found_view b) }
    ensures keeps { T.relations texts.new ≡ T.relations texts.old }
    ensures failed { IsErrOf result TextFault.Failed → Rises (T.faults texts.old) (T.faults texts.new) }
    ensures counts { T.faults texts.old ≤ T.faults texts.new }
{
    let mut found = Found::Ended;
    for (name, value) in members.iter() {
        found = member_read(table, room, found, keys, held, name, value, texts)?;
    }
    Ok(found)
}

#[cycle(reading)]
fn member_read<'d, 'k, T: Texts>(
    table: &TreeTable<'k>,
    room: Room,
    before: Found,
    keys: &Tree<'d>,
    held: &Tree<'d>,
    name: &String,
    value: &Value,
    texts: &mut T,
) -> Result<Found, TextFault>
    ensures read { IfOk result (λ b. both_of (found_view before) (both_of (comes (setting (table_view table.now) room.inside) (T.relations texts.old) (tree_view keys.now) (text (string_bytes name.now))) (comes (setting (table_view table.now) room.inside) (T.relations texts.old) (tree_view held.now) (kept_view value.now))) ≡ found_view b) }
    ensures keeps { T.relations texts.new ≡ T.relations texts.old }
    ensures failed { IsErrOf result TextFault.Failed → Rises (T.faults texts.old) (T.faults texts.new) }
    ensures counts { T.faults texts.old ≤ T.faults texts.new }
{
    let text = text_value(name)?;
    let named = also(table, room, before, keys, &text, texts)?;
    let found = also(table, room, named, held, value, texts)?;
    Ok(found)
}

#[cycle(reading)]
fn places_read<'d, 'k, T: Texts>(
    table: &TreeTable<'k>,
    room: Room,
    places: &[(FieldHead<'d>, Option<Tree<'d>>)],
    value: &Value,
    texts: &mut T,
) -> Result<Found, TextFault>
    ensures read { IfOk result (λ b. (m : ℕ) → comes_in (setting (table_view table.now) room.inside) (T.relations texts.old) m (tuple_entry (places_in places.now)) (kept_view value.now) ≡ found_view b) }
    ensures keeps { T.relations texts.new ≡ T.relations texts.old }
    ensures failed { IsErrOf result TextFault.Failed → Rises (T.faults texts.old) (T.faults texts.new) }
    ensures counts { T.faults texts.old ≤ T.faults texts.new }
{
    match list_of(value) {
        Some(values) => {
            if values.len() != places.len() {
                return Ok(Found::Refused);
            }
            let found = by_places(table, room, places, values, texts)?;
            Ok(found)
        }
        None => Ok(Found::Refused),
    }
}

#[cycle(reading)]
fn by_places<'d, 'k, T: Texts>(
    table: &TreeTable<'k>,
    room: Room,
    places: &[(FieldHead<'d>, Option<Tree<'d>>)],
    values: &Vec<Value>,
    texts: &mut T,
) -> Result<Found, TextFault>
    ensures read { IfOk result (λ b. length values.now.items ≡ length places.now → places_come (setting (table_view table.now) room.inside) (T.relations texts.old) (entries_of (places_in places.now)) (items_of (items_view values.now.items)) ≡ found_view b) }
    ensures keeps { T.relations texts.new ≡ T.relations texts.old }
    ensures failed { IsErrOf result TextFault.Failed → Rises (T.faults texts.old) (T.faults texts.new) }
    ensures counts { T.faults texts.old ≤ T.faults texts.new }
{
    let mut found = Found::Ended;
    for (place, value) in values.iter().enumerate() {
        let tree = tree_from(places, place);
        found = also_part(table, room, found, tree, value, texts)?;
    }
    Ok(found)
}

#[cycle(reading)]
fn struct_read<'t, 'd, 'k, T: Texts>(
    table: &TreeTable<'k>,
    room: Room,
    closed: bool,
    fields: &'t [(FieldHead<'d>, Option<Tree<'d>>)],
    rest: Option<&'t Tree<'d>>,
    value: &Value,
    texts: &mut T,
) -> Result<Found, TextFault>
    ensures read { IfOk result (λ b. (m : ℕ) (n : List ℕ) → comes_in (setting (table_view table.now) room.inside) (T.relations texts.old) m (item n (struct_shape closed (fields_in fields.now (option_map (λ x. x.now) rest.entry)))) (kept_view value.now) ≡ found_view b) }
    ensures keeps { T.relations texts.new ≡ T.relations texts.old }
    ensures failed { IsErrOf result TextFault.Failed → Rises (T.faults texts.old) (T.faults texts.new) }
    ensures counts { T.faults texts.old ≤ T.faults texts.new }
{
    match object_of(value) {
        Some(members) => {
            let found = struct_members(table, room, closed, fields, rest, None, members, texts)?;
            Ok(found)
        }
        None => Ok(Found::Refused),
    }
}

// The members of a struct, where one name may be passed over. One that is closed and has a member that no field names is refused before any field is
// read.
#[cycle(reading)]
fn struct_members<'t, 'd, 'k, T: Texts>(
    table: &TreeTable<'k>,
    room: Room,
    closed: bool,
    fields: &'t [(FieldHead<'d>, Option<Tree<'d>>)],
    rest: Option<&'t Tree<'d>>,
    passed: Option<&str>,
    members: &Map<String, Value>,
    texts: &mut T,
) -> Result<Found, TextFault>
    ensures read { IfOk result (λ b. struct_comes (setting (table_view table.now) room.inside) (T.relations texts.old) (option_map (λ p. p.now) passed.entry) closed (fields_in fields.now (option_map (λ x. x.now) rest.entry)) (members_of (members_view members.now.entries)) ≡ found_view b) }
    ensures keeps { T.relations texts.new ≡ T.relations texts.old }
    ensures failed { IsErrOf result TextFault.Failed → Rises (T.faults texts.old) (T.faults texts.new) }
    ensures counts { T.faults texts.old ≤ T.faults texts.new }
{
    if has_unnamed(closed, passed, fields, members) {
        return Ok(Found::Refused);
    }
    let named = fields_read(table, room, fields, rest, passed, members, texts)?;
    let found = others_read(table, room, named, fields, rest, passed, members, texts)?;
    Ok(found)
}

#[cycle(reading)]
fn fields_read<'t, 'd, 'k, T: Texts>(
    table: &TreeTable<'k>,
    room: Room,
    fields: &'t [(FieldHead<'d>, Option<Tree<'d>>)],
    rest: Option<&'t Tree<'d>>,
    passed: Option<&str>,
    members: &Map<String, Value>,
    texts: &mut T,
) -> Result<Found, TextFault>
    ensures read { IfOk result (λ b. fields_come (setting (table_view table.now) room.inside) (T.relations texts.old) (option_map (λ p. p.now) passed.entry) (listed fields.now (option_map (λ x. x.now) rest.entry)) (members_of (members_view members.now.entries)) ≡ found_view b) }
    ensures keeps { T.relations texts.new ≡ T.relations texts.old }
    ensures failed { IsErrOf result TextFault.Failed → Rises (T.faults texts.old) (T.faults texts.new) }
    ensures counts { T.faults texts.old ≤ T.faults texts.new }
{
    let mut found = Found::Ended;
    for (place, field) in fields.iter().enumerate() {
        let tree = field_tree(fields, place, rest);
        found = field_read(table, room, found, field, tree, passed, members, texts)?;
    }
    Ok(found)
}

#[cycle(reading)]
fn field_read<'d, 'k, T: Texts>(
    table: &TreeTable<'k>,
    room: Room,
    before: Found,
    field: &(FieldHead<'d>, Option<Tree<'d>>),
    tree: Option<&Tree<'d>>,
    passed: Option<&str>,
    members: &Map<String, Value>,
    texts: &mut T,
) -> Result<Found, TextFault>
    ensures read { IfOk result (λ b. ((x : Tree) → field.now.1 ≡ Some x → option_map (λ x. x.now) tree.entry ≡ Some x) → both_of (found_view before) (field_comes (setting (table_view table.now) room.inside) (T.relations texts.old) (state_in field.now) (entry_of (option_map (λ x. x.now) tree.entry)) (given_at (option_map (λ p. p.now) passed.entry) field.now.0.label.wanted.now (members_of (members_view members.now.entries)))) ≡ found_view b) }
    ensures keeps { T.relations texts.new ≡ T.relations texts.old }
    ensures failed { IsErrOf result TextFault.Failed → Rises (T.faults texts.old) (T.faults texts.new) }
    ensures counts { T.faults texts.old ≤ T.faults texts.new }
{
    match given_member(passed, members, field.0.label.wanted) {
        Some(value) => {
            let found = also_part(table, room, before, tree, value, texts)?;
            Ok(found)
        }
        None => {
            let found = left_out(table, room, before, field, texts)?;
            Ok(found)
        }
    }
}

// A field that is left out. One without a tree of its own is required.
#[cycle(reading)]
fn left_out<'d, 'k, T: Texts>(
    table: &TreeTable<'k>,
    room: Room,
    before: Found,
    field: &(FieldHead<'d>, Option<Tree<'d>>),
    texts: &mut T,
) -> Result<Found, TextFault>
    ensures read { IfOk result (λ b. both_of (found_view before) (left_out_of (missed (setting (table_view table.now) room.inside) (T.relations texts.old)) (state_in field.now) (entry_of field.now.1)) ≡ found_view b) }
    ensures keeps { T.relations texts.new ≡ T.relations texts.old }
    ensures failed { IsErrOf result TextFault.Failed → Rises (T.faults texts.old) (T.faults texts.new) }
    ensures counts { T.faults texts.old ≤ T.faults texts.new }
{
    match &field.1 {
        Some(tree) => {
            let found = state_read(table, room, before, field.0.state, tree, texts)?;
            Ok(found)
        }
        None => Ok(both(before, Found::Refused)),
    }
}

#[cycle(reading)]
fn state_read<'d, 'k, T: Texts>(
    table: &TreeTable<'k>,
    room: Room,
    before: Found,
    state: FieldState<'d>,
    tree: &Tree<'d>,
    texts: &mut T,
) -> Result<Found, TextFault>
    ensures read { IfOk result (λ b. both_of (found_view before) (left_out_of (missed (setting (table_view table.now) room.inside) (T.relations texts.old)) (state_view state.entry) (tree_view tree.now)) ≡ found_view b) }
    ensures keeps { T.relations texts.new ≡ T.relations texts.old }
    ensures failed { IsErrOf result TextFault.Failed → Rises (T.faults texts.old) (T.faults texts.new) }
    ensures counts { T.faults texts.old ≤ T.faults texts.new }
{
    match state {
        FieldState::Required => Ok(both(before, Found::Refused)),
        FieldState::Optional => Ok(before),
        FieldState::Stated(value) => {
            let found = default_read(table, room, before, tree, value, texts)?;
            Ok(found)
        }
    }
}

// A default inside the others. What is refused or endless already stays.
#[cycle(reading)]
fn default_read<'d, 'k, T: Texts>(
    table: &TreeTable<'k>,
    room: Room,
    before: Found,
    tree: &Tree<'d>,
    value: &Value,
    texts: &mut T,
) -> Result<Found, TextFault>
    ensures read { IfOk result (λ b. both_of (found_view before) (supplies (setting (table_view table.now) room.inside) (T.relations texts.old) (tree_view tree.now) (kept_view value.now)) ≡ found_view b) }
    ensures keeps { T.relations texts.new ≡ T.relations texts.old }
    ensures failed { IsErrOf result TextFault.Failed → Rises (T.faults texts.old) (T.faults texts.new) }
    ensures counts { T.faults texts.old ≤ T.faults texts.new }
{
    if !is_ended(before) {
        return Ok(before);
    }
    if room.inside == 0 {
        return Ok(Found::Endless);
    }
    let found = also(table, further(room), Found::Ended, tree, value, texts)?;
    Ok(given(found))
}

// The members that no field names.
#[cycle(reading)]
fn others_read<'d, 'k, T: Texts>(
    table: &TreeTable<'k>,
    room: Room,
    before: Found,
    fields: &[(FieldHead<'d>, Option<Tree<'d>>)],
    rest: Option<&Tree<'d>>,
    passed: Option<&str>,
    members: &Map<String, Value>,
    texts: &mut T,
) -> Result<Found, TextFault>
    ensures read { IfOk result (λ b. let fs = fields_in fields.now (option_map (λ x. x.now) rest.entry) in both_of (found_view before) (others_come (setting (table_view table.now) room.inside) (T.relations texts.old) (option_map (λ p. p.now) passed.entry) (fields_of fs) (rest_of fs) (members_of (members_view members.now.entries))) ≡ found_view b) }
    ensures keeps { T.relations texts.new ≡ T.relations texts.old }
    ensures failed { IsErrOf result TextFault.Failed → Rises (T.faults texts.old) (T.faults texts.new) }
    ensures counts { T.faults texts.old ≤ T.faults texts.new }
{
    if rest.is_none() {
        return Ok(before);
    }
    let mut found = before;
    for (name, value) in members.iter() {
        found = other_read(table, room, found, fields, rest, passed, name, value, texts)?;
    }
    Ok(found)
}

#[cycle(reading)]
fn other_read<'d, 'k, T: Texts>(
    table: &TreeTable<'k>,
    room: Room,
    before: Found,
    fields: &[(FieldHead<'d>, Option<Tree<'d>>)],
    rest: Option<&Tree<'d>>,
    passed: Option<&str>,
    name: &String,
    value: &Value,
    texts: &mut T,
) -> Result<Found, TextFault>
    ensures read { IfOk result (λ b. let fs = fields_in fields.now (option_map (λ x. x.now) rest.entry) in both_of (found_view before) (if is_other_of (option_map (λ p. p.now) passed.entry) (fields_of fs) (string_bytes name.now) then rest_comes (setting (table_view table.now) room.inside) (T.relations texts.old) (rest_of fs) (kept_view value.now) else ended) ≡ found_view b) }
    ensures keeps { T.relations texts.new ≡ T.relations texts.old }
    ensures failed { IsErrOf result TextFault.Failed → Rises (T.faults texts.old) (T.faults texts.new) }
    ensures counts { T.faults texts.old ≤ T.faults texts.new }
{
    if !is_other(passed, fields, name) {
        return Ok(before);
    }
    let found = also_part(table, room, before, rest, value, texts)?;
    Ok(found)
}

#[cycle(reading)]
fn enum_read<'d, 'k, T: Texts>(
    table: &TreeTable<'k>,
    room: Room,
    left: usize,
    closed: bool,
    tag: &TagRow<'d>,
    variants: &[(VariantHead<'d>, Vec<(FieldHead<'d>, Option<Tree<'d>>)>)],
    value: &Value,
    texts: &mut T,
) -> Result<Found, TextFault>
    ensures read { IfOk result (λ b. (m : ℕ) (n : List ℕ) → comes_in (setting (table_view table.now) room.inside) (T.relations texts.old) (left + m) (item n (enum_shape closed (tag_view tag.now) (variants_in (tag_view tag.now) variants.now))) (kept_view value.now) ≡ found_view b) }
    ensures keeps { T.relations texts.new ≡ T.relations texts.old }
    ensures failed { IsErrOf result TextFault.Failed → Rises (T.faults texts.old) (T.faults texts.new) }
    ensures counts { T.faults texts.old ≤ T.faults texts.new }
{
    match tag {
        TagRow::External => {
            let found = external_read(table, room, closed, variants, value, texts)?;
            Ok(found)
        }
        TagRow::Internal(tag) => {
            let found = internal_read(table, room, closed, tag, variants, value, texts)?;
            Ok(found)
        }
        TagRow::Adjacent(tag, content) => {
            let found = adjacent_read(table, room, closed, tag, content, variants, value, texts)?;
            Ok(found)
        }
        TagRow::Untagged => {
            let found = first_read(table, room, left, closed, variants, value, texts)?;
            Ok(found)
        }
    }
}

#[cycle(reading)]
fn external_read<'d, 'k, T: Texts>(
    table: &TreeTable<'k>,
    room: Room,
    closed: bool,
    variants: &[(VariantHead<'d>, Vec<(FieldHead<'d>, Option<Tree<'d>>)>)],
    value: &Value,
    texts: &mut T,
) -> Result<Found, TextFault>
    ensures read { IfOk result (λ b. (m : ℕ) (n : List ℕ) → comes_in (setting (table_view table.now) room.inside) (T.relations texts.old) m (item n (enum_shape closed external_tag (variants_in external_tag variants.now))) (kept_view value.now) ≡ found_view b) }
    ensures keeps { T.relations texts.new ≡ T.relations texts.old }
    ensures failed { IsErrOf result TextFault.Failed → Rises (T.faults texts.old) (T.faults texts.new) }
    ensures counts { T.faults texts.old ≤ T.faults texts.new }
{
    if let Some(text) = text_of(value) {
        return Ok(told(names_unit(variants, text)));
    }
    match object_of(value) {
        Some(members) => {
            let found = external_member(table, room, closed, variants, members, texts)?;
            Ok(found)
        }
        None => Ok(Found::Refused),
    }
}

#[cycle(reading)]
fn external_member<'d, 'k, T: Texts>(
    table: &TreeTable<'k>,
    room: Room,
    closed: bool,
    variants: &[(VariantHead<'d>, Vec<(FieldHead<'d>, Option<Tree<'d>>)>)],
    members: &Map<String, Value>,
    texts: &mut T,
) -> Result<Found, TextFault>
    ensures read { IfOk result (λ b. only_comes (setting (table_view table.now) room.inside) (T.relations texts.old) closed variants.now (members_of (members_view members.now.entries)) ≡ found_view b) }
    ensures keeps { T.relations texts.new ≡ T.relations texts.old }
    ensures failed { IsErrOf result TextFault.Failed → Rises (T.faults texts.old) (T.faults texts.new) }
    ensures counts { T.faults texts.old ≤ T.faults texts.new }
{
    match only_member(members) {
        Some((name, value)) => {
            let found = named_read(table, room, closed, variants, name, value, texts)?;
            Ok(found)
        }
        None => Ok(Found::Refused),
    }
}

#[cycle(reading)]
fn named_read<'d, 'k, T: Texts>(
    table: &TreeTable<'k>,
    room: Room,
    closed: bool,
    variants: &[(VariantHead<'d>, Vec<(FieldHead<'d>, Option<Tree<'d>>)>)],
    name: &String,
    value: &Value,
    texts: &mut T,
) -> Result<Found, TextFault>
    ensures read { IfOk result (λ b. named_comes (setting (table_view table.now) room.inside) (T.relations texts.old) closed (option_map content_of (case_named (string_bytes name.now) variants.now)) (kept_view value.now) ≡ found_view b) }
    ensures keeps { T.relations texts.new ≡ T.relations texts.old }
    ensures failed { IsErrOf result TextFault.Failed → Rises (T.faults texts.old) (T.faults texts.new) }
    ensures counts { T.faults texts.old ≤ T.faults texts.new }
{
    match variant_named(variants, name) {
        Some(variant) => {
            let found = content_read(
                table,
                room,
                closed,
                variant.0.kind,
                &variant.1,
                value,
                texts,
            )?;
            Ok(found)
        }
        None => Ok(Found::Refused),
    }
}

// What a variant holds that isn't a unit, where all references may be followed.
#[cycle(reading)]
fn content_read<'d, 'k, T: Texts>(
    table: &TreeTable<'k>,
    room: Room,
    closed: bool,
    kind: ContentKind,
    parts: &[(FieldHead<'d>, Option<Tree<'d>>)],
    value: &Value,
    texts: &mut T,
) -> Result<Found, TextFault>
    ensures read { IfOk result (λ b. content_comes (setting (table_view table.now) room.inside) (T.relations texts.old) closed (contents_view kind (parts_of parts.now)) (kept_view value.now) ≡ found_view b) }
    ensures keeps { T.relations texts.new ≡ T.relations texts.old }
    ensures failed { IsErrOf result TextFault.Failed → Rises (T.faults texts.old) (T.faults texts.new) }
    ensures counts { T.faults texts.old ≤ T.faults texts.new }
{
    if is_unit(kind) {
        return Ok(Found::Refused);
    }
    let left = table.targets.len();
    let found = contents_read(table, room, left, closed, kind, parts, value, texts)?;
    Ok(found)
}

#[cycle(reading)]
fn contents_read<'d, 'k, T: Texts>(
    table: &TreeTable<'k>,
    room: Room,
    left: usize,
    closed: bool,
    kind: ContentKind,
    parts: &[(FieldHead<'d>, Option<Tree<'d>>)],
    value: &Value,
    texts: &mut T,
) -> Result<Found, TextFault>
    ensures read { IfOk result (λ b. (m : ℕ) → comes_in (setting (table_view table.now) room.inside) (T.relations texts.old) (left + m) (contents_entry closed (contents_view kind (parts_of parts.now))) (kept_view value.now) ≡ found_view b) }
    ensures keeps { T.relations texts.new ≡ T.relations texts.old }
    ensures failed { IsErrOf result TextFault.Failed → Rises (T.faults texts.old) (T.faults texts.new) }
    ensures counts { T.faults texts.old ≤ T.faults texts.new }
{
    match kind {
        ContentKind::Unit => Ok(told(is_null(value))),
        ContentKind::Newtype => {
            let found = front_read(table, room, left, parts, value, texts)?;
            Ok(found)
        }
        ContentKind::Tuple => {
            let found = places_read(table, room, parts, value, texts)?;
            Ok(found)
        }
        ContentKind::Struct => {
            let found = struct_read(table, room, closed, parts, None, value, texts)?;
            Ok(found)
        }
    }
}

#[cycle(reading)]
fn front_read<'d, 'k, T: Texts>(
    table: &TreeTable<'k>,
    room: Room,
    left: usize,
    parts: &[(FieldHead<'d>, Option<Tree<'d>>)],
    value: &Value,
    texts: &mut T,
) -> Result<Found, TextFault>
    ensures read { IfOk result (λ b. (m : ℕ) → comes_in (setting (table_view table.now) room.inside) (T.relations texts.old) (left + m) (first_part (parts_of parts.now)) (kept_view value.now) ≡ found_view b) }
    ensures keeps { T.relations texts.new ≡ T.relations texts.old }
    ensures failed { IsErrOf result TextFault.Failed → Rises (T.faults texts.old) (T.faults texts.new) }
    ensures counts { T.faults texts.old ≤ T.faults texts.new }
{
    match front_part(parts) {
        Some(tree) => {
            let found = read(table, room, left, tree, value, texts)?;
            Ok(found)
        }
        None => Ok(Found::Ended),
    }
}

#[cycle(reading)]
fn internal_read<'d, 'k, T: Texts>(
    table: &TreeTable<'k>,
    room: Room,
    closed: bool,
    tag: &str,
    variants: &[(VariantHead<'d>, Vec<(FieldHead<'d>, Option<Tree<'d>>)>)],
    value: &Value,
    texts: &mut T,
) -> Result<Found, TextFault>
    ensures read { IfOk result (λ b. (m : ℕ) (n : List ℕ) → comes_in (setting (table_view table.now) room.inside) (T.relations texts.old) m (item n (enum_shape closed (internal_tag tag.now) (variants_in (internal_tag tag.now) variants.now))) (kept_view value.now) ≡ found_view b) }
    ensures keeps { T.relations texts.new ≡ T.relations texts.old }
    ensures failed { IsErrOf result TextFault.Failed → Rises (T.faults texts.old) (T.faults texts.new) }
    ensures counts { T.faults texts.old ≤ T.faults texts.new }
{
    match object_of(value) {
        Some(members) => {
            let found = internal_members(table, room, closed, tag, variants, members, texts)?;
            Ok(found)
        }
        None => Ok(Found::Refused),
    }
}

#[cycle(reading)]
fn internal_members<'d, 'k, T: Texts>(
    table: &TreeTable<'k>,
    room: Room,
    closed: bool,
    tag: &str,
    variants: &[(VariantHead<'d>, Vec<(FieldHead<'d>, Option<Tree<'d>>)>)],
    members: &Map<String, Value>,
    texts: &mut T,
) -> Result<Found, TextFault>
    ensures read { IfOk result (λ b. internal_comes (setting (table_view table.now) room.inside) (T.relations texts.old) closed tag.now variants.now (members_of (members_view members.now.entries)) ≡ found_view b) }
    ensures keeps { T.relations texts.new ≡ T.relations texts.old }
    ensures failed { IsErrOf result TextFault.Failed → Rises (T.faults texts.old) (T.faults texts.new) }
    ensures counts { T.faults texts.old ≤ T.faults texts.new }
{
    match tagged(tag, variants, members) {
        Some(variant) => {
            let found = beside_read(
                table,
                room,
                closed,
                tag,
                variant.0.kind,
                &variant.1,
                members,
                texts,
            )?;
            Ok(found)
        }
        None => Ok(Found::Refused),
    }
}

#[cycle(reading)]
fn beside_read<'d, 'k, T: Texts>(
    table: &TreeTable<'k>,
    room: Room,
    closed: bool,
    tag: &str,
    kind: ContentKind,
    parts: &[(FieldHead<'d>, Option<Tree<'d>>)],
    members: &Map<String, Value>,
    texts: &mut T,
) -> Result<Found, TextFault>
    ensures read { IfOk result (λ b. beside_comes (setting (table_view table.now) room.inside) (T.relations texts.old) closed tag.now (members_of (members_view members.now.entries)) (contents_view kind (parts_of parts.now)) ≡ found_view b) }
    ensures keeps { T.relations texts.new ≡ T.relations texts.old }
    ensures failed { IsErrOf result TextFault.Failed → Rises (T.faults texts.old) (T.faults texts.new) }
    ensures counts { T.faults texts.old ≤ T.faults texts.new }
{
    match kind {
        ContentKind::Unit => Ok(told(!is_too_much(closed, members, tag, tag))),
        ContentKind::Newtype => Ok(Found::Refused),
        ContentKind::Tuple => Ok(Found::Refused),
        ContentKind::Struct => {
            let found = struct_members(
                table,
                room,
                closed,
                parts,
                None,
                Some(tag),
                members,
                texts,
            )?;
            Ok(found)
        }
    }
}

#[cycle(reading)]
fn adjacent_read<'d, 'k, T: Texts>(
    table: &TreeTable<'k>,
    room: Room,
    closed: bool,
    tag: &str,
    content: &str,
    variants: &[(VariantHead<'d>, Vec<(FieldHead<'d>, Option<Tree<'d>>)>)],
    value: &Value,
    texts: &mut T,
) -> Result<Found, TextFault>
    ensures read { IfOk result (λ b. (m : ℕ) (n : List ℕ) → comes_in (setting (table_view table.now) room.inside) (T.relations texts.old) m (item n (enum_shape closed (adjacent_tag tag.now content.now) (variants_in (adjacent_tag tag.now content.now) variants.now))) (kept_view value.now) ≡ found_view b) }
    ensures keeps { T.relations texts.new ≡ T.relations texts.old }
    ensures failed { IsErrOf result TextFault.Failed → Rises (T.faults texts.old) (T.faults texts.new) }
    ensures counts { T.faults texts.old ≤ T.faults texts.new }
{
    match object_of(value) {
        Some(members) => {
            let found = adjacent_members(
                table, room, closed, tag, content, variants, members, texts,
            )?;
            Ok(found)
        }
        None => Ok(Found::Refused),
    }
}

#[cycle(reading)]
fn adjacent_members<'d, 'k, T: Texts>(
    table: &TreeTable<'k>,
    room: Room,
    closed: bool,
    tag: &str,
    content: &str,
    variants: &[(VariantHead<'d>, Vec<(FieldHead<'d>, Option<Tree<'d>>)>)],
    members: &Map<String, Value>,
    texts: &mut T,
) -> Result<Found, TextFault>
    ensures read { IfOk result (λ b. adjacent_by (setting (table_view table.now) room.inside) (T.relations texts.old) closed tag.now content.now variants.now (members_of (members_view members.now.entries)) ≡ found_view b) }
    ensures keeps { T.relations texts.new ≡ T.relations texts.old }
    ensures failed { IsErrOf result TextFault.Failed → Rises (T.faults texts.old) (T.faults texts.new) }
    ensures counts { T.faults texts.old ≤ T.faults texts.new }
{
    match tagged(tag, variants, members) {
        Some(variant) => {
            let found = adjacent_content(
                table, room, closed, tag, content, variant, members, texts,
            )?;
            Ok(found)
        }
        None => Ok(Found::Refused),
    }
}

#[cycle(reading)]
fn adjacent_content<'d, 'k, T: Texts>(
    table: &TreeTable<'k>,
    room: Room,
    closed: bool,
    tag: &str,
    content: &str,
    variant: &(VariantHead<'d>, Vec<(FieldHead<'d>, Option<Tree<'d>>)>),
    members: &Map<String, Value>,
    texts: &mut T,
) -> Result<Found, TextFault>
    ensures read { IfOk result (λ b. adjacent_comes (setting (table_view table.now) room.inside) (T.relations texts.old) closed tag.now content.now (members_of (members_view members.now.entries)) (content_of variant.now) ≡ found_view b) }
    ensures keeps { T.relations texts.new ≡ T.relations texts.old }
    ensures failed { IsErrOf result TextFault.Failed → Rises (T.faults texts.old) (T.faults texts.new) }
    ensures counts { T.faults texts.old ≤ T.faults texts.new }
{
    if is_too_much(closed, members, tag, content) {
        return Ok(Found::Refused);
    }
    match member(members, content) {
        Some(value) => {
            let found = content_read(
                table,
                room,
                closed,
                variant.0.kind,
                &variant.1,
                value,
                texts,
            )?;
            Ok(found)
        }
        None => Ok(told(is_unit(variant.0.kind))),
    }
}

// By the first variant that takes the value.
#[cycle(reading)]
fn first_read<'d, 'k, T: Texts>(
    table: &TreeTable<'k>,
    room: Room,
    left: usize,
    closed: bool,
    variants: &[(VariantHead<'d>, Vec<(FieldHead<'d>, Option<Tree<'d>>)>)],
    value: &Value,
    texts: &mut T,
) -> Result<Found, TextFault>
    ensures read { IfOk result (λ b. (m : ℕ) → first_comes (setting (table_view table.now) room.inside) (T.relations texts.old) (left + m) closed (contents_in variants.now) (kept_view value.now) ≡ found_view b) }
    ensures keeps { T.relations texts.new ≡ T.relations texts.old }
    ensures failed { IsErrOf result TextFault.Failed → Rises (T.faults texts.old) (T.faults texts.new) }
    ensures counts { T.faults texts.old ≤ T.faults texts.new }
{
    for variant in variants {
        let found = contents_read(
            table,
            room,
            left,
            closed,
            variant.0.kind,
            &variant.1,
            value,
            texts,
        )?;
        if !is_refused(found) {
            return Ok(found);
        }
    }
    Ok(Found::Refused)
}
