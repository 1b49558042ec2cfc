//! Defaults that aren't read.
ghost use Rattle.std.specs.Prelude.{◌≡◌, ◌≤◌, ◌&&◌, not, filter, [], ◌∷◌, Some, IfErr, IfOk, option_map};
ghost use Rattle.json_value.specs.Value.{Value as ValueOf};
ghost use Rattle.schema_defs.specs.Schema.{Schema as SchemaOf};
ghost use Rattle.schema_defs.specs.Texts.{Relations};
ghost use Rattle.json_value.specs.View.{kept_view as value_kept};
ghost use Rattle.schema_types.specs.View.{object_view, schema_view};
ghost use Rattle.schema_tree.specs.Fault.{fault_view};
ghost use Rattle.convert_defs.specs.Owners.{default_of as default_in};
ghost use Rattle.convert_defs.specs.Row.{leaf_row};
ghost use Rattle.convert_defs.specs.Values.{fits_row as fits_row_of, keeps_bounds as keeps_bounds_of};
ghost use Rattle.row_findings.specs.Given.{keywords_view, source_view};
ghost use Rattle.row_findings.specs.View.{leaf_view, row_view};
ghost use Rattle.tree_types.specs.View.{table_view, tree_view};
ghost use Rattle.merged_rows.specs.Starts.{path_by};
ghost use Rattle.listed_reading.specs.Unread.{first_of as first_value};
ghost use Rattle.convert_trees.specs.Keeping.{values_view};
ghost use Rattle.convert_trees.specs.Told.{NoAnswer};
ghost use Rattle.convert_trees.specs.Unread.{fits_by, is_given as is_given_of, stated_default};

use crate::faults::text_fault;
use crate::keeping::Values;
use crate::scope::Scope;
use default_reading::{default_found, is_ended};
use integer_rows::is_bounded;
use row_findings::{Keywords, Leaf, Row, Source, Steps, keywords_of};
use schema_tree::{Fault, Texts};
use schema_types::{Schema, SchemaObject};
use serde_json::Value;
use tree_types::{Tree, TreeTable};

// The default that a schema states.
fn default_of<'d>(source: &Source<'d>) -> Option<&'d Value>
    ensures { option_map (λ v. value_kept v.now) result ≡ default_in (source_view source.now) }
{
    match source {
        Source::Written(schema) => default_of_schema(*schema),
        Source::Bool(_) => None,
        Source::Made(keywords) => keywords.default,
    }
}

fn default_of_schema(schema: &Schema) -> Option<&Value>
    ensures { option_map (λ v. value_kept v.now) result ≡ default_in (schema_view schema.now) }
{
    match schema {
        Schema::Bool(_) => None,
        Schema::Object(object) => default_of_object(object),
    }
}

fn default_of_object(object: &SchemaObject) -> Option<&Value>
    ensures { option_map (λ v. value_kept v.now) result ≡ default_in (object_view object.now) }
{
    object.default.as_ref()
}

// Whether the value, where it is a number, lies within the bounds that the keywords give.
fn is_within(keywords: &Keywords<'_>, value: &Value) -> bool
    ensures { result ≡ keeps_bounds_of (keywords_view keywords.now) (value_kept value.now) }
{
    match value {
        Value::Number(number) => match number.as_i128() {
            Some(whole) => is_bounded(keywords, whole),
            None => true,
        },
        _ => true,
    }
}

fn is_within_object(object: &SchemaObject, value: &Value) -> bool
    ensures { result ≡ keeps_bounds_of (object_view object.now) (value_kept value.now) }
{
    let keywords = keywords_of(object);
    is_within(&keywords, value)
}

fn is_within_schema(schema: &Schema, value: &Value) -> bool
    ensures { result ≡ keeps_bounds_of (schema_view schema.now) (value_kept value.now) }
{
    match schema {
        Schema::Bool(_) => true,
        Schema::Object(object) => is_within_object(object, value),
    }
}

fn keeps_bounds(source: &Source<'_>, value: &Value) -> bool
    ensures { result ≡ keeps_bounds_of (source_view source.now) (value_kept value.now) }
{
    match source {
        Source::Written(schema) => is_within_schema(*schema, value),
        Source::Bool(_) => true,
        Source::Made(keywords) => is_within(keywords, value),
    }
}

#[tactic(auto, using(crate::proofs::Fitting::listed_fits))]
fn is_integer_leaf(leaf: &Leaf<'_>) -> bool
    ensures { (r : Relations) (s : SchemaOf) (v : ValueOf) → fits_row_of (leaf_row (leaf_view r leaf.now)) s v ≡ fits_by result s v }
{
    match leaf {
        Leaf::Integer(_) => true,
        Leaf::Bool => false,
        Leaf::Text => false,
        Leaf::Ruled { title: _, texts: _ } => false,
        Leaf::Native(_) => false,
        Leaf::Any => false,
        Leaf::Unit => false,
        Leaf::Listed {
            title: _,
            values: _,
            texts: _,
        } => false,
        Leaf::Constant {
            title: _,
            text: _,
            texts: _,
        } => false,
        Leaf::Never { title: _ } => false,
    }
}

// Whether the row is that of integers.
#[tactic(auto, using(crate::proofs::Fitting::reference_fits))]
fn is_integer(row: &Row<'_>) -> bool
    ensures { (r : Relations) (s : SchemaOf) (v : ValueOf) → fits_row_of (row_view r row.now) s v ≡ fits_by result s v }
{
    match row {
        Row::Leaf(leaf) => is_integer_leaf(leaf),
        Row::Reference(_) => false,
        Row::AsItIs(_) => false,
        Row::Option(_) => false,
        Row::Ruled(_, _) => false,
        Row::Vec(_) => false,
        Row::Set(_) => false,
        Row::Array(_, _) => false,
        Row::Tuple {
            listed: _,
            more: _,
            rest: _,
        } => false,
        Row::Map(_, _) => false,
        Row::PatternMap(_, _) => false,
        Row::Struct {
            closed: _,
            fields: _,
            outside: _,
        } => false,
        Row::Enum {
            tag: _,
            closing: _,
            variants: _,
        } => false,
        Row::Merged(_) => false,
        Row::Refused(_) => false,
    }
}

// An integer's default lies within its bounds.
#[tactic(auto, using(crate::proofs::Fitting::fits_integer, crate::proofs::Fitting::fits_elsewhere))]
fn fits_row(source: &Source<'_>, row: &Row<'_>, value: &Value) -> bool
    ensures { (r : Relations) → fits_row_of (row_view r row.now) (source_view source.now) (value_kept value.now) ≡ result }
{
    if is_integer(row) {
        return keeps_bounds(source, value);
    }
    true
}

// Whether the tree reads the default by the table, within an integer's bounds, and what it leaves out comes to an end.
fn is_given_by<'d, T: Texts>(
    scope: &Scope<'d, '_>,
    texts: &mut T,
    trail: &Vec<Steps<'d>>,
    table: &TreeTable<'_>,
    source: &Source<'d>,
    row: &Row<'d>,
    tree: &Tree<'d>,
    value: &Value,
) -> Result<bool, Fault>
    ensures given { IfOk result (λ b. is_given_of (T.relations texts.old) (Some (table_view table.now)) (source_view source.now) (row_view (T.relations texts.old) row.now) (tree_view tree.now) (value_kept value.now) ≡ b) }
    ensures refused { IfErr result (λ f. NoAnswer (path_by scope.now.start.now trail.now.items ∷ []) (T.faults texts.old) (T.faults texts.new) (fault_view f)) }
    ensures keeps { T.relations texts.new ≡ T.relations texts.old }
    ensures counts { T.faults texts.old ≤ T.faults texts.new }
{
    match default_found(table, tree, value, texts) {
        Ok(found) => Ok(is_ended(found) && fits_row(source, row, value)),
        Err(fault) => Err(text_fault(scope, trail, fault)),
    }
}

// The same by what is known.
fn is_given<'d, T: Texts>(
    scope: &Scope<'d, '_>,
    texts: &mut T,
    trail: &Vec<Steps<'d>>,
    values: &Values<'d, '_, '_>,
    source: &Source<'d>,
    row: &Row<'d>,
    tree: &Tree<'d>,
    value: &Value,
) -> Result<bool, Fault>
    ensures given { IfOk result (λ b. is_given_of (T.relations texts.old) (values_view values.now).known (source_view source.now) (row_view (T.relations texts.old) row.now) (tree_view tree.now) (value_kept value.now) ≡ b) }
    ensures refused { IfErr result (λ f. NoAnswer (path_by scope.now.start.now trail.now.items ∷ []) (T.faults texts.old) (T.faults texts.new) (fault_view f)) }
    ensures keeps { T.relations texts.new ≡ T.relations texts.old }
    ensures counts { T.faults texts.old ≤ T.faults texts.new }
{
    match values.known {
        Some(table) => is_given_by(scope, texts, trail, table, source, row, tree, value),
        None => Ok(false),
    }
}

/// The default that a schema states, where its tree doesn't read it.
#[tactic(auto, using(crate::proofs::Fitting::none_stated, crate::proofs::Fitting::one_given, crate::proofs::Fitting::one_left))]
pub fn unread_default<'d, T: Texts>(
    scope: &Scope<'d, '_>,
    texts: &mut T,
    trail: &Vec<Steps<'d>>,
    values: &Values<'d, '_, '_>,
    source: &Source<'d>,
    row: &Row<'d>,
    tree: &Tree<'d>,
) -> Result<Option<&'d Value>, Fault>
    ensures found { IfOk result (λ o. first_value (filter (λ v. not (is_given_of (T.relations texts.old) (values_view values.now).known (source_view source.now) (row_view (T.relations texts.old) row.now) (tree_view tree.now) v)) (stated_default (default_in (source_view source.now)))) ≡ option_map (λ v. value_kept v.now) o) }
    ensures refused { IfErr result (λ f. NoAnswer (path_by scope.now.start.now trail.now.items ∷ []) (T.faults texts.old) (T.faults texts.new) (fault_view f)) }
    ensures keeps { T.relations texts.new ≡ T.relations texts.old }
    ensures counts { T.faults texts.old ≤ T.faults texts.new }
{
    match default_of(source) {
        Some(value) => {
            if is_given(scope, texts, trail, values, source, row, tree, value)? {
                return Ok(None);
            }
            Ok(Some(value))
        }
        None => Ok(None),
    }
}
