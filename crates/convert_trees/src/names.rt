//! Wanted names.
ghost use Rattle.std.specs.Prelude.{◌≡◌, [], codes, option_map, string_bytes};
ghost use Rattle.schema_types.specs.View.{object_view, schema_view};
ghost use Rattle.convert_defs.specs.Convert.{named_by, root_name as root_name_of};
ghost use Rattle.convert_defs.specs.Standing.{wanted, words_or};
ghost use Rattle.row_findings.specs.Given.{source_view};

use row_findings::Source;
use schema_tree::{Schema, SchemaObject};

fn words<'d>(title: Option<&'d String>, or: &'d str) -> &'d str
    ensures { result.now ≡ words_or (option_map (λ t. string_bytes t.now) title.entry) or.now }
{
    match title {
        Some(title) => title.as_str(),
        None => or,
    }
}

fn title_or<'d>(title: &'d Option<String>, or: &'d str) -> &'d str
    ensures { result.now ≡ words_or (option_map string_bytes title.now) or.now }
{
    match title {
        Some(title) => title.as_str(),
        None => or,
    }
}

fn wanted_by_object(schema: &SchemaObject) -> &str
    ensures { result.now ≡ wanted (object_view schema.now) }
{
    title_or(&schema.title, "")
}

fn wanted_by_schema(schema: &Schema) -> &str
    ensures { result.now ≡ wanted (schema_view schema.now) }
{
    match schema {
        Schema::Bool(_) => "",
        Schema::Object(object) => wanted_by_object(object),
    }
}

fn wanted_by<'d>(source: &Source<'d>) -> &'d str
    ensures { result.now ≡ wanted (source_view source.now) }
{
    match source {
        Source::Written(schema) => wanted_by_schema(*schema),
        Source::Bool(_) => "",
        Source::Made(keywords) => words(keywords.title, ""),
    }
}

/// The name that is handed down, or else the title; no text where there is none. It takes no memory.
pub fn named<'d>(handed: Option<&'d str>, source: &Source<'d>) -> &'d str
    ensures { result.now ≡ named_by (option_map (λ n. n.now) handed.entry) (source_view source.now) }
{
    match handed {
        Some(name) => name,
        None => wanted_by(source),
    }
}

fn root_name_by_object(schema: &SchemaObject) -> &str
    ensures { result.now ≡ root_name_of (object_view schema.now) }
{
    title_or(&schema.title, "Root")
}

/// The wanted name of the root's item: its title, or `Root`. It takes no memory.
pub fn root_name(schema: &Schema) -> &str
    ensures { result.now ≡ root_name_of (schema_view schema.now) }
{
    match schema {
        Schema::Bool(_) => "Root",
        Schema::Object(object) => root_name_by_object(object),
    }
}
