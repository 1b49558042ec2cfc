//! Items as a table of containers, with a stand-in for each that has no model.
ghost use Rattle.std.specs.Prelude.{◌≡◌, map, IfOk};
ghost use Rattle.token_trees.specs.View.{name_view};
ghost use Rattle.syntax_trees.specs.Item.{item_view};
ghost use Rattle.conversion_table.specs.Conversions.{conversions_view};
ghost use Rattle.container_defs.specs.Forms.{names_of};
ghost use Rattle.derive_ast.specs.Views.{container_view as read_view};
ghost use Rattle.derive_model.specs.Items.{private as private_name};
ghost use Rattle.value_models.specs.ContainerView.{container_view, containers_view};
ghost use Rattle.value_models.specs.ContainersView.{containers_in};
ghost use Rattle.describe_defs.specs.NotPlain.{outside_item as outside_item_of};
ghost use Rattle.model_describe.specs.Described.{described_model, described_models, inside_or};

use crate::reading::{private, read_item};
use conversion_table::Conversions;
use derive_ast::Container as ReadContainer;
use item_causes::is_outside;
use item_models::model_of_container;
use item_names::ItemNames;
use std::alloc::{AllocError, Global};
use syntax_trees::DeriveInput;
use token_trees::Ident;
use value_kinds::ModelTable;
use value_models::{Body, Container, Containers, Fields, Style};

// What stands for an item that has no model.
fn outside_item(alloc: Global, name: &str) -> Result<Container, AllocError>
    ensures { IfOk result (λ m. container_view m ≡ outside_item_of name.now) }
{
    let fields = Fields::new(alloc, Vec::new(alloc))?;
    Ok(Container {
        name: String::from_str(alloc, name)?,
        transparent: false,
        try_from: false,
        closed: false,
        body: Body::Struct(Style::Unit, fields),
    })
}

// The model of a container, where it is within the forms.
#[tactic(auto, using(crate::proofs::Read::is_inside, crate::proofs::Read::is_left))]
fn inside_model(
    alloc: Global,
    names: &ItemNames<'_>,
    conversions: &Conversions,
    name: &str,
    container: &ReadContainer<'_>,
) -> Result<Container, AllocError>
    ensures { IfOk result (λ m. container_view m ≡ inside_or (names_of (map item_view names.now.items.now)) (conversions_view conversions.now) name.now (read_view container.now)) }
{
    if is_outside(alloc, names, conversions, container)? {
        let model = outside_item(alloc, name)?;
        return Ok(model);
    }
    let model = model_of_container(alloc, container)?;
    Ok(model)
}

// The model of an item, or what stands for it.
fn item_model(
    alloc: Global,
    names: &ItemNames<'_>,
    conversions: &Conversions,
    item: &DeriveInput,
    private: &Ident,
) -> Result<Container, AllocError>
    requires { name_view private.now ≡ private_name }
    ensures { IfOk result (λ m. container_view m ≡ described_model (names_of (map item_view names.now.items.now)) (conversions_view conversions.now) (item_view item.now)) }
{
    match read_item(alloc, item, private)? {
        Some(container) => {
            let model = inside_model(alloc, names, conversions, &item.ident.text, &container)?;
            Ok(model)
        }
        None => {
            let model = outside_item(alloc, &item.ident.text)?;
            Ok(model)
        }
    }
}

#[tactic(auto, using(crate::proofs::Modelled::one_more, crate::proofs::Modelled::no_more))]
fn models_of(
    alloc: Global,
    names: &ItemNames<'_>,
    conversions: &Conversions,
    items: &[DeriveInput],
    private: &Ident,
) -> Result<Vec<Container>, AllocError>
    requires { name_view private.now ≡ private_name }
    ensures { IfOk result (λ v. containers_view v.items ≡ map (described_model (names_of (map item_view names.now.items.now)) (conversions_view conversions.now)) (map item_view items.now)) }
{
    let mut models = Vec::new(alloc);
    for item in items {
        models.push(item_model(alloc, names, conversions, item, private)?)?;
    }
    Ok(models)
}

#[tactic(auto, using(crate::proofs::Modelled::by_names))]
fn containers_of(
    alloc: Global,
    items: &[DeriveInput],
    conversions: &Conversions,
) -> Result<Containers, AllocError>
    ensures { IfOk result (λ m. containers_in m ≡ described_models (conversions_view conversions.now) (map item_view items.now)) }
{
    let private = private(alloc)?;
    let names = ItemNames::new(alloc, items)?;
    let models = models_of(alloc, &names, conversions, items, &private)?;
    let containers = Containers::new(alloc, models)?;
    Ok(containers)
}

/// Items as a table: what is read of each for Deserialize, with a stand-in for an item of which something is told or that
/// leaves the forms of the reader. It fails where memory runs out.
pub(crate) fn table_of(
    alloc: Global,
    items: &[DeriveInput],
    conversions: &Conversions,
) -> Result<ModelTable, AllocError>
    ensures { IfOk result (λ t. containers_in t.containers ≡ described_models (conversions_view conversions.now) (map item_view items.now)) }
{
    let containers = containers_of(alloc, items, conversions)?;
    let table = ModelTable::new(alloc, containers)?;
    Ok(table)
}
