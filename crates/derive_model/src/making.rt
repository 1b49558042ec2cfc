//! Modules made of items.
ghost use Rattle.std.specs.Prelude.{◌≡◌, [], None, Some, map, IfOk, IfErr};
ghost use Rattle.token_trees.specs.View.{name_view};
ghost use Rattle.syntax_trees.specs.Item.{item_view};
ghost use Rattle.conversion_table.specs.Conversions.{conversions_view};
ghost use Rattle.attr_parts.specs.Diagnostics.{diagnostics};
ghost use Rattle.attr_defs.specs.Texts.{lexed};
ghost use Rattle.container_defs.specs.Model.{model_of};
ghost use Rattle.container_defs.specs.Reader.{item_models};
ghost use Rattle.derive_ast.specs.Views.{container_view};
ghost use Rattle.evolve_defs.specs.Tables.{IsTame};
ghost use Rattle.example_laws.specs.Fitted.{IsFitted};
ghost use Rattle.form_laws.specs.Laws.{AreFit};
ghost use Rattle.value_models.specs.ContainersView.{containers_in};
ghost use Rattle.derive_model.specs.Items.{private as private_name, container_of, read_of, all_told, first_outside};
ghost use Rattle.derive_model.specs.ModuleView.{items_in, models_in, conversions_in, containers_read, IsForm, IsTold, IsWhy};

use crate::errors::ModuleError;
use crate::models::table_of;
use crate::module::Module;
use crate::outside::first_outside;
use crate::read::{Reading, private, read_all};
use attr_parts::{Ctxt, Derive, Renamer};
use conversion_table::Conversions;
use derive_ast::Container;
use item_names::ItemNames;
use std::alloc::Global;
use syntax_trees::DeriveInput;
use token_trees::Ident;
use value_kinds::ModelTable;

// What was collected is told, where there is something.
fn spent(cx: Ctxt) -> Result<(), ModuleError>
    ensures none { IfOk result (λ _. diagnostics cx ≡ []) }
    ensures err { IfErr result (IsTold (diagnostics cx)) }
{
    match cx.check() {
        Ok(()) => Ok(()),
        Err(told) => Err(ModuleError::Diagnostics(told)),
    }
}

#[tactic(auto, using(crate::proofs::Whys::none_told, crate::proofs::Whys::error_told, crate::proofs::Whys::all_read))]
fn read_items<'a, R: Renamer>(
    alloc: Global,
    items: &'a [DeriveInput],
    private: &Ident,
    renamer: &R,
) -> Result<Reading<'a>, ModuleError>
    requires { name_view private.now ≡ private_name }
    ensures written { IfOk result (λ r. map Some (map container_view r.written.items) ≡ map (container_of R.variant_name R.field_name Derive.Serialize) (map item_view items.now)) }
    ensures read { IfOk result (λ r. map Some (map container_view r.read.items) ≡ map (container_of R.variant_name R.field_name Derive.Deserialize) (map item_view items.now)) }
    ensures told { IfOk result (λ _. all_told R.variant_name R.field_name (map item_view items.now) ≡ []) }
    ensures err { IfErr result (IsTold (all_told R.variant_name R.field_name (map item_view items.now))) }
{
    let mut cx = Ctxt::new(alloc);
    match read_all(alloc, &mut cx, items, private, renamer) {
        Ok(read) => match spent(cx) {
            Ok(()) => Ok(read),
            Err(error) => {
                drop(read);
                Err(error)
            }
        },
        Err(_) => {
            drop(spent(cx));
            Err(ModuleError::Memory)
        }
    }
}

fn told_form(outside: Option<u32>) -> Result<(), ModuleError>
    ensures none { IfOk result (λ _. outside ≡ None) }
    ensures form { IfErr result (IsForm outside) }
{
    match outside {
        None => Ok(()),
        Some(item) => Err(ModuleError::Form { item }),
    }
}

// The first item outside the forms is told, if there is one.
#[tactic(auto, using(crate::proofs::Whys::inside_of, crate::proofs::Whys::form_of))]
fn check_forms<R: Renamer>(
    alloc: Global,
    names: &ItemNames<'_>,
    items: &[DeriveInput],
    conversions: &Conversions,
    read: &[Container<'_>],
    renamer: &R,
) -> Result<(), ModuleError>
    requires names { names.now.items.now ≡ items.now }
    requires read { map Some (map container_view read.now) ≡ map (read_of R.variant_name R.field_name) (map item_view items.now) }
    ensures inside { IfOk result (λ _. first_outside R.variant_name R.field_name (conversions_view conversions.now) (map item_view items.now) ≡ None) }
    ensures form { IfErr result (IsForm (first_outside R.variant_name R.field_name (conversions_view conversions.now) (map item_view items.now))) }
{
    let _items = items;
    let _renamer = renamer;
    match first_outside(alloc, names, conversions, read) {
        Ok(outside) => match told_form(outside) {
            Ok(()) => Ok(()),
            Err(error) => Err(error),
        },
        Err(_) => Err(ModuleError::Memory),
    }
}

// Items within the forms: their names, and their models.
#[derive(Drop)]
struct Formed<'a> {
    names: ItemNames<'a>,
    table: ModelTable,
}

// The first item outside the forms is told, or all are models.
#[tactic(auto, using(crate::proofs::Whys::models_of_read))]
fn formed_items<'a, R: Renamer>(
    alloc: Global,
    items: &'a [DeriveInput],
    conversions: &Conversions,
    read: &[Container<'_>],
    renamer: &R,
) -> Result<Formed<'a>, ModuleError>
    requires { map Some (map container_view read.now) ≡ map (read_of R.variant_name R.field_name) (map item_view items.now) }
    ensures items { IfOk result (λ m. m.names.items.now ≡ items.now) }
    ensures models { IfOk result (λ m. containers_in m.table.containers ≡ item_models lexed R.variant_name R.field_name private_name Derive.Deserialize (map item_view items.now)) }
    ensures inside { IfOk result (λ _. first_outside R.variant_name R.field_name (conversions_view conversions.now) (map item_view items.now) ≡ None) }
    ensures form { IfErr result (IsForm (first_outside R.variant_name R.field_name (conversions_view conversions.now) (map item_view items.now))) }
{
    match ItemNames::new(alloc, items) {
        Ok(names) => match check_forms(alloc, &names, items, conversions, read, renamer) {
            Ok(()) => match table_of(alloc, read) {
                Ok(table) => Ok(Formed { names, table }),
                Err(_) => {
                    drop(names);
                    Err(ModuleError::Memory)
                }
            },
            Err(error) => {
                drop(names);
                Err(error)
            }
        },
        Err(_) => Err(ModuleError::Memory),
    }
}

// What was formed, with what was read.
fn module_of<'a>(
    alloc: Global,
    conversions: &'a Conversions,
    formed: Formed<'a>,
    reading: Reading<'a>,
) -> Module<'a>
    requires fit { AreFit (containers_in formed.table.containers) }
    requires tame { IsTame (containers_in formed.table.containers) }
    requires fitted { IsFitted (containers_in formed.table.containers) (conversions_view conversions.now) }
    ensures items { items_in result ≡ map item_view formed.entry.names.items.now }
    ensures conversions { conversions_in result ≡ conversions_view conversions.now }
    ensures models { models_in result ≡ containers_in formed.entry.table.containers }
    ensures written { containers_read result Derive.Serialize ≡ map container_view reading.entry.written.items }
    ensures read { containers_read result Derive.Deserialize ≡ map container_view reading.entry.read.items }
{
    let Formed { names, table } = formed;
    let Reading { written, read } = reading;
    Module {
        alloc,
        table,
        names,
        conversions,
        written,
        read,
    }
}

impl<'a> Module<'a> {
    /// Reads the items for both derives, Serialize before Deserialize. Where something is wrong with some item's attributes, all that is
    /// is told, item by item; else the first item that leaves the forms of the reader; else there is a module.
    #[tactic(auto, using(crate::proofs::Whys::why_told, crate::proofs::Whys::why_form, crate::proofs::Whys::fit_models, crate::proofs::Whys::tame_models, crate::proofs::Whys::fitted_models, crate::proofs::Whys::by_derive))]
    pub fn new<R: Renamer>(
        alloc: Global,
        items: &'a [DeriveInput],
        conversions: &'a Conversions,
        renamer: &R,
    ) -> Result<Module<'a>, ModuleError>
        ensures items { IfOk result (λ m. items_in m ≡ map item_view items.now) }
        ensures conversions { IfOk result (λ m. conversions_in m ≡ conversions_view conversions.now) }
        ensures models { IfOk result (λ m. models_in m ≡ item_models lexed R.variant_name R.field_name private_name Derive.Deserialize (map item_view items.now)) }
        ensures containers { IfOk result (λ m. (d : Derive) → map Some (containers_read m d) ≡ map (λ i. model_of lexed R.variant_name R.field_name private_name i d) (map item_view items.now)) }
        ensures told { IfOk result (λ _. all_told R.variant_name R.field_name (map item_view items.now) ≡ []) }
        ensures inside { IfOk result (λ _. first_outside R.variant_name R.field_name (conversions_view conversions.now) (map item_view items.now) ≡ None) }
        ensures err { IfErr result (IsWhy R.variant_name R.field_name (conversions_view conversions.now) (map item_view items.now)) }
    {
        match private(alloc) {
            Ok(private) => match read_items(alloc, items, &private, renamer) {
                Ok(reading) => match formed_items(
                    alloc,
                    items,
                    conversions,
                    &reading.read,
                    renamer,
                ) {
                    Ok(formed) => Ok(module_of(alloc, conversions, formed, reading)),
                    Err(error) => {
                        drop(reading);
                        Err(error)
                    }
                },
                Err(error) => Err(error),
            },
            Err(_) => Err(ModuleError::Memory),
        }
    }
}
