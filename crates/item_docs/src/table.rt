//! Items and docs, looked up by their names.
ghost use Rattle.std.specs.Prelude.{◌≡◌, [], map, option_map, IfOk, OnOk};
ghost use Rattle.syntax_trees.specs.Item.{item_view};
ghost use Rattle.name_tables.specs.Names.{all_entered, entered, place_of};
ghost use Rattle.module_texts.specs.Docs.{doc_view};
ghost use Rattle.item_docs.specs.Forms.{first_named, item_at};
ghost use Rattle.item_docs.specs.Places.{places_from};

use module_texts::ItemDoc;
use name_tables::NameTable;
use std::alloc::{AllocError, Global};
use syntax_trees::DeriveInput;

// A table holds a place as a u32: there is no memory for more.
fn enter(names: &mut NameTable, name: &str, place: usize) -> Result<(), AllocError>
    ensures { OnOk result (names.new ≡ entered name.now place names.old) }
{
    match u32::try_from(place) {
        Ok(place) => {
            names.insert(name, place)?;
            Ok(())
        }
        Err(_) => Err(AllocError),
    }
}

#[tactic(auto, using(crate::proofs::Tables::item_turn, crate::proofs::Tables::item_end))]
fn names_of_items(alloc: Global, items: &[DeriveInput]) -> Result<NameTable, AllocError>
    ensures { IfOk result (λ t. t ≡ all_entered (places_from (λ i. i.name.text) 0 (map item_view items.now)) []) }
{
    let mut names = NameTable::new(alloc);
    for (place, item) in items.iter().enumerate() {
        enter(&mut names, &item.ident.text, place)?;
    }
    Ok(names)
}

#[tactic(auto, using(crate::proofs::Tables::doc_turn, crate::proofs::Tables::doc_end))]
fn names_of_docs(alloc: Global, docs: &[ItemDoc]) -> Result<NameTable, AllocError>
    ensures { IfOk result (λ t. t ≡ all_entered (places_from (λ x. x.item) 0 (map doc_view docs.now)) []) }
{
    let mut names = NameTable::new(alloc);
    for (place, doc) in docs.iter().enumerate() {
        enter(&mut names, &doc.item, place)?;
    }
    Ok(names)
}

/// Items with the table of their names.
#[derive(Drop)]
pub(crate) struct Items<'a> {
    items: &'a [DeriveInput],
    names: NameTable,
    ghost named: { names ≡ all_entered (places_from (λ i. i.name.text) 0 (map item_view items.now)) [] },
}

impl<'a> Items<'a> {
    /// The items with their table. It fails where memory runs out.
    pub(crate) fn new(alloc: Global, items: &'a [DeriveInput]) -> Result<Items<'a>, AllocError>
        ensures { IfOk result (λ t. t.items.now ≡ items.now) }
    {
        let names = names_of_items(alloc, items)?;
        Ok(Items { items, names })
    }

    #[tactic(auto, using(crate::proofs::Tables::scanned))]
    fn place(&self, name: &str) -> Option<u32>
        ensures { result ≡ place_of name.now (places_from (λ i. i.name.text) 0 (map item_view self.now.items.now)) }
    {
        self.names.place(name)
    }

    /// The first item of that name.
    #[tactic(auto, using(crate::proofs::Tables::item_found, crate::proofs::Tables::item_missing))]
    pub(crate) fn item(&self, name: &str) -> Option<&'a DeriveInput>
        ensures { option_map (λ i. item_view i.now) result ≡ item_at (map item_view self.now.items.now) name.now }
    {
        match self.place(name) {
            Some(place) => self.items.get(place as usize),
            None => None,
        }
    }
}

/// Docs with the table of their items' names.
#[derive(Drop)]
pub(crate) struct Docs<'a> {
    docs: &'a [ItemDoc],
    names: NameTable,
    ghost named: { names ≡ all_entered (places_from (λ x. x.item) 0 (map doc_view docs.now)) [] },
}

impl<'a> Docs<'a> {
    /// The docs with their table. It fails where memory runs out.
    pub(crate) fn new(alloc: Global, docs: &'a [ItemDoc]) -> Result<Docs<'a>, AllocError>
        ensures { IfOk result (λ t. t.docs.now ≡ docs.now) }
    {
        let names = names_of_docs(alloc, docs)?;
        Ok(Docs { docs, names })
    }

    #[tactic(auto, using(crate::proofs::Tables::scanned))]
    fn place(&self, name: &str) -> Option<u32>
        ensures { result ≡ place_of name.now (places_from (λ x. x.item) 0 (map doc_view self.now.docs.now)) }
    {
        self.names.place(name)
    }

    /// The first doc of that item.
    #[tactic(auto, using(crate::proofs::Tables::doc_found, crate::proofs::Tables::doc_missing))]
    pub(crate) fn doc(&self, item: &str) -> Option<&'a ItemDoc>
        ensures { option_map (λ x. doc_view x.now) result ≡ first_named (λ x. x.item) item.now (map doc_view self.now.docs.now) }
    {
        match self.place(item) {
            Some(place) => self.docs.get(place as usize),
            None => None,
        }
    }
}
