//! The names of items, each entered in a table.
ghost use Rattle.std.specs.Prelude.{◌≡◌, [], map, filter, bytes_eq, IfOk, OnOk};
ghost use Rattle.std.specs.List.{list_any};
ghost use Rattle.syntax_trees.specs.Item.{item_view};
ghost use Rattle.name_tables.specs.Names.{all_entered, entered as entered_in};
ghost use Rattle.value_models.specs.Names.{at_one_place};
ghost use Rattle.container_defs.specs.Checks.{is_one};
ghost use Rattle.container_defs.specs.Forms.{names_of};
ghost use Rattle.item_names.specs.Again.{is_entered, entered_again, AreCounted};

use name_tables::NameTable;
use std::alloc::{AllocError, Global};
use syntax_trees::DeriveInput;

/// Items, with the table of their names and that of the names that several have.
#[derive(Drop)]
pub struct ItemNames<'a> {
    items: &'a [DeriveInput],
    names: NameTable,
    again: NameTable,
    ghost entered: { names ≡ all_entered (at_one_place 0 (names_of (map item_view items.now))) [] },
    ghost counted: { AreCounted (names_of (map item_view items.now)) names again },
}

impl<'a> ItemNames<'a> {
    /// The items with their tables. It fails where memory runs out.
    pub fn new(alloc: Global, items: &'a [DeriveInput]) -> Result<ItemNames<'a>, AllocError>
        ensures { IfOk result (λ n. n.items.now ≡ items.now) }
    {
        let NameTables { names, again } = entered(alloc, items)?;
        Ok(ItemNames {
            items,
            names,
            again,
        })
    }

    /// Whether an item has the name. It takes no memory.
    #[tactic(auto, using(crate::proofs::EnteredNames::found))]
    pub fn has(&self, name: &str) -> bool
        ensures { result ≡ list_any (bytes_eq name.now) (names_of (map item_view self.now.items.now)) }
    {
        self.names.place(name).is_some()
    }

    /// Whether one item alone has the name. It takes no memory.
    #[tactic(auto, using(crate::proofs::Counted::single))]
    pub fn is_single(&self, name: &str) -> bool
        ensures { result ≡ is_one (filter (bytes_eq name.now) (names_of (map item_view self.now.items.now))) }
    {
        is_entered(&self.names, name) && !is_entered(&self.again, name)
    }
}

// The names of items, and those that come again.
#[derive(Drop)]
struct NameTables {
    names: NameTable,
    again: NameTable,
}

#[tactic(auto, using(crate::proofs::EnteredNames::item_end, crate::proofs::Counted::count_begins, crate::proofs::Counted::count_end))]
fn entered(alloc: Global, items: &[DeriveInput]) -> Result<NameTables, AllocError>
    ensures names { IfOk result (λ t. t.names ≡ all_entered (at_one_place 0 (names_of (map item_view items.now))) []) }
    ensures counted { IfOk result (λ t. AreCounted (names_of (map item_view items.now)) t.names t.again) }
{
    let mut names = NameTable::new(alloc);
    let mut again = NameTable::new(alloc);
    for item in items {
        enter(&mut names, &mut again, name_of(item))?;
    }
    Ok(NameTables { names, again })
}

fn is_entered(names: &NameTable, name: &str) -> bool
    ensures { result ≡ is_entered name.now names.now }
{
    names.place(name).is_some()
}

// A name that is there comes again.
#[tactic(auto, using(crate::proofs::Counted::there, crate::proofs::Counted::there_again, crate::proofs::Counted::not_again))]
fn enter(names: &mut NameTable, again: &mut NameTable, name: &str) -> Result<(), AllocError>
    ensures names { OnOk result (names.new ≡ entered_in name.now 0 names.old) }
    ensures again { OnOk result (again.new ≡ entered_again name.now names.old again.old) }
{
    if is_entered(names, name) {
        again.insert(name, 0)?;
        return Ok(());
    }
    names.insert(name, 0)?;
    Ok(())
}

fn name_of(item: &DeriveInput) -> &str
    ensures { result.now ≡ (item_view item.now).name.text }
{
    item.ident.text.as_str()
}
