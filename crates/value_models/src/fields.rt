//! Fields in order, with the table of their names.
ghost use Rattle.std.specs.Prelude.{◌≡◌, [], IfOk};
ghost use Rattle.name_tables.specs.Names.{all_entered, place_of};
ghost use Rattle.value_models.specs.FieldView.{fields_view, field_view};
ghost use Rattle.value_models.specs.Names.{field_names};

use crate::entering::enter_field;
use crate::field::Field;
use name_tables::NameTable;
use std::alloc::{AllocError, Global};

/// Fields in order, with the table of the deserialize names of those that are no rest.
#[derive(Drop)]
pub struct Fields {
    fields: Vec<Field>,
    names: NameTable,
    ghost named: { names ≡ all_entered (field_names 0 (fields_view fields.items)) [] },
}

impl Fields {
    /// The fields with their table. It fails where memory runs out.
    pub fn new(alloc: Global, fields: Vec<Field>) -> Result<Fields, AllocError>
        ensures { IfOk result (λ f. fields_view f.fields.items ≡ fields_view fields.items) }
    {
        let names = names_of(alloc, &fields)?;
        Ok(Fields { fields, names })
    }

    /// The fields, in order.
    pub fn fields(&self) -> &[Field]
        ensures { fields_view result.now ≡ fields_view self.now.fields.items }
    {
        &self.fields
    }

    /// The place of the first field, the rest aside, that has the name among its deserialize names.
    #[tactic(auto, using(crate::proofs::Tables::scanned))]
    pub fn place(&self, name: &str) -> Option<u32>
        ensures { result ≡ place_of name.now (field_names 0 (fields_view self.now.fields.items)) }
    {
        self.names.place(name)
    }
}

#[tactic(auto, using(crate::proofs::Tables::field_turn, crate::proofs::Tables::field_end))]
fn names_of(alloc: Global, fields: &[Field]) -> Result<NameTable, AllocError>
    ensures { IfOk result (λ t. t ≡ all_entered (field_names 0 (fields_view fields.now)) []) }
{
    let mut names = NameTable::new(alloc);
    for (place, field) in fields.iter().enumerate() {
        enter_field(&mut names, field, place)?;
    }
    Ok(names)
}
