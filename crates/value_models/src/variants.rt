//! Variants in order, with the table of their names.
ghost use Rattle.std.specs.Prelude.{◌≡◌, [], IfOk};
ghost use Rattle.name_tables.specs.Names.{all_entered, place_of};
ghost use Rattle.value_models.specs.VariantView.{variants_view};
ghost use Rattle.value_models.specs.Names.{variant_names};

use crate::entering::enter_variant;
use crate::variant::Variant;
use name_tables::NameTable;
use std::alloc::{AllocError, Global};

/// Variants in order, with the table of their deserialize names.
#[derive(Drop)]
pub struct Variants {
    variants: Vec<Variant>,
    names: NameTable,
    ghost named: { names ≡ all_entered (variant_names 0 (variants_view variants.items)) [] },
}

impl Variants {
    /// The variants with their table. It fails where memory runs out.
    pub fn new(alloc: Global, variants: Vec<Variant>) -> Result<Variants, AllocError>
        ensures { IfOk result (λ w. variants_view w.variants.items ≡ variants_view variants.items) }
    {
        let names = names_of(alloc, &variants)?;
        Ok(Variants { variants, names })
    }

    /// The variants, in order.
    pub fn variants(&self) -> &[Variant]
        ensures { variants_view result.now ≡ variants_view self.now.variants.items }
    {
        &self.variants
    }

    /// The place of the first variant that has the name among its deserialize names.
    #[tactic(auto, using(crate::proofs::Tables::scanned))]
    pub fn place(&self, name: &str) -> Option<u32>
        ensures { result ≡ place_of name.now (variant_names 0 (variants_view self.now.variants.items)) }
    {
        self.names.place(name)
    }
}

#[tactic(auto, using(crate::proofs::Tables::variant_turn, crate::proofs::Tables::variant_end))]
fn names_of(alloc: Global, variants: &[Variant]) -> Result<NameTable, AllocError>
    ensures { IfOk result (λ t. t ≡ all_entered (variant_names 0 (variants_view variants.now)) []) }
{
    let mut names = NameTable::new(alloc);
    for (place, variant) in variants.iter().enumerate() {
        enter_variant(&mut names, variant, place)?;
    }
    Ok(names)
}
