//! The models of containers.
ghost use Rattle.std.specs.Prelude.{◌≡◌, map, IfOk};
ghost use Rattle.container_defs.specs.Reader.{reader_model};
ghost use Rattle.derive_ast.specs.Views.{container_view};
ghost use Rattle.value_models.specs.ContainerView.{containers_view};
ghost use Rattle.value_models.specs.ContainersView.{containers_in};

use derive_ast::Container;
use item_models::model_of_container;
use std::alloc::{AllocError, Global};
use value_kinds::ModelTable;
use value_models::Containers;

#[tactic(auto, using(crate::proofs::Modelled::modelled_on, crate::proofs::Modelled::all_modelled))]
fn models_of(
    alloc: Global,
    read: &[Container<'_>],
) -> Result<Vec<value_models::Container>, AllocError>
    ensures { IfOk result (λ v. containers_view v.items ≡ map reader_model (map container_view read.now)) }
{
    let mut models = Vec::new(alloc);
    for container in read {
        let model = model_of_container(alloc, container)?;
        models.push(model)?;
    }
    Ok(models)
}

/// The models of containers, with the table of their names and what they ask of one value.
pub(crate) fn table_of(alloc: Global, read: &[Container<'_>]) -> Result<ModelTable, AllocError>
    ensures { IfOk result (λ t. containers_in t.containers ≡ map reader_model (map container_view read.now)) }
{
    let models = models_of(alloc, read)?;
    let containers = Containers::new(alloc, models)?;
    let table = ModelTable::new(alloc, containers)?;
    Ok(table)
}
