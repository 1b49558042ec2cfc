//! Refusals that are kept, and told again.
ghost use Rattle.std.specs.Prelude.{◌≡◌, ◌⊎◌, None, Some, IfErr, OnOk, option_map};
ghost use Rattle.schema_tree.specs.Fault.{fault_view, memory};
ghost use Rattle.typify_convert.specs.Refused.{IsOrMemory, IsToldAgain};

use schema_tree::Fault;
use std::alloc::Global;

fn copy_of(alloc: Global, fault: &Fault) -> Fault
    ensures { IsOrMemory (fault_view fault.now) (fault_view result) }
{
    match fault.try_clone(alloc) {
        Ok(copy) => copy,
        Err(_) => Fault::Memory,
    }
}

/// Keeps a fault, and tells it; want of memory, where there is none to keep it in.
pub(crate) fn keep(alloc: Global, refusal: &mut Option<Fault>, fault: Fault) -> Fault
    ensures kept { option_map fault_view refusal.new ≡ Some (fault_view result) }
    ensures told { IsOrMemory (fault_view fault) (fault_view result) }
{
    match fault.try_clone(alloc) {
        Ok(copy) => {
            *refusal = Some(copy);
            fault
        }
        Err(_) => {
            *refusal = Some(Fault::Memory);
            Fault::Memory
        }
    }
}

fn told_before(alloc: Global, refusal: &Option<Fault>) -> Option<Fault>
    ensures { IsToldAgain (option_map fault_view refusal.now) (option_map fault_view result) }
{
    match refusal {
        Some(fault) => Some(copy_of(alloc, fault)),
        None => None,
    }
}

/// Tells again what was refused before, if anything was.
pub(crate) fn check(alloc: Global, refusal: &mut Option<Fault>) -> Result<(), Fault>
    ensures before { OnOk result (option_map fault_view refusal.old ≡ None) }
    ensures after { OnOk result (option_map fault_view refusal.new ≡ None) }
    ensures told { IfErr result (λ f. (fault_view f ≡ memory) ⊎ (option_map fault_view refusal.old ≡ Some (fault_view f))) }
    ensures kept { IfErr result (λ f. option_map fault_view refusal.new ≡ Some (fault_view f)) }
{
    match told_before(alloc, refusal) {
        None => Ok(()),
        Some(fault) => Err(keep(alloc, refusal, fault)),
    }
}
