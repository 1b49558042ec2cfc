//! Where references lead.
ghost use Rattle.std.specs.Prelude.{◌≡◌, ℕ, List, IfOk, OnOk, Some, None, bytes_eq, map, option_map, if◌then◌else◌};
ghost use Rattle.std.specs.BTreeMap.{get_by_text};
ghost use Rattle.entry_defs.specs.Entry.{Target as TargetD};
ghost use Rattle.entry_types.specs.View.{id_view};
ghost use Rattle.tree_types.specs.View.{target_view, target_entry};
ghost use Rattle.space_trees.specs.Filled.{led_from};
ghost use Rattle.space_trees.specs.Leading.{found_led, or_led, led_once};

use entry_space::TypeId;
use std::alloc::{AllocError, Global};
use std::collections::BTreeMap;
use tree_types::{Target, Tree};

/// The places of targets, which are the ids of their items.
#[derive(Drop)]
pub struct Led {
    pub(crate) definitions: BTreeMap<String, u32>,
    pub(crate) root: Option<u32>,
}

impl Led {
    /// No reference leads anywhere. It takes no memory.
    #[tactic(auto, using(crate::proofs::Steps::none_led))]
    pub fn new(alloc: Global) -> Led
        ensures { (q : TargetD) → found_led result q ≡ None }
    {
        Led {
            definitions: BTreeMap::new(alloc),
            root: None,
        }
    }
}

/// The id of the item that a reference leads to. It takes no memory.
#[tactic(auto, using(crate::proofs::Steps::found_by))]
pub fn led_to(led: &Led, target: &Target) -> Option<TypeId>
    ensures { option_map id_view result ≡ found_led led.now (target_view target.now) }
{
    match target {
        Target::Root => root_id(led.root),
        Target::Definition(key) => match led.definitions.get(key.as_str()) {
            Some(place) => Some(TypeId(*place)),
            None => None,
        },
    }
}

fn root_id(root: Option<u32>) -> Option<TypeId>
    ensures { option_map id_view result ≡ root }
{
    match root {
        Some(place) => Some(TypeId(place)),
        None => None,
    }
}

// The first place of a target counts.
#[tactic(auto, using(crate::proofs::Steps::kept_first, crate::proofs::Steps::added))]
fn add_definition(
    definitions: &mut BTreeMap<String, u32>,
    alloc: Global,
    key: &str,
    place: u32,
) -> Result<(), AllocError>
    ensures { OnOk result ((k : List ℕ) → get_by_text definitions.new k ≡ or_led (get_by_text definitions.old k) (if bytes_eq k key.now then Some place else None)) }
{
    if definitions.contains_key(key) {
        return Ok(());
    }
    let key = String::from_str(alloc, key)?;
    let _ = definitions.insert(key, place)?;
    Ok(())
}

fn first_place(root: Option<u32>, place: u32) -> Option<u32>
    ensures { result ≡ or_led root (Some place) }
{
    match root {
        Some(first) => Some(first),
        None => Some(place),
    }
}

#[tactic(auto, using(crate::proofs::Steps::root_added, crate::proofs::Steps::definition_added))]
fn add_target(led: &mut Led, alloc: Global, target: &Target, place: u32) -> Result<(), AllocError>
    ensures { OnOk result ((q : TargetD) → found_led led.new q ≡ or_led (found_led led.old q) (led_once (target_view target.now) place q)) }
{
    match target {
        Target::Root => {
            led.root = first_place(led.root, place);
            Ok(())
        }
        Target::Definition(key) => {
            add_definition(&mut led.definitions, alloc, key, place)?;
            Ok(())
        }
    }
}

/// The places of the targets.
#[tactic(auto, using(crate::proofs::Steps::led_begin, crate::proofs::LoopTurns::led_loop, crate::proofs::LoopTurns::led_loop_end))]
pub(crate) fn led_by<'d>(
    alloc: Global,
    targets: &Vec<(Target, Tree<'d>)>,
) -> Result<Led, AllocError>
    ensures { IfOk result (λ l. (q : TargetD) → found_led l q ≡ led_from 0 (map target_entry targets.now.items) q) }
{
    let mut led = Led::new(alloc);
    let mut place: u32 = 0;
    for target in targets {
        add_target(&mut led, alloc, &target.0, place)?;
        let Some(next) = place.checked_add(1) else {
            return Err(AllocError);
        };
        place = next;
    }
    Ok(led)
}
