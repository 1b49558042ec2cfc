//! What holds of rules, names and types without groups: each law of definitions is the contract of a function that does nothing.
ghost use Rattle.std.specs.Prelude.{◌≡◌, ◌↔◌, IsTrue};
ghost use Rattle.std.specs.Ordering.{nat_cmp};
ghost use Rattle.std.specs.Cmp.Lexicographic.{slice_cmp};
ghost use Rattle.attr_parts.specs.Names.{attr_name};
ghost use Rattle.attr_parts.specs.Laws.{OrIsAssociative, NoneIsUnit, NamesAreRead, UngroupedIsNoGroup, UngroupedStays};

use crate::name::Name;
use std::cmp::Ordering;

/// Three pairs of rules may be joined from either end.
pub fn or_is_associative()
    ensures { OrIsAssociative }
{}

/// A pair of no rules changes nothing, on either side.
pub fn none_is_unit()
    ensures { NoneIsUnit }
{}

/// Each rule is read from its own name.
pub fn names_are_read()
    ensures { NamesAreRead }
{}

/// What is inside all groups is no group.
pub fn ungrouped_is_no_group()
    ensures { UngroupedIsNoGroup }
{}

/// To ungroup again changes nothing.
pub fn ungrouped_stays()
    ensures { UngroupedStays }
{}

/// `==` says whether the values of two names are the same, wherever the names stand.
pub fn names_equal_by_value(a: &Name, b: &Name) -> bool
    ensures { IsTrue result ↔ ((attr_name a.now).text ≡ (attr_name b.now).text) }
{
    *a == *b
}

/// The order of two names is that of their values, byte by byte.
pub fn names_ordered_by_value(a: &Name, b: &Name) -> Ordering
    ensures { result ≡ slice_cmp nat_cmp (attr_name a.now).text (attr_name b.now).text }
{
    a.cmp(b)
}
