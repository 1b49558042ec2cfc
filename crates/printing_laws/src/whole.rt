//! The text of a printed tree is parsed as that tree, spans aside, where each identifier, literal and embedded stream of the
//! tree alone is such as a text has.
ghost use Rattle.printing_laws.specs.FromParts.{WholeTypesAreParsed, WholePathsAreParsed, WholeExprPathsAreParsed, WholeBoundsAreSpelled, WholePredicatesAreParsed, WholeLifetimesAreParsed};

use syntax_laws::{
    printed_expr_paths_are_parsed, printed_lifetimes_are_parsed, printed_paths_are_parsed,
    printed_predicates_are_parsed, printed_types_are_parsed,
};

/// `parse_type` answers the type that was printed, spans aside.
pub fn whole_types_are_parsed()
    ensures { WholeTypesAreParsed }
{
    printed_types_are_parsed();
}

/// `parse_path` answers the path that was printed, spans aside.
pub fn whole_paths_are_parsed()
    ensures { WholePathsAreParsed }
{
    printed_paths_are_parsed();
}

/// `parse_expr_path` answers the path that was printed, spans aside.
pub fn whole_expr_paths_are_parsed()
    ensures { WholeExprPathsAreParsed }
{
    printed_expr_paths_are_parsed();
}

/// The text of printed bounds spells those bounds, spans aside.
pub fn whole_bounds_are_spelled()
    ensures { WholeBoundsAreSpelled }
{}

/// `parse_where` answers the predicates that were printed, spans aside.
pub fn whole_predicates_are_parsed()
    ensures { WholePredicatesAreParsed }
{
    printed_predicates_are_parsed();
}

/// `parse_lifetimes` answers the lifetimes that were printed, spans aside.
pub fn whole_lifetimes_are_parsed()
    ensures { WholeLifetimesAreParsed }
{
    printed_lifetimes_are_parsed();
}
