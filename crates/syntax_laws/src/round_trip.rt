//! Laws of printing and parsing: the text of a printed tree is parsed as that tree, spans aside.
ghost use Rattle.syntax_laws.specs.RoundTrip.{PrintedTypesAreParsed, PrintedPathsAreParsed, PrintedExprPathsAreParsed, PrintedPredicatesAreParsed, PrintedLifetimesAreParsed};

/// `parse_type` answers the type that was printed, spans aside.
pub fn printed_types_are_parsed()
    ensures { PrintedTypesAreParsed }
{}

/// `parse_path` answers the path that was printed, spans aside.
pub fn printed_paths_are_parsed()
    ensures { PrintedPathsAreParsed }
{}

/// `parse_expr_path` answers the path that was printed, spans aside.
pub fn printed_expr_paths_are_parsed()
    ensures { PrintedExprPathsAreParsed }
{}

/// `parse_where` answers the predicates that were printed, spans aside.
pub fn printed_predicates_are_parsed()
    ensures { PrintedPredicatesAreParsed }
{}

/// `parse_lifetimes` answers the lifetimes that were printed, spans aside.
pub fn printed_lifetimes_are_parsed()
    ensures { PrintedLifetimesAreParsed }
{}
