//! Worked documents whose rows merge: each group is the contract of a function that does nothing.

ghost use Rattle.convert_walks.specs.Pages.{FirstMergePages, MergePages, FurtherMergePages, ConstantPages, AbsentPages, PlacePages, DepthPages, NamePages};

/// References that are merged, and walks that have too many steps.
pub fn first_merge_pages()
    ensures { FirstMergePages }
{}

/// Merges, each row.
pub fn merge_pages()
    ensures { MergePages }
{}

/// Merges with subschemas, subtraction and depth.
pub fn further_merge_pages()
    ensures { FurtherMergePages }
{}

/// Constants.
pub fn constant_pages()
    ensures { ConstantPages }
{}

/// Where null may stand for an absent member.
pub fn absent_pages()
    ensures { AbsentPages }
{}

/// Where schemas stand inside one that a merge made or took over.
pub fn place_pages()
    ensures { PlacePages }
{}

/// Walks that have too many steps.
pub fn depth_pages()
    ensures { DepthPages }
{}

/// Names of what was merged.
pub fn name_pages()
    ensures { NamePages }
{}
