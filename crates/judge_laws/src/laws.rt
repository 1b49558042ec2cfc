//! What judges make of a space that answer alike what was asked: each law is the contract of a function that does nothing.

ghost use Rattle.judge_laws.specs.Laws.{CleanStays, JudgesMayChange, JudgesMayChangeSince, TargetsStay, TreesStay};

/// A schema that was converted without faults is converted to the same by each judge that answers alike what was asked.
pub fn trees_stay()
    ensures { TreesStay }
{}

/// So are the items that references lead to.
pub fn targets_stay()
    ensures { TargetsStay }
{}

/// And what is without notes of one way stays so.
pub fn clean_stays()
    ensures { CleanStays }
{}

/// A table whose trees were converted by judges of their own is one that a space comes to by the judge of now, where that answers alike what they were asked.
pub fn judges_may_change()
    ensures { JudgesMayChange }
{}

/// What came since came so too.
pub fn judges_may_change_since()
    ensures { JudgesMayChangeSince }
{}
