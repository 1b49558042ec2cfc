//! What holds of such histories: the law is the contract of a function that does nothing.

ghost use Rattle.history_judges.specs.Laws.{HistoriesMayChangeJudges};

/// The table of a history, each of whose calls had a judge of its own, is one that a space comes to by the judge of now, where that answers alike what they were asked.
pub fn histories_may_change_judges()
    ensures { HistoriesMayChangeJudges }
{}
