//! What holds of all reports: each law is the contract of a function that does nothing.
ghost use Rattle.typify_run.specs.Laws.{ReportsAreModules};

/// `Module::new` on the items of a report, with its table, answers a module or want of memory, whatever the renamer.
pub fn reports_are_modules()
    ensures { ReportsAreModules }
{}
