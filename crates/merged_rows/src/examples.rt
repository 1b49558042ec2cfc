//! Worked examples of where a conversion stands.
ghost use Rattle.merged_rows.specs.Examples.{SpotExamples};

/// Starts, and what stands behind them.
pub fn spot_examples()
    ensures { SpotExamples }
{}
