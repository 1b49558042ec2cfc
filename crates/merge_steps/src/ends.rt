//! Never as an answer, and as a stop.
ghost use Rattle.std.specs.Prelude.{◌≡◌};
ghost use Rattle.merge_steps.specs.Ends.{answered_of, found_of, or_never_of};

use crate::stop::Stop;
use merge_parts::MergeFault;
use schema_types::Schema;

/// The answer of a step, where never is nothing and no stop.
pub fn or_never(found: Result<Schema, Stop>) -> Result<Option<Schema>, Stop>
    ensures { result ≡ or_never_of found }
{
    match found {
        Ok(schema) => Ok(Some(schema)),
        Err(Stop::Never) => Ok(None),
        Err(Stop::Fault(fault)) => Err(Stop::Fault(fault)),
    }
}

/// What a whole merge answers: a schema, nothing for never, or a fault.
pub fn found(found: Result<Schema, Stop>) -> Result<Option<Schema>, MergeFault>
    ensures { result ≡ found_of found }
{
    match found {
        Ok(schema) => Ok(Some(schema)),
        Err(Stop::Never) => Ok(None),
        Err(Stop::Fault(fault)) => Err(fault),
    }
}

/// Nothing as never, which stops.
pub fn answered<T: Drop>(found: Option<T>) -> Result<T, Stop>
    ensures { result ≡ answered_of found }
{
    match found {
        Some(answer) => Ok(answer),
        None => Err(Stop::Never),
    }
}
