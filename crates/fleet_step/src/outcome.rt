//! How steps end.

ghost use Rattle.std.specs.Prelude.{◌≡◌, ℕ};
ghost use Rattle.step_model.specs.Courses.StepEnds.{most_refused};
ghost use Rattle.fleet_step.specs.Steps.{put_answer, refused_at, stops};

use fleet_rows::SlateDBError;

/// A step gives up after so many refused puts in a row, a start after so many in all.
pub const MOST_REFUSED: u64 = 64;

/// The stored version that a refused put met, if the result is that of one.
pub fn refused_at<T>(ended: &Result<T, SlateDBError>) -> Option<u64>
    ensures { result ≡ refused_at ended.now }
{
    match ended {
        Err(SlateDBError::Conflict { seen }) => Some(*seen),
        _ => None,
    }
}

/// Whether the party is stopped by this result.
pub fn stops<T>(ended: &Result<T, SlateDBError>) -> bool
    ensures { result ≡ stops ended.now }
{
    matches!(
        ended,
        Err(SlateDBError::StoreFault | SlateDBError::Fenced { .. })
    )
}

/// The answer of a step that ends with this put.
pub fn put_answer<T: Drop>(put: Result<u64, SlateDBError>, answer: T) -> Result<T, SlateDBError>
    ensures { result ≡ put_answer put answer }
{
    match put {
        Ok(_) => Ok(answer),
        Err(error) => Err(error),
    }
}
