//! Regions that come and leave.

ghost use Rattle.std.specs.Prelude.{◌≡◌};
ghost use Rattle.step_parts.specs.Office.{leaves_from, office_moved};

use region_steps::OfficeAt;
use step_local::OfficeFor;
use word_parts::Moved;

/// The region that begins with the block that is given back leaves, where a slot has it.
fn leaves(job: OfficeFor, given: Option<u64>) -> Moved
    ensures { result ≡ leaves_from job given }
{
    match (job, given) {
        (OfficeFor::Put { first } | OfficeFor::Drain { first, .. }, Some(_)) => {
            Moved::Leaves { first }
        }
        (OfficeFor::Ask, _) | (_, None) => Moved::Nothing,
    }
}

/// A region comes with its word, and leaves with it.
pub(crate) fn office_moved(job: OfficeFor, at: OfficeAt) -> Moved
    ensures { result ≡ office_moved job at }
{
    match at {
        OfficeAt::Enter { came } => Moved::Comes(came),
        OfficeAt::Remove { given } => leaves(job, given),
        OfficeAt::Lock
        | OfficeAt::Region { .. }
        | OfficeAt::Take { .. }
        | OfficeAt::Base { .. }
        | OfficeAt::WallSize { .. }
        | OfficeAt::WallLeft { .. }
        | OfficeAt::FirstSize { .. }
        | OfficeAt::LastLeft { .. }
        | OfficeAt::Back { .. }
        | OfficeAt::Unlock { .. } => Moved::Nothing,
    }
}
