// What came of a call of a reader or a writer of std.
ghost use Rattle.std.specs.Prelude.{◌≡◌, ◌≢◌, None, Some, Ok, IfOk, IfErr, IsErr};
ghost use Rattle.std.specs.IoError.{error_kind};
ghost use Rattle.chv_io.specs.Wrapped.{CountsFault, CountsOne};

use crate::Failed;
use std::io::{self, ErrorKind};

/// How often a call that was interrupted is tried before it counts as failed.
pub(crate) const TRIES: u32 = 1000;

/// Counts a fault. The count stands still at its type's end.
pub(crate) fn fault(faults: &mut u64) -> Failed
    ensures { CountsOne faults.old faults.new }
{
    *faults = faults.saturating_add(1);
    Failed
}

/// What came of a call: its answer, or none where it was interrupted and may be tried again. Every other error is a fault,
/// and is counted.
pub(crate) fn judge<T>(came: io::Result<T>, faults: &mut u64) -> Result<Option<T>, Failed>
    ensures answered { IfOk came (λ answer. result ≡ Ok (Some answer)) }
    ensures interrupted { IfErr came (λ error. error_kind error ≡ ErrorKind.Interrupted → result ≡ Ok None) }
    ensures failed { IfErr came (λ error. error_kind error ≢ ErrorKind.Interrupted → IsErr result) }
    ensures counted { CountsFault faults.old faults.new result }
{
    match came {
        Ok(answer) => Ok(Some(answer)),
        Err(error) => {
            if error.kind() == ErrorKind::Interrupted {
                Ok(None)
            } else {
                Err(fault(faults))
            }
        }
    }
}
