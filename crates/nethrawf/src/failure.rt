// The number of why an export does nothing.
ghost use Rattle.std.specs.Prelude.{◌≡◌};
ghost use Rattle.nethrawf.specs.Exports.{status_of};

use refusals::failure::Failure;

// the status where there is no memory for slots and records
const NO_MEMORY: u32 = 255;

// The number that C is told: 0 where it was done.
pub(crate) fn status(done: Result<(), Failure>) -> u32
    ensures { result ≡ status_of done }
{
    match done {
        Ok(()) => 0,
        Err(Failure::Refused(refusal)) => u32::from(refusal.number()),
        Err(Failure::NoMemory(_)) => NO_MEMORY,
    }
}
