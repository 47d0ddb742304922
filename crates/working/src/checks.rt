// A check that a step has to pass.
ghost use Rattle.std.specs.Prelude.{◌≡◌, MatchResult, true, false};

use crate::fault::WorkingFault;

pub(crate) fn check(passes: bool, fault: WorkingFault) -> Result<(), WorkingFault>
    ensures { MatchResult result (λ _. passes ≡ true) (λ f. (passes ≡ false) × (f ≡ fault)) }
{
    if passes { Ok(()) } else { Err(fault) }
}
