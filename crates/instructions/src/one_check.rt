// One check of a list of checks.
ghost use Rattle.std.specs.Prelude.{◌≡◌, Ok};
ghost use Rattle.instructions.specs.Checks.{checked};

/// Makes one check: nothing is answered where it passes, else its refusal. With `?` behind it, a list of such calls answers the refusal of the first that fails (docs/instruction-machine.md).
pub fn check<R: Drop>(passes: bool, refusal: R) -> Result<(), R>
    ensures { result ≡ checked passes refusal (Ok tt) }
{
    if passes { Ok(()) } else { Err(refusal) }
}
