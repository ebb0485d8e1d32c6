// A result beside a value that is kept.
ghost use Rattle.std.specs.Prelude.{◌≡◌, Ok, Err, IfOk, IfErr};

/// A value, where there is one, beside one that is kept; else the error. It stands in the place of a `?` behind which a large
/// value is kept: that value is dropped in here, where it is one step for the check.
pub fn beside<T, E, K: Drop>(value: Result<T, E>, kept: K) -> Result<(T, K), E>
    ensures ok { IfOk result (λ both. (value ≡ Ok both.0) × (both.1 ≡ kept)) }
    ensures err { IfErr result (λ error. value ≡ Err error) }
{
    match value {
        Ok(value) => Ok((value, kept)),
        Err(error) => Err(error),
    }
}
