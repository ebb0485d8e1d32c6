// Stretches of numbers.
ghost use Rattle.std.specs.Prelude.{◌≡◌, ℕ, nat_le};

/// A stretch of numbers: from its start on, up to before its end. What has a number of its own is a stretch of one.
pub trait Stretch {
    ghost start: { Self → ℕ };

    ghost end: { Self → ℕ };

    /// Whether the stretch begins at a number or below it.
    fn begins_by(&self, at: u64) -> bool
        ensures { result ≡ nat_le (start self.now) at };

    /// Whether the stretch ends at a number or below it.
    fn ends_by(&self, at: u64) -> bool
        ensures { result ≡ nat_le (end self.now) at };
}
