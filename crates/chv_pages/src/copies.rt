// Parts of slices.
ghost use Rattle.std.specs.Prelude.{◌≡◌, ◌+◌, ◌≤◌, ◌<◌, ℕ, length, slice_index};
ghost use Rattle.chv_pages.specs.Copies.{CopiedAt};

/// Writes bytes into a slice from a place on.
pub fn copy_at(into: &mut [u8], at: usize, from: &[u8])
    requires { at + length from.now ≤ length into.old }
    ensures { CopiedAt into.old into.new at from.now }
{
    for k in 0..from.len() {
        into[at + k] = from[k];
    }
}

/// Writes zeros into a part of a slice.
pub fn clear_at(into: &mut [u8], at: usize, len: usize)
    requires { at + len ≤ length into.old }
    ensures len { length into.new ≡ length into.old }
    ensures inside { (k : ℕ) → at ≤ k → k < at + len → slice_index into.new k ≡ 0 }
    ensures before { (k : ℕ) → k < at → slice_index into.new k ≡ slice_index into.old k }
    ensures behind { (k : ℕ) → at + len ≤ k → slice_index into.new k ≡ slice_index into.old k }
{
    for k in at..at + len {
        into[k] = 0;
    }
}
