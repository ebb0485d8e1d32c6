// The search by bisection.
ghost use Rattle.std.specs.Prelude.{◌≡◌, ◌<◌, ◌≤◌, ℕ, nat_le, length, MatchResult};
ghost use Rattle.std.specs.List.{prefix_len};
ghost use Rattle.chv_lists.specs.Locate.{locate, Follow};

use crate::stretch::Stretch;

/// The place of the stretch that holds a number, or the place where one that held it would stand. It asks about as many
/// stretches as their number has binary digits.
pub fn locate<S: Stretch>(items: &[S], at: u64) -> Result<usize, usize>
    requires { Follow S.start S.end 0 items.now }
    ensures place { result ≡ locate S.start S.end items.now at }
    ensures inside { MatchResult result (λ place. place < length items.now) (λ place. place ≤ length items.now) }
{
    let place = count_ended(items, at);
    match items.get(place) {
        Some(item) if item.begins_by(at) => Ok(place),
        _ => Err(place),
    }
}

// How many stretches end at a number or below it. They are the first ones.
fn count_ended<S: Stretch>(items: &[S], at: u64) -> usize
    requires { Follow S.start S.end 0 items.now }
    ensures { result ≡ prefix_len (λ x. nat_le (S.end x) at) items.now }
{
    items.partition_point(|item| item.ends_by(at))
}
