// The windows of K consecutive jobs of a task: the first that fails.
ghost use Rattle.std.specs.Prelude.{◌≡◌, ◌+◌, ◌<◌, ◌≤◌};
ghost use Rattle.window.specs.Code.{FirstOver, Rising, misses_between, windows_from};

use crate::answers::Windows;
use crate::jobs::Gathered;

// The misses of the window that begins with the i-th job: those of the first i + k jobs that are not among the first i.
fn misses(own: Gathered, k: usize, i: usize) -> u32
    requires { Rising own × (i + k ≤ own.count) }
    ensures { result ≡ misses_between own k i }
{
    let end = i + k;
    own.missed[end] - own.missed[i]
}

// The first window with more than m misses, if there is one.
fn first_failing(own: Gathered, m: u32, k: usize) -> Option<usize>
    requires { Rising own × (k ≤ 64) }
    ensures { FirstOver own m k result }
{
    for i in 0..(own.count + 1).saturating_sub(k) {
        if m < misses(own, k, i) {
            return Some(i);
        }
    }
    None
}

// What the windows come to: the first that fails, or all pass.
pub(crate) fn windows_from(own: Gathered, m: u32, k: usize) -> Windows
    requires { Rising own × (0 < k) × (k ≤ 64) }
    ensures { result ≡ windows_from own m k }
{
    match first_failing(own, m, k) {
        Some(i) => Windows::Fails(own.numbers[i], misses(own, k, i), own.opens),
        None => Windows::Passes(own.opens),
    }
}
