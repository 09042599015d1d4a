//! Where numbers stand in runs.
ghost use Rattle.std.specs.Prelude.{◌≡◌, ◌+◌, ◌≤◌, ◌<◌, ◌^◌, length, take, slice_get};
ghost use Rattle.std.specs.List.{prefix_len};
ghost use Rattle.number_runs.specs.Parted.{IsParted};
ghost use Rattle.number_runs.specs.Runs.{numbers_of, AreFilled, ends, place_at, whole_runs};

use crate::test::Test;

/// How many numbers pass, at the head of a run.
pub fn place_in<T: Test>(run: &[u32], test: &T) -> usize
    requires { IsParted (T.passes test.now) run.now }
    ensures within { result ≤ length run.now }
    ensures place { result ≡ prefix_len (T.passes test.now) run.now }
{
    run.partition_point(|number| test.passes(*number))
}

/// Whether a run's last number passes, or it has none.
pub fn ends<T: Test>(run: &[u32], test: &T) -> bool
    ensures { result ≡ ends (T.passes test.now) run.now }
{
    match run.last() {
        Some(number) => test.passes(*number),
        None => true,
    }
}

/// How many runs pass as a whole, at the head of their list.
pub fn whole_runs<T: Test>(runs: &[Vec<u32>], test: &T) -> usize
    requires parted { IsParted (T.passes test.now) (numbers_of runs.now) }
    requires filled { AreFilled runs.now }
    ensures within { result ≤ length runs.now }
    ensures count { result ≡ whole_runs (T.passes test.now) runs.now }
{
    runs.partition_point(|run| ends(run, test))
}

// How many numbers the runs have.
fn count(runs: &[Vec<u32>]) -> usize
    requires { length (numbers_of runs.now) < 2 ^ 64 }
    ensures { result ≡ length (numbers_of runs.now) }
{
    let mut count = 0;
    for run in runs {
        count += run.len();
    }
    count
}

/// How many numbers the first runs have.
pub fn count_of(runs: &[Vec<u32>], first: usize) -> usize
    requires within { first ≤ length runs.now }
    requires bounded { length (numbers_of runs.now) < 2 ^ 64 }
    ensures { result ≡ length (numbers_of (take first runs.now)) }
{
    count(&runs[..first])
}

/// How many numbers pass in the run at a place of the list.
pub fn place_at<T: Test>(runs: &[Vec<u32>], run: usize, test: &T) -> usize
    requires { IsParted (T.passes test.now) (numbers_of runs.now) }
    ensures { result ≡ place_at (T.passes test.now) (slice_get runs.now run) }
{
    if run < runs.len() {
        place_in(&runs[run], test)
    } else {
        0
    }
}

fn number_in(run: &[u32], place: usize) -> Option<u32>
    ensures { result ≡ slice_get run.now place }
{
    run.get(place).copied()
}

/// The number at a place.
pub fn number_at(runs: &[Vec<u32>], place: usize) -> Option<u32>
    ensures { result ≡ slice_get (numbers_of runs.now) place }
{
    let mut left = place;
    for run in runs {
        if left < run.len() {
            return number_in(run, left);
        }
        left -= run.len();
    }
    None
}
