//! A number that comes to runs, and one that goes.
ghost use Rattle.std.specs.Prelude.{◌≡◌, ℕ, ◌+◌, ◌<◌, ◌≤◌, false, nat_lt, length, take, drop, vec_len, vec_capacity};
ghost use Rattle.std.specs.List.{insert, remove, prefix_len};
ghost use Rattle.number_runs.specs.Parted.{IsParted};
ghost use Rattle.number_runs.specs.Runs.{numbers_of, AreFilled, AllFilled, HaveRoom, ends};

use crate::find::{place_in, whole_runs};
use crate::test::Test;

// Puts a number after those of a run that pass, in the room that is there.
fn put_in<T: Test>(run: &mut Vec<u32>, test: &T, number: u32)
    requires parted { IsParted (T.passes test.now) run.old.items }
    requires room { vec_len run.old < vec_capacity run.old }
    ensures items { run.new.items ≡ insert run.old.items (prefix_len (T.passes test.now) run.old.items) number }
    ensures len { vec_len run.new ≡ vec_len run.old + 1 }
    ensures capacity { vec_capacity run.new ≡ vec_capacity run.old }
{
    let place = place_in(run, test);
    let _ = run.insert(place, number);
}

/// Puts a number after those that pass, in the room that is there.
pub fn put<T: Test>(runs: &mut Vec<Vec<u32>>, test: &T, number: u32)
    requires parted { IsParted (T.passes test.now) (numbers_of runs.old.items) }
    requires filled { AreFilled runs.old.items }
    requires there { 0 < vec_len runs.old }
    requires room { HaveRoom 1 runs.old.items }
    ensures numbers { numbers_of runs.new.items
        ≡ insert (numbers_of runs.old.items) (prefix_len (T.passes test.now) (numbers_of runs.old.items)) number }
    ensures filled { AreFilled runs.new.items }
    ensures room { (spare : ℕ) → HaveRoom (spare + 1) runs.old.items → HaveRoom spare runs.new.items }
    ensures len { vec_len runs.new ≡ vec_len runs.old }
{
    let at = whole_runs(runs, test).min(runs.len() - 1);
    put_in(&mut runs[at], test, number);
}

// Takes the first number of a run out that doesn't pass.
fn cut_in<T: Test>(run: &mut Vec<u32>, test: &T)
    requires parted { IsParted (T.passes test.now) run.old.items }
    requires there { ends (T.passes test.now) run.old.items ≡ false }
    ensures items { run.new.items ≡ remove run.old.items (prefix_len (T.passes test.now) run.old.items) }
    ensures len { vec_len run.new ≤ vec_len run.old }
    ensures capacity { vec_capacity run.new ≡ vec_capacity run.old }
{
    let place = place_in(run, test);
    run.remove(place);
}

// Takes a run out that has no number, unless it is the first.
fn close_up(runs: &mut Vec<Vec<u32>>, at: usize)
    requires there { at < vec_len runs.old }
    requires front { AllFilled (drop 1 (take at runs.old.items)) }
    requires back { AllFilled (drop (at + 1) runs.old.items) }
    ensures numbers { numbers_of runs.new.items ≡ numbers_of runs.old.items }
    ensures filled { AreFilled runs.new.items }
    ensures room { (spare : ℕ) → HaveRoom spare runs.old.items → HaveRoom spare runs.new.items }
    ensures there { 0 < vec_len runs.new }
{
    if at > 0 && runs[at].is_empty() {
        runs.remove(at);
    }
}

/// Takes the first number out that doesn't pass, and says whether there was one.
pub fn cut<T: Test>(runs: &mut Vec<Vec<u32>>, test: &T) -> bool
    requires parted { IsParted (T.passes test.now) (numbers_of runs.old.items) }
    requires filled { AreFilled runs.old.items }
    ensures found { result
        ≡ nat_lt (prefix_len (T.passes test.now) (numbers_of runs.old.items)) (length (numbers_of runs.old.items)) }
    ensures numbers { numbers_of runs.new.items
        ≡ remove (numbers_of runs.old.items) (prefix_len (T.passes test.now) (numbers_of runs.old.items)) }
    ensures filled { AreFilled runs.new.items }
    ensures room { (spare : ℕ) → HaveRoom spare runs.old.items → HaveRoom spare runs.new.items }
    ensures there { 0 < vec_len runs.old → 0 < vec_len runs.new }
{
    let at = whole_runs(runs, test);
    if at == runs.len() {
        return false;
    }
    cut_in(&mut runs[at], test);
    close_up(runs, at);
    true
}
