ghost use Rattle.std.specs.Prelude.{◌≡◌, drop, slice_get};
ghost use Rattle.std.specs.List.{prefix_len};
ghost use Rattle.number_runs.specs.Parted.{IsParted};
ghost use Rattle.number_runs.specs.Runs.{numbers_of, AreFilled};

use crate::find::{ends, place_in, whole_runs};
use crate::test::Test;
use std::marker::Model;

/// What is left of a list of numbers, from a place on.
#[derive(Drop)]
pub struct Rest<'a> {
    run: &'a [u32],
    later: &'a [Vec<u32>],
}

impl<'a> Model for Rest<'a> {
    ghost use Rattle.std.specs.Prelude.{ℕ, List, ◌++◌};
    ghost use Rattle.number_runs.specs.Runs.{numbers_of, AllFilled};

    ghost Value = { List ℕ };

    ghost view = { λ x. x.run.now ++ numbers_of x.later.now };

    ghost invariant = { λ x. AllFilled x.later.now };
}

/// What is left of runs after the numbers that pass.
pub fn rest_of<'a, T: Test>(runs: &'a [Vec<u32>], test: &T) -> Rest<'a>
    requires parted { IsParted (T.passes test.now) (numbers_of runs.now) }
    requires filled { AreFilled runs.now }
    ensures { result ≡ drop (prefix_len (T.passes test.now) (numbers_of runs.now)) (numbers_of runs.now) }
{
    let at = whole_runs(runs, test);
    match runs[at..].split_first() {
        Some((run, later)) => Rest {
            run: &run[place_in(run, test)..],
            later,
        },
        None => Rest {
            run: &[],
            later: &[],
        },
    }
}

impl<'a> Rest<'a> {
    /// The next number, which is no longer left then.
    pub fn next(&mut self) -> Option<u32>
        ensures number { result ≡ slice_get self.old 0 }
        ensures rest { self.new ≡ drop 1 self.old }
    {
        if let Some((number, run)) = self.run.split_first() {
            self.run = run;
            return Some(*number);
        }
        let (run, later) = self.later.split_first()?;
        let (number, run) = run.split_first()?;
        self.run = run;
        self.later = later;
        Some(*number)
    }

    /// Leaves out the numbers at its head that pass.
    pub fn skip<T: Test>(&mut self, test: &T)
        requires { IsParted (T.passes test.now) self.old }
        ensures { self.new ≡ drop (prefix_len (T.passes test.now) self.old) self.old }
    {
        if ends(self.run, test) {
            *self = rest_of(self.later, test);
        } else {
            self.run = &self.run[place_in(self.run, test)..];
        }
    }
}
