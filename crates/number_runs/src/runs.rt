ghost use Rattle.std.specs.Prelude.{◌≡◌, ◌+◌, ◌<◌, ◌≤◌, [], length, drop, slice_get, OnOk};
ghost use Rattle.std.specs.List.{insert, remove, prefix_len};
ghost use Rattle.number_runs.specs.Parted.{IsParted};

use crate::edit::{cut, put};
use crate::find::{count_of, number_at, place_at, whole_runs};
use crate::rest::{Rest, rest_of};
use crate::room::make_room;
use crate::test::Test;
use std::alloc::{AllocError, Global};
use std::marker::Model;

/// For how many numbers more room is made at least.
const AT_LEAST: usize = 64;

/// A list of numbers.
#[derive(Drop)]
pub struct Runs {
    /// The numbers, in runs of a thousand or two. No run is empty but the first.
    runs: Vec<Vec<u32>>,
    len: usize,
    /// For so many numbers more each run has room.
    spare: usize,
    alloc: Global,
}

impl Model for Runs {
    ghost use Rattle.number_runs.specs.Runs.{RunsView, numbers_of, AreRuns};

    ghost Value = { RunsView };

    ghost view = { λ x. record { numbers = numbers_of x.runs.items; room = x.spare } };

    ghost invariant = { λ x. AreRuns x.runs.items x.len x.spare };
}

impl Runs {
    /// No numbers and no room.
    pub fn new(alloc: Global) -> Runs
        ensures numbers { result.numbers ≡ [] }
        ensures room { result.room ≡ 0 }
    {
        Runs {
            runs: Vec::new(alloc),
            len: 0,
            spare: 0,
            alloc,
        }
    }

    pub fn len(&self) -> usize
        ensures { result ≡ length self.now.numbers }
    {
        self.len
    }

    /// Makes room for this number of numbers more. Out of memory leaves the list as it is.
    pub fn reserve(&mut self, more: usize) -> Result<(), AllocError>
        ensures numbers { self.new.numbers ≡ self.old.numbers }
        ensures room { OnOk result (more ≤ self.new.room) }
        ensures no_less { self.old.room ≤ self.new.room }
    {
        if more <= self.spare {
            return Ok(());
        }
        let spare = more.max(AT_LEAST);
        if spare > usize::MAX - self.len {
            return Err(AllocError);
        }
        match make_room(&mut self.runs, spare, self.alloc) {
            Ok(()) => {}
            Err(error) => return Err(error),
        }
        self.spare = spare;
        Ok(())
    }

    /// Puts a number after those that pass, in the room that is there.
    pub fn put<T: Test>(&mut self, test: &T, number: u32)
        requires parted { IsParted (T.passes test.now) self.old.numbers }
        requires room { 0 < self.old.room }
        ensures numbers { self.new.numbers
            ≡ insert self.old.numbers (prefix_len (T.passes test.now) self.old.numbers) number }
        ensures room { self.new.room + 1 ≡ self.old.room }
    {
        put(&mut self.runs, test, number);
        self.len += 1;
        self.spare -= 1;
    }

    /// Takes the first number out that doesn't pass.
    pub fn cut<T: Test>(&mut self, test: &T)
        requires { IsParted (T.passes test.now) self.old.numbers }
        ensures numbers { self.new.numbers
            ≡ remove self.old.numbers (prefix_len (T.passes test.now) self.old.numbers) }
        ensures room { self.new.room ≡ self.old.room }
    {
        if cut(&mut self.runs, test) {
            self.len -= 1;
        }
    }

    /// The number at a place, from 0.
    pub fn get(&self, place: usize) -> Option<u32>
        ensures { result ≡ slice_get self.now.numbers place }
    {
        number_at(&self.runs, place)
    }

    /// How many numbers pass.
    pub fn place_of<T: Test>(&self, test: &T) -> usize
        requires { IsParted (T.passes test.now) self.now.numbers }
        ensures { result ≡ prefix_len (T.passes test.now) self.now.numbers }
    {
        let run = whole_runs(&self.runs, test);
        count_of(&self.runs, run) + place_at(&self.runs, run, test)
    }

    /// What is left after the numbers that pass.
    pub fn after<T: Test>(&self, test: &T) -> Rest<'_>
        requires { IsParted (T.passes test.now) self.now.numbers }
        ensures { result ≡ drop (prefix_len (T.passes test.now) self.now.numbers) self.now.numbers }
    {
        rest_of(&self.runs, test)
    }
}
