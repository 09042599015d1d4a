//! Lists of the numbers of rules, sorted by where the rules stand.
ghost use Rattle.std.specs.Prelude.{◌≡◌, ◌+◌, ◌<◌, drop};
ghost use Rattle.rule_index.specs.Spots.{below, spot_by};
ghost use Rattle.rule_index.specs.Sorted.{Rises, spots_by, place_of, put, cut};

use crate::spot::{Sorting, Spot, is_below, spot_by};
use number_runs::{Rest, Runs, Test};
use rule_match::Rule;

// Whether the rule of a number stands below a spot.
#[derive(Clone, Copy)]
struct IsBelow<'a> {
    rules: &'a [Rule],
    sorting: Sorting,
    target: &'a Spot,
}

impl<'a> Test for IsBelow<'a> {
    ghost passes = { λ test number. below (spot_by test.sorting test.rules.now number) test.target.now };

    fn passes(&self, number: u32) -> bool {
        is_below(self.rules, self.sorting, number, self.target)
    }
}

/// How many of the list are below this spot.
pub fn place_of(rules: &[Rule], sorting: Sorting, list: &Runs, target: &Spot) -> usize
    requires { Rises (spots_by sorting rules.now list.now.numbers) }
    ensures { result ≡ place_of target.now (spots_by sorting rules.now list.now.numbers) }
{
    list.place_of(&IsBelow {
        rules,
        sorting,
        target,
    })
}

/// What of the list isn't below this spot.
pub fn rest_from<'a>(rules: &[Rule], sorting: Sorting, list: &'a Runs, target: &Spot) -> Rest<'a>
    requires { Rises (spots_by sorting rules.now list.now.numbers) }
    ensures { spots_by sorting rules.now result
        ≡ drop (place_of target.now (spots_by sorting rules.now list.now.numbers)) (spots_by sorting rules.now list.now.numbers) }
{
    list.after(&IsBelow {
        rules,
        sorting,
        target,
    })
}

/// Leaves out what is below this spot.
pub fn skip(rules: &[Rule], sorting: Sorting, rest: &mut Rest<'_>, target: &Spot)
    requires { Rises (spots_by sorting rules.now rest.old) }
    ensures { spots_by sorting rules.now rest.new
        ≡ drop (place_of target.now (spots_by sorting rules.now rest.old)) (spots_by sorting rules.now rest.old) }
{
    rest.skip(&IsBelow {
        rules,
        sorting,
        target,
    });
}

/// Puts a number in its place, in the room that is there.
pub fn put(rules: &[Rule], sorting: Sorting, list: &mut Runs, number: u32)
    requires rises { Rises (spots_by sorting rules.now list.old.numbers) }
    requires room { 0 < list.old.room }
    ensures items { spots_by sorting rules.now list.new.numbers ≡
        put (spot_by sorting rules.now number) (spots_by sorting rules.now list.old.numbers) }
    ensures room { list.new.room + 1 ≡ list.old.room }
{
    let target = spot_by(rules, sorting, number);
    list.put(
        &IsBelow {
            rules,
            sorting,
            target: &target,
        },
        number,
    );
}

/// Takes a number out.
pub fn cut(rules: &[Rule], sorting: Sorting, list: &mut Runs, number: u32)
    requires rises { Rises (spots_by sorting rules.now list.old.numbers) }
    ensures items { spots_by sorting rules.now list.new.numbers ≡
        cut (spot_by sorting rules.now number) (spots_by sorting rules.now list.old.numbers) }
    ensures room { list.new.room ≡ list.old.room }
{
    let target = spot_by(rules, sorting, number);
    list.cut(&IsBelow {
        rules,
        sorting,
        target: &target,
    });
}
