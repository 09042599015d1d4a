// Nodes without their routes, and the way to a prefix.
ghost use Rattle.std.specs.Prelude.{◌≡◌, ◌≢◌, IsTrue, false, None, nat_lt, if◌then◌else◌, ◌+◌, ◌<◌, ◌≤◌, IsSome, Some, slice_get, slice_set, ◌++◌, ◌∷◌, [], length, vec_len, vec_capacity};
ghost use Rattle.std.specs.Option.{option_map};
ghost use Rattle.prefixes.specs.Addr.{IsAddr, width_of};
ghost use Rattle.fib_search.specs.Node.{bit_at, pick};
ghost use Rattle.fib_trie.specs.Branches.{leads_on, kept_on, step_from, step_to, with_child, bare, IsPlaced, nodes_of};
ghost use Rattle.route_chains.specs.Places.{held};
ghost use Rattle.fib_trie.specs.Made.{IsMade, IsAbove, IsBelow, IsFork};
ghost use Rattle.prefixes.specs.Prefix.{covers};
ghost use Rattle.fib_search.specs.Trie.{IsTrie};
ghost use Rattle.fib_trie.specs.Reached.{IsPlace, is_prefix_at};
ghost use Rattle.fib_trie.specs.Ways.{IsStop};

use crate::branch::Branch;
use crate::common::{common, cut};
use fib_search::{bit_at, root_of};
use prefixes::{Addr, Prefix, same_prefix};
use route_chains::{held, push_held, put};

fn leads_on(here: Option<Branch>, prefix: &Prefix) -> bool
    ensures { result ≡ leads_on here prefix.now }
{
    match here {
        Some(here) => here.prefix.covers(prefix.base()) && !(prefix.len() < here.prefix.len()),
        None => false,
    }
}

fn kept_on(branches: &[Option<Branch>], prefix: &Prefix, next: Option<usize>) -> Option<usize>
    ensures { result ≡ kept_on branches.now prefix.now next }
{
    match next {
        Some(next) => {
            if leads_on(held(branches, next), prefix) {
                Some(next)
            } else {
                None
            }
        }
        None => None,
    }
}

fn step_from(branches: &[Option<Branch>], prefix: &Prefix, here: &Branch) -> Option<usize>
    ensures { result ≡ step_from branches.now prefix.now here.now }
{
    let _ = prefix.len;
    if here.prefix.len() < prefix.len() {
        let next = if bit_at(prefix.base(), here.prefix.len()) {
            here.one
        } else {
            here.zero
        };
        kept_on(branches, prefix, next)
    } else {
        None
    }
}

fn with_child(here: Branch, bit: bool, place: usize) -> Branch
    ensures { result ≡ with_child bit place here }
{
    if bit {
        Branch {
            prefix: here.prefix,
            zero: here.zero,
            one: Some(place),
        }
    } else {
        Branch {
            prefix: here.prefix,
            zero: Some(place),
            one: here.one,
        }
    }
}

fn is_addr(addr: Addr)
    ensures { IsAddr addr }
{
    match addr {
        Addr::V4(_value) => {}
        Addr::V6(_value) => {}
    }
}

// Puts a branch at an empty place, as a child of the branch here.
fn place_below(
    branches: &mut Vec<Option<Branch>>,
    here: usize,
    branch: Branch,
    bit: bool,
    new: Branch,
) -> usize
    requires stands { held branches.old.items here ≡ Some branch }
    requires room { vec_len branches.old < vec_capacity branches.old }
    ensures placed { IsPlaced branches.old.items branches.new.items here bit result new }
    ensures len { vec_len branches.new ≡ vec_len branches.old + 1 }
    ensures capacity { vec_capacity branches.new ≡ vec_capacity branches.old }
{
    let place = branches.len();
    put(branches, here, Some(with_child(branch, bit, place)));
    push_held(branches, new);
    place
}

// Goes on to the last place on the way to a prefix.
fn descend(branches: &[Option<Branch>], prefix: Prefix) -> usize
    requires trie { IsTrie (nodes_of [] branches.now) [] }
    requires rooted { branches.now ≢ [] }
    ensures { IsStop branches.now prefix result }
{
    is_addr(prefix.base());
    let mut place = root_of(prefix.family());
    while let Some(next) = step_to(branches, &prefix, place) {
        place = next;
    }
    place
}

fn step_to(branches: &[Option<Branch>], prefix: &Prefix, place: usize) -> Option<usize>
    ensures { result ≡ step_to branches.now prefix.now place }
{
    match held(branches, place) {
        Some(here) => step_from(branches, prefix, &here),
        None => None,
    }
}

fn bare(prefix: Prefix) -> Branch
    ensures { result ≡ bare prefix }
{
    Branch {
        prefix,
        zero: None,
        one: None,
    }
}

fn put_leaf(
    branches: &mut Vec<Option<Branch>>,
    here: usize,
    branch: Branch,
    prefix: Prefix,
) -> usize
    requires above { IsAbove branches.old.items here branch prefix }
    requires alone { pick (bit_at prefix.base branch.prefix.len) branch.zero branch.one ≡ None }
    requires room { vec_len branches.old < vec_capacity branches.old }
    ensures made { IsMade branches.old.items branches.new.items prefix result }
    ensures len { vec_len branches.new ≡ vec_len branches.old + 1 }
    ensures capacity { vec_capacity branches.new ≡ vec_capacity branches.old }
{
    let _ = prefix.len;
    let bit = bit_at(prefix.base(), branch.prefix.len());
    place_below(branches, here, branch, bit, bare(prefix))
}

fn put_over(
    branches: &mut Vec<Option<Branch>>,
    here: usize,
    branch: Branch,
    prefix: Prefix,
    next: usize,
    below: Branch,
) -> usize
    requires above { IsAbove branches.old.items here branch prefix }
    requires below { IsBelow branches.old.items branch prefix next below }
    requires shorter { prefix.len < below.prefix.len }
    requires covers { IsTrue (covers prefix below.prefix.base) }
    requires room { vec_len branches.old < vec_capacity branches.old }
    ensures made { IsMade branches.old.items branches.new.items prefix result }
    ensures len { vec_len branches.new ≡ vec_len branches.old + 1 }
    ensures capacity { vec_capacity branches.new ≡ vec_capacity branches.old }
{
    let _ = prefix.len;
    let bit = bit_at(prefix.base(), branch.prefix.len());
    let _ = below.prefix.len;
    let side = bit_at(below.prefix.base(), prefix.len());
    place_below(
        branches,
        here,
        branch,
        bit,
        with_child(bare(prefix), side, next),
    )
}

fn put_fork(
    branches: &mut Vec<Option<Branch>>,
    here: usize,
    branch: Branch,
    prefix: Prefix,
    next: usize,
    below: Branch,
    fork: Prefix,
) -> usize
    requires trie { IsTrie (nodes_of [] branches.old.items) [] }
    requires above { IsAbove branches.old.items here branch prefix }
    requires below { IsBelow branches.old.items branch prefix next below }
    requires longer { branch.prefix.len < fork.len }
    requires fork { IsFork fork prefix below.prefix }
    requires room { vec_len branches.old + 2 ≤ vec_capacity branches.old }
    ensures made { IsMade branches.old.items branches.new.items prefix result }
    ensures len { vec_len branches.new ≡ vec_len branches.old + 2 }
    ensures capacity { vec_capacity branches.new ≡ vec_capacity branches.old }
{
    let _ = prefix.len;
    let bit = bit_at(prefix.base(), branch.prefix.len());
    let _ = below.prefix.len;
    let side = bit_at(below.prefix.base(), fork.len());
    let new = with_child(bare(fork), side, next);
    let place = place_below(branches, here, branch, bit, new);
    let other = bit_at(prefix.base(), fork.len());
    place_below(branches, place, new, other, bare(prefix))
}

// Puts a branch of this prefix between a branch and a child that it doesn't lead on by.
fn put_between(
    branches: &mut Vec<Option<Branch>>,
    here: usize,
    branch: Branch,
    prefix: Prefix,
    next: usize,
    below: Branch,
) -> usize
    requires trie { IsTrie (nodes_of [] branches.old.items) [] }
    requires above { IsAbove branches.old.items here branch prefix }
    requires below { IsBelow branches.old.items branch prefix next below }
    requires off { leads_on (Some below) prefix ≡ false }
    requires room { vec_len branches.old + 2 ≤ vec_capacity branches.old }
    ensures made { IsMade branches.old.items branches.new.items prefix result }
    ensures len { vec_len branches.new ≤ vec_len branches.old + 2 }
    ensures capacity { vec_capacity branches.new ≡ vec_capacity branches.old }
{
    let _ = prefix.len;
    let _ = below.prefix.len;
    let limit = least(prefix.len(), below.prefix.len());
    let len = common(
        prefix.base(),
        below.prefix.base(),
        branch.prefix.len() + 1,
        limit,
    );
    if len < prefix.len() {
        let fork = cut(prefix.base(), len);
        put_fork(branches, here, branch, prefix, next, below, fork)
    } else {
        put_over(branches, here, branch, prefix, next, below)
    }
}

fn least(a: u8, b: u8) -> u8
    ensures { result ≡ (if nat_lt a b then a else b) }
{
    if a < b { a } else { b }
}

pub(crate) fn next_of(branch: &Branch, addr: Addr) -> Option<usize>
    requires { branch.now.prefix.len < width_of addr }
    ensures { result ≡ pick (bit_at addr branch.now.prefix.len) branch.now.zero branch.now.one }
{
    if bit_at(addr, branch.prefix.len()) {
        branch.one
    } else {
        branch.zero
    }
}

fn put_at(branches: &mut Vec<Option<Branch>>, here: usize, branch: Branch, prefix: Prefix) -> usize
    requires trie { IsTrie (nodes_of [] branches.old.items) [] }
    requires stop { IsStop branches.old.items prefix here }
    requires stands { held branches.old.items here ≡ Some branch }
    requires room { vec_len branches.old + 2 ≤ vec_capacity branches.old }
    ensures made { IsMade branches.old.items branches.new.items prefix result }
    ensures len { vec_len branches.new ≤ vec_len branches.old + 2 }
    ensures capacity { vec_capacity branches.new ≡ vec_capacity branches.old }
{
    if branch.prefix.len() >= prefix.len() {
        return here;
    }
    let _ = prefix.len;
    match next_of(&branch, prefix.base()) {
        None => put_leaf(branches, here, branch, prefix),
        Some(next) => match held(branches, next) {
            Some(below) => put_between(branches, here, branch, prefix, next, below),
            None => here,
        },
    }
}

/// Makes a node for a prefix, where there is none, and answers its place.
pub(crate) fn make_place(branches: &mut Vec<Option<Branch>>, prefix: Prefix) -> usize
    requires trie { IsTrie (nodes_of [] branches.old.items) [] }
    requires rooted { branches.old.items ≢ [] }
    requires room { vec_len branches.old + 2 ≤ vec_capacity branches.old }
    ensures made { IsMade branches.old.items branches.new.items prefix result }
    ensures len { vec_len branches.new ≤ vec_len branches.old + 2 }
    ensures capacity { vec_capacity branches.new ≡ vec_capacity branches.old }
{
    let here = descend(branches, prefix);
    match held(branches, here) {
        Some(branch) => put_at(branches, here, branch, prefix),
        None => here,
    }
}

fn is_prefix_at(branches: &[Option<Branch>], place: usize, prefix: &Prefix) -> bool
    ensures { result ≡ is_prefix_at branches.now place prefix.now }
{
    match held(branches, place) {
        Some(branch) => same_prefix(&branch.prefix, prefix),
        None => false,
    }
}

/// The place of the node of a prefix.
pub(crate) fn find_place(branches: &[Option<Branch>], prefix: Prefix) -> Option<usize>
    requires { IsTrie (nodes_of [] branches.now) [] }
    ensures { IsPlace branches.now prefix result }
{
    if branches.is_empty() {
        return None;
    }
    let place = descend(branches, prefix);
    if is_prefix_at(branches, place, &prefix) {
        Some(place)
    } else {
        None
    }
}
