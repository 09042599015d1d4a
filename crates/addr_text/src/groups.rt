ghost use Rattle.std.specs.Prelude.{◌≡◌, ℕ, ◌+◌, ◌-◌, ◌<◌, ◌≤◌, ◌++◌, List, length, replicate, IfNone, IfSome};
ghost use Rattle.addr_text.specs.Grammar.{SpellsGroups};

use crate::form::Form;
use crate::row::{Parts, read_parts};
use crate::split::split_at_gap;

/// Eight groups: the left ones, zeros and the right ones. There is at least one zero between them.
fn filled_up(left: &[u16], right: &[u16]) -> Option<Parts>
    ensures few { IfSome result (λ groups. (length left.now + length right.now ≤ 7)
        × (groups.items ≡ left.now
        ++ (replicate (8 - (length left.now + length right.now)) 0 ++ right.now))) }
    ensures many { IfNone result (7 < length left.now + length right.now) }
{
    if left.len() > 7 || right.len() > 7 - left.len() {
        return None;
    }
    let mut groups = Parts::new();
    for group in left {
        groups.push(*group);
    }
    for _place in left.len() + right.len()..8 {
        groups.push(0);
    }
    for group in right {
        groups.push(*group);
    }
    Some(groups)
}

/// The eight groups that the text spells.
pub fn read_groups(text: &[u8]) -> Option<Parts>
    ensures some { IfSome result (λ groups. SpellsGroups text.now groups.items) }
    ensures none { IfNone result ((groups : List ℕ) → SpellsGroups text.now groups → ⊥) }
{
    match split_at_gap(text) {
        Some((left, right)) => filled_up(
            read_parts(left, Form::Groups)?.as_slice(),
            read_parts(right, Form::Groups)?.as_slice(),
        ),
        None => {
            let groups = read_parts(text, Form::Groups)?;
            if groups.len() == 8 {
                Some(groups)
            } else {
                None
            }
        }
    }
}
