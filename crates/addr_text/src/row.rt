ghost use Rattle.std.specs.Prelude.{◌≡◌, ℕ, ◌^◌, ◌<◌, ◌≤◌, ◌∷◌, List, length, IfNone, IfSome};
ghost use Rattle.std.specs.Int.Digits.{number_from_digits};
ghost use Rattle.std.specs.List.{flat_map};
ghost use Rattle.number_text.specs.Appends.{Appends};
ghost use Rattle.addr_text.specs.Canonical.{parts_of};
ghost use Rattle.addr_text.specs.Forms.{base_of, count_of, part_text, parts_text, separator_of, SpellsParts};

use crate::form::Form;
use crate::split::split_at_byte;
use arrayvec::ArrayVec;
use number_text::append_byte;
use std::alloc::AllocError;

/// The parts of an address, the highest first.
pub type Parts = ArrayVec<u16, 8>;

/// The parts that the text spells, up to eight.
pub fn read_parts(text: &[u8], form: Form) -> Option<Parts>
    ensures some { IfSome result (λ parts. SpellsParts form text.now parts.items) }
    ensures none { IfNone result ((parts : List ℕ) → length parts ≤ 8 →
        SpellsParts form text.now parts → ⊥) }
{
    let mut parts = Parts::new();
    if text.is_empty() {
        return Some(parts);
    }
    let mut rest = text;
    while let Some((first, others)) = split_at_byte(rest, form.separator()) {
        parts.try_push(form.read_part(first)?).ok()?;
        rest = others;
    }
    parts.try_push(form.read_part(rest)?).ok()?;
    Some(parts)
}

/// The number whose digits the parts are.
pub fn number_of(parts: &[u16], form: Form) -> u128
    requires { number_from_digits (base_of form) parts.now < 2 ^ 128 }
    ensures { result ≡ number_from_digits (base_of form) parts.now }
{
    let mut number = 0;
    for part in parts {
        number = number * form.base() + u128::from(*part);
    }
    number
}

/// The digits of the number, as many as an address has.
pub fn parts_of(value: u128, form: Form) -> Parts
    ensures { result.items ≡ parts_of (base_of form) (count_of form) value }
{
    let mut parts = Parts::new();
    let mut rest = value;
    for _done in 0..form.count() {
        parts.insert(0, (rest % form.base()) as u16);
        rest /= form.base();
    }
    parts
}

/// Appends the separator and the text of the part.
fn write_behind(part: u16, form: Form, out: &mut Vec<u8>) -> Result<(), AllocError>
    ensures { Appends out.old out.new result (separator_of form ∷ part_text form part) }
{
    append_byte(form.separator(), out)?;
    form.write_part(part, out)
}

/// Appends the separator and the text of each part.
fn write_all_behind(parts: &[u16], form: Form, out: &mut Vec<u8>) -> Result<(), AllocError>
    ensures { Appends out.old out.new result
        (flat_map (λ part. separator_of form ∷ part_text form part) parts.now) }
{
    for part in parts {
        write_behind(*part, form, out)?;
    }
    Ok(())
}

/// Appends the texts of the parts with the separator between each two.
pub fn write_parts(parts: &[u16], form: Form, out: &mut Vec<u8>) -> Result<(), AllocError>
    ensures { Appends out.old out.new result (parts_text form parts.now) }
{
    match parts {
        [] => Ok(()),
        [first, others @ ..] => {
            form.write_part(*first, out)?;
            write_all_behind(others, form, out)
        }
    }
}
