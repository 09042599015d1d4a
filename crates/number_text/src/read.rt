ghost use Rattle.std.specs.Prelude.{◌≡◌, ℕ, ◌≤◌, ◌==◌, ◌↔◌, IsTrue, IfSome, IfNone, length};
ghost use Rattle.std.specs.Char.{is_ascii_uppercase};
ghost use Rattle.std.specs.List.{list_any};
ghost use Rattle.std.specs.Option.{SomeIff};
ghost use Rattle.std.specs.Str.Parse.{IsNumeral, digits_value};
ghost use Rattle.number_text.specs.Numbers.{HasNoLeadingZero, SpellsDecimal, SpellsHexadecimal};

/// The number that digits of either case write in a base up to 36, where it is at most `max`. Leading
/// zeros are allowed.
pub fn read_digits(text: &[u8], base: u32, max: u64) -> Option<u64>
    requires low { 2 ≤ base }
    requires high { base ≤ 36 }
    ensures { SomeIff result
        (IsNumeral base text.now × (digits_value base text.now ≤ max))
        (digits_value base text.now) }
{
    if text.is_empty() {
        return None;
    }
    let mut number: u64 = 0;
    for byte in text {
        let digit = char::from(*byte).to_digit(base)?;
        let shifted = number.checked_mul(u64::from(base))?;
        number = shifted.checked_add(u64::from(digit))?;
        if number > max {
            return None;
        }
    }
    Some(number)
}

/// Whether a 0 in front stands alone.
fn has_no_leading_zero(text: &[u8]) -> bool
    ensures { IsTrue result ↔ HasNoLeadingZero text.now }
{
    match text {
        [b'0', _, ..] => false,
        _ => true,
    }
}

/// The number that the text spells in decimal, where it is at most `max`.
pub fn read_decimal(text: &[u8], max: u64) -> Option<u64>
    ensures some { IfSome result (λ n. SpellsDecimal text.now n × (n ≤ max)) }
    ensures none { IfNone result ((n : ℕ) → n ≤ max → SpellsDecimal text.now n → ⊥) }
{
    if has_no_leading_zero(text) {
        read_digits(text, 10, max)
    } else {
        None
    }
}

/// Whether a byte is an upper-case letter.
fn has_uppercase(text: &[u8]) -> bool
    ensures { result ≡ list_any is_ascii_uppercase text.now }
{
    text.iter().any(|byte| byte.is_ascii_uppercase())
}

/// The number that the text spells in hexadecimal in lower case, where it is at most `max`.
pub fn read_hexadecimal(text: &[u8], max: u64) -> Option<u64>
    ensures some { IfSome result (λ n. SpellsHexadecimal text.now n × (n ≤ max)) }
    ensures none { IfNone result ((n : ℕ) → n ≤ max → SpellsHexadecimal text.now n → ⊥) }
{
    if has_no_leading_zero(text) && !has_uppercase(text) {
        read_digits(text, 16, max)
    } else {
        None
    }
}
