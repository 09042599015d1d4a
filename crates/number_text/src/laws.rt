ghost use Rattle.std.specs.Prelude.{◌≡◌, ℕ, ◌<◌, ◌^◌, List};
ghost use Rattle.std.specs.Fmt.{decimal};
ghost use Rattle.number_text.specs.Numbers.{hexadecimal, SpellsDecimal, SpellsHexadecimal};

/// What is written of a number spells that number.
pub fn what_is_written()
    ensures decimal { (n : ℕ) → n < 2 ^ 64 → SpellsDecimal (decimal n) n }
    ensures hexadecimal { (n : ℕ) → n < 2 ^ 64 → SpellsHexadecimal (hexadecimal n) n }
{}

/// No other text spells it, so each number has one text.
pub fn one_text()
    ensures decimal { (text : List ℕ) (n : ℕ) → n < 2 ^ 64 → SpellsDecimal text n →
        text ≡ decimal n }
    ensures hexadecimal { (text : List ℕ) (n : ℕ) → n < 2 ^ 64 → SpellsHexadecimal text n →
        text ≡ hexadecimal n }
{}

/// No text spells two numbers.
pub fn one_number()
    ensures decimal { (text : List ℕ) (m n : ℕ) → SpellsDecimal text m → SpellsDecimal text n →
        m ≡ n }
    ensures hexadecimal { (text : List ℕ) (m n : ℕ) → SpellsHexadecimal text m →
        SpellsHexadecimal text n → m ≡ n }
{}
