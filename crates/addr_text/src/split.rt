ghost use Rattle.std.specs.Prelude.{◌≡◌, ◌∷◌, ◌++◌, List, ℕ, false, MatchOption};
ghost use Rattle.addr_text.specs.Forms.{has_byte};
ghost use Rattle.addr_text.specs.Grammar.{colon};

/// What stands before and after the first such byte.
pub fn split_at_byte(text: &[u8], byte: u8) -> Option<(&[u8], &[u8])>
    ensures { MatchOption result
        (has_byte byte text.now ≡ false)
        (λ parts. (text.now ≡ parts.0.now ++ byte ∷ parts.1.now) ×
        (has_byte byte parts.0.now ≡ false)) }
{
    for (place, other) in text.iter().enumerate() {
        if *other == byte {
            return Some((&text[..place], &text[place + 1..]));
        }
    }
    None
}

/// What stands before and after two colons side by side.
pub fn split_at_gap(text: &[u8]) -> Option<(&[u8], &[u8])>
    ensures { MatchOption result
        ((left right : List ℕ) → text.now ≡ left ++ colon ∷ colon ∷ right → ⊥)
        (λ parts. text.now ≡ parts.0.now ++ colon ∷ colon ∷ parts.1.now) }
{
    for place in 1..text.len() {
        if text[place - 1] == b':' && text[place] == b':' {
            return Some((&text[..place - 1], &text[place + 1..]));
        }
    }
    None
}
