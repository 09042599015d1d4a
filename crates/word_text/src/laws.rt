ghost use Rattle.std.specs.Prelude.{◌≡◌, ℕ, List};
ghost use Rattle.word_text.specs.Grammar.{IsSpelled, Kind, ValueOf};
ghost use Rattle.word_text.specs.Texts.{IsWithin, value_text};

/// No word spells two values of a kind.
pub fn one_value()
    ensures { (kind : Kind) (text : List ℕ) (a b : ValueOf kind)
        → IsSpelled kind a text → IsSpelled kind b text → a ≡ b }
{}

/// What is written of a value spells it.
pub fn what_is_written()
    ensures { (kind : Kind) (value : ValueOf kind)
        → IsWithin kind value → IsSpelled kind value (value_text kind value) }
{}
