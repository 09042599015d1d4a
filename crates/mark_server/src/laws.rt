ghost use Rattle.std.specs.Prelude.{◌≡◌, ◌<◌, ◌^◌, ℕ};
ghost use Rattle.mark_server.specs.Fields.{Fields, fields_of, word_of};

/// The word that is made of some fields has these and no others, and each word is made of its own. So what a call doesn't name
/// in a mark stays.
pub fn words_have_their_fields()
    ensures fields { (f : Fields) → f.net < 2 ^ 16 → f.permission < 4 → f.upper < 4096 →
        fields_of (word_of f) ≡ f }
    ensures word { (word : ℕ) → word_of (fields_of word) ≡ word }
{}
