ghost use Rattle.std.specs.Prelude.{◌≡◌, string_bytes};
ghost use Rattle.std.specs.List.{list_any};
ghost use Rattle.command_words.specs.Refused.{is_dashed as is_dashed_text, is_help as is_help_text, is_refused as is_refused_text};

/// Whether the word is `--`, or a hyphen and then something other than a hyphen, as `-h` and `-V`.
fn is_dashed(word: &str) -> bool
    ensures { result ≡ is_dashed_text word.now }
{
    match word.as_bytes() {
        [b'-'] => false,
        [b'-', b'-'] => true,
        [b'-', b'-', ..] => false,
        [b'-', ..] => true,
        _ => false,
    }
}

/// Whether the word asks for help or for the version.
fn is_help(word: &str) -> bool
    ensures { result ≡ is_help_text word.now }
{
    word == "help" || word == "--help" || word == "--version"
}

/// Whether no form has the word, whatever stands around it.
fn is_refused(word: &str) -> bool
    ensures { result ≡ is_refused_text word.now }
{
    is_dashed(word) || is_help(word)
}

/// Whether one of the words is refused.
pub fn has_refused(words: &[String]) -> bool
    ensures { result ≡ list_any (λ word. is_refused_text (string_bytes word)) words.now }
{
    words.iter().any(|word| is_refused(word.as_str()))
}
