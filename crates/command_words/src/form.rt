ghost use Rattle.std.specs.Prelude.{◌≡◌};

/// What the words of the command line say.
#[derive(Debug, Drop)]
pub enum Form {
    /// Run a script, and refuse or break the requests with these numbers, counted from 1. An option that
    /// isn't given is an empty list.
    Run { refuse: Vec<u64>, breaks: Vec<u64> },
    /// A form whose only word is its name.
    Wordless(Wordless),
    /// Run the script that is made from this seed, of which so many lines are drawn: at most 100,000.
    Soak { seed: u64, count: u32 },
}

/// The forms whose only word is their name.
#[derive(Clone, Copy, Debug, PartialEq, Eq)]
pub enum Wordless {
    /// Print the lines of a script in canonical form.
    Check,
}

/// All of these.
pub const ALL_WORDLESS: [Wordless; 1] = [Wordless::Check];

impl Wordless {
    ghost use Rattle.command_words.specs.Forms.{name_of};

    /// Its word.
    pub fn name<'a>(self) -> &'a str
        ensures { result.now ≡ name_of self }
    {
        match self {
            Wordless::Check => "check",
        }
    }
}
