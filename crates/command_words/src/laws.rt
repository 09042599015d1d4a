ghost use Rattle.std.specs.Prelude.{◌≡◌, List};
ghost use Rattle.command_words.specs.Forms.{Text, FormView, IsForm};

/// No words have two forms.
pub fn one_form()
    ensures { (words : List Text) (form other : FormView) → IsForm words form → IsForm words other →
        form ≡ other }
{}
