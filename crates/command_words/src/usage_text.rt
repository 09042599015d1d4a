ghost use Rattle.std.specs.Prelude.{◌≡◌, [], ◌∷◌, ◌++◌, codes};

/// What is printed where the words have no form.
pub fn usage() -> &'static str
    ensures { result.now ≡ codes "usage: netd_run run [--refuse LIST] [--break LIST]" ++ 10
        ∷ codes "       netd_run check" ++ 10
        ∷ codes "       netd_run soak SEED COUNT" ++ 10 ∷ [] }
{
    "usage: netd_run run [--refuse LIST] [--break LIST]\n       netd_run check\n       netd_run soak SEED COUNT\n"
}
