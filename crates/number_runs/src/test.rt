ghost use Rattle.std.specs.Prelude.{◌≡◌, ℕ, Bool};

/// A test of numbers, by which a place in a list is looked for: the numbers before it pass, and those after it don't.
pub trait Test {
    ghost passes: { Self → ℕ → Bool };

    fn passes(&self, number: u32) -> bool
        ensures { result ≡ passes self.now number };
}
