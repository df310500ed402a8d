// What lists of numbers that pass a test hold.
ghost use Rattle.std.specs.Prelude.{ℕ, Bool};
ghost use Rattle.lemmas.specs.Below.{HasNumbers};

/// A law: the list of the numbers below a bound that pass a test has each of them, once, and no other.
pub fn numbers_are_listed()
    ensures { (n : ℕ) (p : ℕ → Bool) → HasNumbers n p }
{}
