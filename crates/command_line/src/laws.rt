//! The law of the words. The function here does nothing, and its clause is the law.

ghost use Rattle.std.specs.Prelude.{◌≡◌, ℕ, List, ◌∷◌, IsPermutation};
ghost use Rattle.command_line.specs.Words.{command_of};

/// The order of the words after the command doesn't count.
pub fn words_in_any_order()
    ensures { (name : List ℕ) (words others : List (List ℕ)) → IsPermutation words others
        → command_of (name ∷ words) ≡ command_of (name ∷ others) }
{}
