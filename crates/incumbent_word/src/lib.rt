//! Costs as ordered words: a number, or none, in one word of 64 bits, so that the least number has
//! the least word.
#![tactic(auto)]

ghost use Rattle.std.specs.Prelude.{◌≡◌, ℕ, ◌-◌, ◌^◌, ◌<◌, ◌≤◌, ℤ, pos, ◌+ℤ◌, ◌<ℤ◌, ◌≤ℤ◌};
ghost use Rattle.std.specs.Prelude.{◌↔◌, Some, None, IsNone, IfSome, FitsSigned};
ghost use Rattle.std.specs.Int.{w64};
ghost use Rattle.incumbent_word.specs.Word.{word_of, word_in, number_in};

/// The word that stands for no number. It is above every word that stands for one.
pub const NONE: u64 = u64::MAX;

/// The word of v, in any unit: `v + 2^63`. v is less than `i64::MAX`.
pub fn to_word(v: i64) -> u64
    requires { v <ℤ pos (2 ^ 63 - 1) }
    ensures value { result ≡ word_of v }
    ensures sum { pos result ≡ v +ℤ pos (2 ^ 63) }
    ensures below_none { result < NONE }
{
    (v as i128 - i64::MIN as i128) as u64
}

/// The number whose word this is: none exactly for `NONE`. It is less than `i64::MAX`.
pub fn from_word(word: u64) -> Option<i64>
    ensures value { result ≡ number_in word }
    ensures none { IsNone result ↔ (word ≡ NONE) }
    ensures number { IfSome result (λ v. word_of v ≡ word) }
    ensures below_max { IfSome result (λ v. v <ℤ pos (2 ^ 63 - 1)) }
{
    if word == NONE {
        None
    } else {
        Some((word as i128 + i64::MIN as i128) as i64)
    }
}

/// The order of numbers is the order of their words, and different numbers have different words.
pub fn words_keep_order()
    ensures less { (a b : ℤ) → FitsSigned w64 a → FitsSigned w64 b
        → ((a <ℤ b) ↔ (word_of a < word_of b)) }
    ensures at_most { (a b : ℤ) → FitsSigned w64 a → FitsSigned w64 b
        → ((a ≤ℤ b) ↔ (word_of a ≤ word_of b)) }
    ensures same { (a b : ℤ) → FitsSigned w64 a → FitsSigned w64 b
        → ((a ≡ b) ↔ (word_of a ≡ word_of b)) }
{}

/// A number below `i64::MAX` comes back from its word, and each word from what it stands for.
pub fn words_give_numbers_back()
    ensures number { (v : ℤ) → FitsSigned w64 v → v <ℤ pos (2 ^ 63 - 1)
        → number_in (word_of v) ≡ Some v }
    ensures word { (w : ℕ) → w < 2 ^ 64 → word_in (number_in w) ≡ w }
{}

#[cfg(test)]
mod tests {
    use super::*;

    #[test]
    fn words_of_numbers(rt: HostRuntime) {
        for (v, word) in [
            (i64::MIN, 0),
            (-1, 9_223_372_036_854_775_807),
            (0, 9_223_372_036_854_775_808),
            (5, 9_223_372_036_854_775_813),
            (9_223_372_036_854_775_806, 18_446_744_073_709_551_614),
        ] {
            if v < i64::MAX {
                assert_eq!(rt; to_word(v), word, "the word of {v}");
                assert_eq!(rt; from_word(word), Some(v), "the number of {word}");
            }
        }
        assert_eq!(rt; from_word(NONE), None);
    }
}
