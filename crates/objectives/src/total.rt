//! Totals, made term by term.

ghost use Rattle.std.specs.Prelude.{◌≡◌, ℕ, ◌^◌, ◌<◌, ◌≤◌, ℤ, pos, ◌*ℤ◌, Option, unsigned_abs};
ghost use Rattle.objectives.specs.Totals.{IsTotal, max_joined, size_of, sum_joined};
ghost use Rattle.objectives.specs.TotalLaws.{sum_is_total, max_is_total};

/// How the terms "weight times radius" make a total, one after another.
///
/// Joined over a list, the total never falls when a radius of positive weight grows, never rises
/// when a radius of negative weight grows, and is multiplied by a number of at least 0 by which
/// every radius is multiplied.
pub trait Total {
    ghost joined: { Option ℤ → ℤ → ℕ → ℤ };

    /// The total with one more term, the weight `w` times the radius `r`. There is none so far at
    /// the first term.
    fn join(so_far: Option<i128>, w: i64, r: u64) -> i128
        requires so_far { size_of so_far ≤ 2 ^ 100 }
        requires weight { unsigned_abs w ≤ 2 ^ 24 }
        requires radius { r < 2 ^ 63 }
        ensures { result ≡ joined so_far w r };

    ghost law: { IsTotal joined };
}

/// The sum of the terms.
#[derive(Clone, Copy, Debug)]
pub struct SumTotal;

impl Total for SumTotal {
    ghost joined = { sum_joined };

    ghost law = { sum_is_total };

    fn join(so_far: Option<i128>, w: i64, r: u64) -> i128 {
        let term = term(w, r);
        match so_far {
            Some(total) => total + term,
            None => term,
        }
    }
}

/// The greatest of the terms.
#[derive(Clone, Copy, Debug)]
pub struct MaxTotal;

impl Total for MaxTotal {
    ghost joined = { max_joined };

    ghost law = { max_is_total };

    fn join(so_far: Option<i128>, w: i64, r: u64) -> i128 {
        let term = term(w, r);
        match so_far {
            Some(total) => total.max(term),
            None => term,
        }
    }
}

/// A weight times a radius, by one multiplication of signed numbers of 64 bits.
#[inline(always)]
fn term(w: i64, r: u64) -> i128
    requires weight { unsigned_abs w ≤ 2 ^ 24 }
    requires radius { r < 2 ^ 63 }
    ensures value { result ≡ w *ℤ pos r }
    ensures size { unsigned_abs result ≤ 2 ^ 88 }
{
    w as i128 * r as i64 as i128
}
