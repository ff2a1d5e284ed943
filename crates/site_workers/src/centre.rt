//! The centre of a leased square, before it is priced.

ghost use Rattle.std.specs.Prelude.{◌≡◌};
ghost use Rattle.site_workers.specs.Centre as centre;

use pool_core::{Bounds, fine_in};

/// Whether the centre site of a square with these bounds may cost less than what was seen of the
/// incumbent, in cost units: not where the square is excluded, nor where its fine bound is at least
/// what was seen.
pub(crate) fn may_be_cheaper(bounds: Bounds, seen: Option<i64>) -> bool
    ensures { result ≡ centre.may_be_cheaper bounds seen }
{
    match (fine_in(bounds), seen) {
        (None, _) => false,
        (Some(_), None) => true,
        (Some(fine), Some(seen)) => fine < seen,
    }
}
