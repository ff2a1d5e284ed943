//! The two traits, and the error of their calls.

ghost use Rattle.std.specs.Prelude.{◌≡◌, ℕ, ◌<◌, ◌≤◌, Bool, List, [], Option, length, IfOk, OnOk};
ghost use Rattle.std.specs.Prelude.{IsTrue};
ghost use Rattle.port_io.specs.Faults.{HasCause};
ghost use Rattle.port_io.specs.Bytes.{Reads, Took, Writes};

/// A read or a write that failed. The count of faults of its port rose.
#[derive(Clone, Copy, Debug, PartialEq, Eq)]
pub struct Failed;

/// Where bytes come from.
///
/// A source has the bytes that are left, where it tells them, and a count of faults that never
/// falls. Where it does not tell them, a read of 0 bytes is taken as the end. A strict source
/// counts no fault in a call that doesn't fail.
pub trait Source {
    /// The bytes that are left, where the source tells them.
    ghost left: { Self → Option (List ℕ) };

    /// How many faults the source counted.
    ghost faults: { Self → ℕ };

    /// Whether the count stays in each call that doesn't fail.
    ghost is_strict: { Bool };

    /// Reads some of the bytes left into the front of `buf`, and says how many: at least one,
    /// except at the end. It fails only where the count of faults rose in this call, and what
    /// is left is then unchanged.
    fn read(&mut self, buf: &mut [u8]) -> Result<usize, Failed>
        requires { 0 < length buf.old }
        ensures bound { IfOk result (λ n. n ≤ length buf.new) }
        ensures bytes { Reads (left self.old) (left self.new) result buf.new }
        ensures cause { HasCause (faults self.old) (faults self.new) result }
        ensures strict { IsTrue is_strict → OnOk result (faults self.new ≡ faults self.old) };
}

/// Where bytes go.
///
/// A sink has the bytes that it took, where it tells them, and a count of faults that never falls;
/// a strict one counts none in a call that doesn't fail. One that tells its bytes after a call also
/// told them before that call. Its room, if it has one, is how many bytes it tells at most:
/// one that tells at first tells what it took exactly as long as that fits its room.
pub trait Sink {
    /// How many bytes the sink tells at most, if there is a limit.
    ghost room: { Self → Option ℕ };

    /// The bytes that the sink took, where it tells them.
    ghost taken: { Self → Option (List ℕ) };

    /// How many faults the sink counted.
    ghost faults: { Self → ℕ };

    /// Whether the count stays in each call that doesn't fail.
    ghost is_strict: { Bool };

    /// Takes some of the front of `piece`, at least one byte, and says how many. It fails only
    /// where the count of faults rose in this call, and what was taken is then unchanged.
    fn write(&mut self, piece: &[u8]) -> Result<usize, Failed>
        requires { 0 < length piece.now }
        ensures bound { IfOk result (λ n. (0 < n) × (n ≤ length piece.now)) }
        ensures bytes { Writes (room self.old) (taken self.old) (taken self.new) result piece.now }
        ensures room { room self.new ≡ room self.old }
        ensures cause { HasCause (faults self.old) (faults self.new) result }
        ensures strict { IsTrue is_strict → OnOk result (faults self.new ≡ faults self.old) };

    /// To take nothing changes nothing: what a sink tells fits its room.
    ghost nothing: { (s : Self) → Took (room s) (taken s) (taken s) [] };
}
