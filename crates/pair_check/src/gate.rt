//! Gates, which the parts of a check pass.

/// What each part of a batch that has a line passes before it is checked. It has no meaning: it
/// gives nothing, and can't reach the lines.
pub trait CheckGate {
    /// The part of this number, from 0, is about to be checked.
    fn pass(&self, part: u32);
}

/// The gate that does nothing.
#[derive(Drop)]
pub struct OpenCheckGate;

impl CheckGate for OpenCheckGate {
    fn pass(&self, _part: u32) {}
}
