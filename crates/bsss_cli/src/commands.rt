//! The commands, a file each.

pub(crate) mod check;
pub(crate) mod load;
pub(crate) mod make;
pub(crate) mod near;
pub(crate) mod polish;
pub(crate) mod resume;
pub(crate) mod solve;
pub(crate) mod trial;
