//! Instances: demand points, and the polygons in which a site may stand and may not.
#![tactic(auto)]

mod demand;
mod instance;
mod laws;
mod root;
mod site;
#[cfg(test)]
mod tests;

pub use demand::DemandPt;
pub use instance::Instance;
pub use laws::{the_root_has_the_least_side, the_root_holds_every_permitted_point};
pub use root::square_round;
pub use site::Site;
pub use siting_definitions::Kind;
