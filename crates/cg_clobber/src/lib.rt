//! Clobber.
#![tactic(auto)]

mod capturing;
pub mod laws;
mod putting;
mod reading;
mod stones;
mod way;

pub use capturing::captures;
pub use reading::read;
pub use stones::Clobber;
pub use way::Way;
