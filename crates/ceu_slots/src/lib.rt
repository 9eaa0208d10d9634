//! How many bytes the slots of a program take, and where each of them lies.
#![tactic(auto)]

mod layout;
mod needs;
mod places;
mod plans;

pub use layout::SlotPlace;
pub use needs::slot_need;
pub use places::{OverlapPlaces, Places, PlainPlaces};
