// The links between the nodes of a cluster: rings of letters, and what a node holds of them.
#![tactic(auto)]

mod carrier;
mod ends;
mod ring;
mod rings;
mod side;
#[cfg(test)]
mod tests;

pub use carrier::Carrier;
pub use ends::{In, Out};
pub use ring::RingCarrier;
pub use rings::{LINK_LETTERS, link, ring_carriers};
pub use side::{Carriers, Side, Towards};
