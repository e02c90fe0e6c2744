// A node of the cluster: what one turn of it does.
#![tactic(auto)]

mod asking;
mod course;
mod halves;
mod kinds;
mod landing;
mod laws;
mod letters;
mod lines;
mod moves;
mod node;
mod outbox;
mod rotation;
mod shape;
mod sight;
mod talk;
mod turn;

pub use laws::laws_of_turns;
pub use node::Node;
pub use outbox::Outbox;
pub use shape::{Plan, Shape};
pub use turn::Turned;
