// A run of a cluster: nodes at their seats, and the carriers by which their letters go.
#![tactic(auto)]

mod full;
mod meeting;
mod over;
mod pass;
mod round;
mod run;
mod seat;
mod seating;
mod seats;
mod serial;
mod shift;
mod side;
mod still;
mod threads;

pub use meeting::{meet_self, meet_sides};
pub use over::{Nodes, Over, OverWhy};
pub use seat::{Rest, Seat};
pub use seats::{meet_all, meet_row};
pub use serial::run_serial;
pub use shift::{SHIFT_IDLE_TURNS, SHIFT_TURNS};
pub use side::{hand, look};
pub use threads::run_threads;
