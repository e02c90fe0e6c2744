// Pictures of runs: a report with its events becomes one SVG, a lane a node, time by stamp.
#![tactic(auto)]

mod colour;
mod drawing;
mod ended;
mod head;
mod lanes;
mod layout;
mod marks;
mod picture;
mod report;
mod scale;
mod survey;
mod svg;
mod tracks;

pub use ended::Ended;
pub use picture::{draw_report, status_of};

#[cfg(test)]
mod tests;
