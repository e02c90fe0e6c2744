// A drawing under way: what each event adds to it.
ghost use Rattle.std.specs.Prelude.{◌≤◌};

use crate::lanes::Lanes;
use crate::layout::{HALF_BAR, HOME, LEFT, SIGNS, lane_middle};
use crate::marks::{Arrow, Bar, Marks, Occasion, Point, Sign, Trip};
use crate::scale::Scale;
use crate::survey::Survey;
use crate::tracks::{Departure, Tracks};
use call_table::NoMemory;
use node_event::{Event, Kept, What};
use std::alloc::Global;

/// A drawing that grows event by event.
#[derive(Debug, Drop)]
pub struct Drawing {
    scale: Scale,
    lanes: Lanes,
    tracks: Tracks,
}

/// What an event is a sign of.
fn occasion_of(what: &What) -> Option<Occasion> {
    match *what {
        What::Served { end: Some(_), .. } => Some(Occasion::End),
        What::Served { taken: Some(_), .. } => Some(Occasion::Signal),
        What::Poked { .. } => Some(Occasion::Signal),
        What::Deny { .. } | What::Stay { .. } | What::Refused { .. } => Some(Occasion::Refusal),
        What::Got {
            kept: Some(Kept::Ended),
            ..
        } => Some(Occasion::Refusal),
        What::Command {
            unsent: Some(_),
            ..
        } => Some(Occasion::Refusal),
        _ => None,
    }
}

/// Whether an event is one of home's side, whose signs stand on its line.
fn is_at_home(what: &What) -> bool {
    match what {
        What::Served { .. } | What::Command { .. } => true,
        _ => false,
    }
}

/// The upper edge of a lane's bars, where calls set out and answers come in.
fn lane_top(node: u8) -> u32 {
    lane_middle(node) - HALF_BAR
}

/// Where the arrow of a move leaves one lane and comes to another.
fn move_edges(from: u8, to: u8) -> (u32, u32) {
    if from < to {
        (lane_middle(from) + HALF_BAR, lane_top(to))
    } else {
        (lane_top(from), lane_middle(to) + HALF_BAR)
    }
}

impl Drawing {
    /// An empty drawing of events that were surveyed.
    pub fn new(alloc: Global, survey: &Survey) -> Result<Drawing, NoMemory> {
        Ok(Drawing {
            scale: Scale::new(survey.first, survey.last),
            lanes: Lanes::EMPTY,
            tracks: Tracks::new(alloc, survey.pids)?,
        })
    }

    /// What an event adds. Events come in the order of their stamps.
    pub fn add_event(&mut self, event: &Event) -> Marks {
        let bar = self.bar(event);
        let arrow = self.arrow(event);
        let sign = self.sign(event);
        Marks { bar, arrow, sign }
    }

    /// The bars that no event has ended.
    pub fn open_bars(&self) -> [Option<Bar>; 8] {
        self.lanes.bars()
    }

    /// Where a stamp stands.
    fn x(&self, stamp: u64) -> u32
        ensures within { result ≤ 1672 }
    {
        LEFT + self.scale.place(stamp)
    }

    /// The bar that steps end, or none.
    fn bar(&mut self, event: &Event) -> Option<Bar> {
        let What::Steps { pid, .. } = event.what else {
            return None;
        };
        let from = self.x(event.stamp);
        let to = self.x(event.stamp.saturating_add(1)).max(from + 1);
        let y = lane_middle(event.node);
        self.lanes
            .lane(event.node)?
            .add_steps(Bar { pid, from, to, y })
    }

    /// The arrow that comes in at an event, where there is room for it.
    fn arrow(&mut self, event: &Event) -> Option<Arrow> {
        let x = self.x(event.stamp);
        let here = Departure {
            node: event.node,
            x,
        };
        match event.what {
            What::Sent { pid, .. } | What::Heed { pid } => {
                let track = self.tracks.of(pid);
                self.tracks.put(pid, track.with_call(Some(here)));
                None
            }
            What::Held { pid, .. } => self.call_came(pid, x),
            What::Served { pid, .. } => {
                let call = self.call_came(pid, x);
                let track = self.tracks.of(pid);
                self.tracks.put(pid, track.with_answer(Some(x)));
                call
            }
            What::Got { pid, .. } => self.answer_came(pid, here),
            What::Depart { pid, .. } => {
                let track = self.tracks.of(pid);
                self.tracks.put(pid, track.with_depart(Some(here)));
                None
            }
            What::Land { pid, source } => Some(self.landed(pid, source, here)),
            _ => None,
        }
    }

    /// The arrow of a call that came home.
    fn call_came(&mut self, pid: u32, x: u32) -> Option<Arrow> {
        let track = self.tracks.of(pid);
        let from = track.call?;
        self.tracks.put(pid, track.with_call(None));
        if !self.lanes.lane(from.node)?.takes_call(x) {
            return None;
        }
        Some(Arrow {
            trip: Trip::Call,
            pid,
            from: Point {
                x: from.x,
                y: lane_top(from.node),
            },
            to: Point { x, y: HOME },
        })
    }

    /// The arrow of an answer that came to its process.
    fn answer_came(&mut self, pid: u32, here: Departure) -> Option<Arrow> {
        let track = self.tracks.of(pid);
        let left = track.answer?;
        self.tracks.put(pid, track.with_answer(None));
        if !self.lanes.lane(here.node)?.takes_answer(here.x) {
            return None;
        }
        Some(Arrow {
            trip: Trip::Answer,
            pid,
            from: Point { x: left, y: HOME },
            to: Point {
                x: here.x,
                y: lane_top(here.node),
            },
        })
    }

    /// The arrow of a process that came from another node. One that was not seen to depart left there at the same time.
    fn landed(&mut self, pid: u32, source: u8, here: Departure) -> Arrow {
        let track = self.tracks.of(pid);
        self.tracks.put(pid, track.with_depart(None));
        let from = track.depart.unwrap_or(Departure {
            node: source,
            x: here.x,
        });
        let (left, come) = move_edges(from.node, here.node);
        Arrow {
            trip: Trip::Move,
            pid,
            from: Point { x: from.x, y: left },
            to: Point { x: here.x, y: come },
        }
    }

    /// The sign of an event, where there is room for it.
    fn sign(&mut self, event: &Event) -> Option<Sign> {
        let occasion = occasion_of(&event.what)?;
        let x = self.x(event.stamp);
        let (lane, y) = if is_at_home(&event.what) {
            (self.lanes.home(), HOME)
        } else {
            (
                self.lanes.lane(event.node)?,
                lane_middle(event.node) + SIGNS,
            )
        };
        if !lane.takes_sign(x) {
            return None;
        }
        Some(Sign {
            occasion,
            at: Point { x, y },
        })
    }
}
