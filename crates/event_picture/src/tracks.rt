// What is on the way for each process.
ghost use Rattle.std.specs.Prelude.{◌≡◌};

use call_table::NoMemory;
use std::alloc::Global;

/// Where and when something set out.
#[derive(Clone, Copy, Debug, PartialEq, Eq)]
pub struct Departure {
    pub node: u8,
    pub x: u32,
}

/// What is on the way for a process: a call, an answer that left home at this place, and the process itself as it moves.
#[derive(Clone, Copy, Debug, PartialEq, Eq)]
pub struct Track {
    pub call: Option<Departure>,
    pub answer: Option<u32>,
    pub depart: Option<Departure>,
}

/// Nothing is on the way.
pub const STILL: Track = Track {
    call: None,
    answer: None,
    depart: None,
};

impl Track {
    /// This track with another call on its way.
    pub fn with_call(self, call: Option<Departure>) -> Track
        ensures { result ≡ record { call = call; answer = self.answer; depart = self.depart } }
    {
        Track { call, ..self }
    }

    /// This track with another answer on its way.
    pub fn with_answer(self, answer: Option<u32>) -> Track
        ensures { result ≡ record { call = self.call; answer = answer; depart = self.depart } }
    {
        Track { answer, ..self }
    }

    /// This track with another move on its way.
    pub fn with_depart(self, depart: Option<Departure>) -> Track
        ensures { result ≡ record { call = self.call; answer = self.answer; depart = depart } }
    {
        Track { depart, ..self }
    }
}

/// The tracks of processes by pid.
#[derive(Debug, Drop)]
pub struct Tracks {
    tracks: Vec<Track>,
}

impl Tracks {
    /// Tracks for pids up to one, on which nothing is on the way.
    pub fn new(alloc: Global, pids: u32) -> Result<Tracks, NoMemory> {
        Ok(Tracks {
            tracks: vec![in alloc; STILL; pids as usize + 1]?,
        })
    }

    /// The track of a process.
    pub fn of(&self, pid: u32) -> Track {
        self.tracks.get(pid as usize).copied().unwrap_or(STILL)
    }

    /// Puts the track of a process.
    pub fn put(&mut self, pid: u32, track: Track) {
        if let Some(place) = self.tracks.get_mut(pid as usize) {
            *place = track;
        }
    }
}
