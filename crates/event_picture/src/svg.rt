// Marks as text.
use crate::colour::colour_of;
use crate::layout::HALF_BAR;
use crate::marks::{Arrow, Bar, Marks, Occasion, Point, Sign, Trip};
use call_table::NoMemory;
use node_event::Event;
use std::alloc::{AllocError, Global};
use std::fmt;

impl fmt::Display for Point {
    fn fmt<W: fmt::Write>(&self, f: &mut fmt::Formatter<W>) -> fmt::Result {
        write!(f, "{} {}", self.x, self.y)
    }
}

/// A line as thick as a bar.
impl fmt::Display for Bar {
    fn fmt<W: fmt::Write>(&self, f: &mut fmt::Formatter<W>) -> fmt::Result {
        let colour = colour_of(self.pid);
        let long = self.to.saturating_sub(self.from);
        write!(
            f,
            "<path class=\"b c{colour}\" d=\"M{} {}h{long}\"/>\n",
            self.from, self.y
        )
    }
}

/// The letter of the class that gives an arrow its look.
fn class_of(trip: Trip) -> char {
    match trip {
        Trip::Call => 'q',
        Trip::Answer => 'a',
        Trip::Move => 'm',
    }
}

/// The line of an arrow, without its end.
impl fmt::Display for Arrow {
    fn fmt<W: fmt::Write>(&self, f: &mut fmt::Formatter<W>) -> fmt::Result {
        let class = class_of(self.trip);
        let colour = colour_of(self.pid);
        write!(
            f,
            "<path class=\"{class} c{colour}\" d=\"M{}L{}\"",
            self.from, self.to
        )
    }
}

/// A circle for a signal, a cross for a refusal, a square for an end.
impl fmt::Display for Sign {
    fn fmt<W: fmt::Write>(&self, f: &mut fmt::Formatter<W>) -> fmt::Result {
        let at = self.at;
        match self.occasion {
            Occasion::Signal => {
                write!(
                    f,
                    "<path class=\"s\" d=\"M{at}m-4 0a4 4 0 1 0 8 0a4 4 0 1 0-8 0\""
                )
            }
            Occasion::Refusal => write!(f, "<path class=\"r\" d=\"M{at}m-4-4l8 8m0-8l-8 8\""),
            Occasion::End => write!(f, "<path class=\"e\" d=\"M{at}m-4-4h8v8h-8z\""),
        }
    }
}

/// Puts an arrow, with the line of the event as its title where it is a move.
fn push_arrow(text: &mut String, arrow: &Arrow, event: &Event) -> Result<(), AllocError> {
    match arrow.trip {
        Trip::Move => write!(text, "{arrow}><title>{event}</title></path>\n"),
        _ => write!(text, "{arrow}/>\n"),
    }
}

/// The text of what an event adds.
pub fn marks_text(alloc: Global, marks: &Marks, event: &Event) -> Result<String, AllocError> {
    let mut text = String::new(alloc);
    if let Some(bar) = marks.bar {
        write!(text, "{bar}")?;
    }
    if let Some(arrow) = marks.arrow {
        push_arrow(&mut text, &arrow, event)?;
    }
    if let Some(sign) = marks.sign {
        write!(text, "{sign}><title>{event}</title></path>\n")?;
    }
    Ok(text)
}

/// The last bars, and the end of the picture.
pub fn foot_text(alloc: Global, bars: &[Option<Bar>; 8]) -> Result<String, AllocError> {
    let mut text = String::new(alloc);
    for bar in bars {
        if let Some(bar) = bar {
            write!(text, "{bar}")?;
        }
    }
    text.push_str("</svg>\n")?;
    Ok(text)
}
