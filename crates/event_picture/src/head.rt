// The head of a picture: its title, its legend, its lanes and the axis of time.
ghost use Rattle.std.specs.Prelude.{◌<◌, ◌^◌};

use crate::colour::{COLOURS, PALETTE, colour_of};
use crate::layout::{
    BELOW, FIRST_LANE, HALF_BAR, HALF_LANE, HOME, LANE, LEFT, MARKS, PROCESSES, RIGHT, TITLE,
    axis_of, lane_middle,
};
use crate::marks::{Arrow, Bar, Occasion, Point, Sign, Trip};
use crate::scale::Scale;
use crate::survey::Survey;
use std::alloc::{AllocError, Global};

/// How the marks look. Fonts are the reader's own.
const STYLE: &str = "<style>\
text{font:12px sans-serif;fill:#222}\
.title{font-size:14px;font-weight:bold}\
.lane{fill:#f2f4f7}\
.home{stroke:#555;stroke-width:2}\
.axis{stroke:#888;fill:none}\
.b{stroke-width:16}\
.q{fill:none;marker-end:url(#grey)}\
.a{fill:none;stroke-dasharray:3 2;marker-end:url(#grey)}\
.m{stroke-width:3;fill:none;marker-end:url(#black)}\
.s{fill:#fff;stroke:#c00;stroke-width:2}\
.r{fill:none;stroke:#c00;stroke-width:2}\
.e{fill:#222}\n";

/// The points of arrows.
const POINTS: &str = "<defs>\
<marker id=\"grey\" viewBox=\"0 0 8 8\" refX=\"8\" refY=\"4\" markerWidth=\"7\" markerHeight=\"7\" markerUnits=\"userSpaceOnUse\" orient=\"auto\"><path d=\"M0 0L8 4L0 8z\" fill=\"#777\"/></marker>\
<marker id=\"black\" viewBox=\"0 0 8 8\" refX=\"8\" refY=\"4\" markerWidth=\"12\" markerHeight=\"12\" markerUnits=\"userSpaceOnUse\" orient=\"auto\"><path d=\"M0 0L8 4L0 8z\" fill=\"#222\"/></marker>\
</defs>\n";

/// Puts the element that holds the picture.
fn push_opening(text: &mut String, survey: &Survey, scale: &Scale) -> Result<(), AllocError> {
    let width = LEFT + scale.width() + RIGHT;
    let height = axis_of(survey.nodes) + BELOW;
    write!(
        text,
        "<svg xmlns=\"http://www.w3.org/2000/svg\" width=\"{width}\" height=\"{height}\" viewBox=\"0 0 {width} {height}\">\n"
    )?;
    write!(
        text,
        "<rect width=\"{width}\" height=\"{height}\" fill=\"#fff\"/>\n"
    )
}

/// Puts how everything looks.
fn push_style(text: &mut String) -> Result<(), AllocError> {
    text.push_str(STYLE)?;
    for (number, colour) in PALETTE.iter().enumerate() {
        write!(text, ".c{number}{{stroke:{colour}}}\n")?;
    }
    text.push_str("</style>\n")?;
    text.push_str(POINTS)
}

/// Puts the title.
fn push_title(text: &mut String, survey: &Survey) -> Result<(), AllocError> {
    let Survey {
        events,
        nodes,
        first,
        last,
        ..
    } = *survey;
    write!(
        text,
        "<text class=\"title\" x=\"12\" y=\"{TITLE}\">nodes: {nodes}, events: {events}, stamps: {first} to {last}</text>\n"
    )
}

/// Puts a word of the legend behind its mark.
fn push_word(text: &mut String, x: u32, y: u32, word: &str) -> Result<(), AllocError>
    requires { y < 2 ^ 16 }
{
    write!(text, "<text x=\"{x}\" y=\"{}\">{word}</text>\n", y + 4)
}

/// Puts the colours of the first processes.
fn push_processes(text: &mut String, survey: &Survey) -> Result<(), AllocError> {
    push_word(text, 12, PROCESSES, "process")?;
    let shown = survey.pids.min(COLOURS);
    for pid in 1..shown + 1 {
        let x = LEFT + 60 * (pid - 1);
        let bar = Bar {
            pid,
            from: x,
            to: x + 20,
            y: PROCESSES,
        };
        write!(
            text,
            "{bar}<text x=\"{}\" y=\"{}\">{pid}</text>\n",
            x + 26,
            PROCESSES + 4
        )?;
    }
    if survey.pids > shown {
        push_word(text, LEFT + 60 * shown, PROCESSES, "and so on")?;
    }
    Ok(())
}

/// Puts an arrow of the legend.
fn push_trip(text: &mut String, trip: Trip, x: u32, word: &str) -> Result<(), AllocError>
    requires { x < 2 ^ 16 }
{
    let arrow = Arrow {
        trip,
        pid: 0,
        from: Point { x, y: MARKS },
        to: Point {
            x: x + 28,
            y: MARKS,
        },
    };
    write!(text, "{arrow}/>\n")?;
    push_word(text, x + 34, MARKS, word)
}

/// Puts a sign of the legend.
fn push_occasion(
    text: &mut String,
    occasion: Occasion,
    x: u32,
    word: &str,
) -> Result<(), AllocError>
    requires { x < 2 ^ 16 }
{
    let sign = Sign {
        occasion,
        at: Point { x, y: MARKS },
    };
    write!(text, "{sign}/>\n")?;
    push_word(text, x + 10, MARKS, word)
}

/// Puts what the marks mean.
fn push_marks(text: &mut String) -> Result<(), AllocError> {
    push_trip(text, Trip::Call, LEFT, "call")?;
    push_trip(text, Trip::Answer, LEFT + 80, "answer")?;
    push_trip(text, Trip::Move, LEFT + 180, "move")?;
    push_occasion(text, Occasion::Signal, LEFT + 280, "signal")?;
    push_occasion(text, Occasion::Refusal, LEFT + 360, "refusal")?;
    push_occasion(text, Occasion::End, LEFT + 440, "end")
}

/// Puts the line of home and the lanes of the nodes.
fn push_lanes(text: &mut String, survey: &Survey, scale: &Scale) -> Result<(), AllocError> {
    let width = scale.width();
    push_word(text, 12, HOME, "home")?;
    write!(
        text,
        "<path class=\"home\" d=\"M{LEFT} {HOME}h{width}\"/>\n"
    )?;
    for node in 0..survey.nodes {
        let middle = lane_middle(node);
        write!(
            text,
            "<rect class=\"lane\" x=\"{LEFT}\" y=\"{}\" width=\"{width}\" height=\"{}\"/>\n",
            middle - HALF_LANE,
            2 * HALF_LANE
        )?;
        write!(
            text,
            "<text x=\"12\" y=\"{}\">node {node}</text>\n",
            middle + 4
        )?;
    }
    Ok(())
}

/// How far apart the stamps at the axis are: the least of 1, 2, 5, 10, 20 and so on with which there are at most 16 of them.
fn stamps_apart(stamps: u64) -> u64 {
    let mut unit = 1u64;
    for _ in 0..18 {
        for factor in [1u64, 2, 5] {
            let apart = unit.saturating_mul(factor);
            if stamps <= apart.saturating_mul(16) {
                return apart;
            }
        }
        unit = unit.saturating_mul(10);
    }
    unit
}

/// Puts the axis of time.
fn push_axis(text: &mut String, survey: &Survey, scale: &Scale) -> Result<(), AllocError> {
    let y = axis_of(survey.nodes);
    write!(
        text,
        "<path class=\"axis\" d=\"M{LEFT} {y}h{}\"/>\n",
        scale.width()
    )?;
    push_word(text, 12, y, "stamp")?;
    let apart = stamps_apart(survey.last - survey.first + 1);
    let mut stamp = survey.first;
    for _ in 0..17 {
        let next = stamp - stamp % apart.max(1);
        let x = LEFT + scale.place(stamp);
        write!(text, "<path class=\"axis\" d=\"M{x} {y}v5\"/>")?;
        write!(
            text,
            "<text x=\"{x}\" y=\"{}\" text-anchor=\"middle\">{stamp}</text>\n",
            y + 20
        )?;
        stamp = next.saturating_add(apart);
        if stamp > survey.last {
            break;
        }
    }
    Ok(())
}

/// All that stands before the first mark.
pub fn head_text(alloc: Global, survey: &Survey) -> Result<String, AllocError> {
    let scale = Scale::new(survey.first, survey.last);
    let mut text = String::new(alloc);
    push_opening(&mut text, survey, &scale)?;
    push_style(&mut text)?;
    push_title(&mut text, survey)?;
    push_processes(&mut text, survey)?;
    push_marks(&mut text)?;
    push_lanes(&mut text, survey, &scale)?;
    push_axis(&mut text, survey, &scale)?;
    Ok(text)
}
