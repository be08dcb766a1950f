//! What is around the bands: the title, the axis and the style. All that is written is fixed text
//! and numbers, so there is nothing to escape.

use super::axis::{Axis, LEFT, RIGHT};
use super::clock::scale_word;
use super::style::STYLE;
use super::survey::Survey;
use crate::TimeScale;
use std::alloc::AllocError;

/// The most ticks.
const MOST_TICKS: u64 = 12;
/// Where the upper line of the axis is.
const UPPER: u64 = 66;

/// Writes a number and what it counts.
fn write_count(out: &mut String, count: u64, word: &str) -> Result<(), AllocError> {
    let ending = if count == 1 { "" } else { "s" };
    write!(out, "{count} {word}{ending}")
}

/// Writes the line that counts what is in the picture.
fn write_headline(out: &mut String, survey: &Survey) -> Result<(), AllocError> {
    write_count(out, survey.queues, "queue")?;
    out.push_str(", ")?;
    write_count(out, survey.messages, "message")?;
    out.push_str(", ")?;
    write_count(out, survey.refusals, "refusal")
}

/// How many queues have no band.
fn left_out(survey: &Survey) -> u64 {
    survey.queues.saturating_sub(survey.bands.len() as u64)
}

/// Begins the picture.
pub(crate) fn write_head(out: &mut String, survey: &Survey) -> Result<(), AllocError> {
    let more = if left_out(survey) > 0 { 18 } else { 0 };
    let height = survey.bottom.saturating_add(34 + more);
    out.push_str("<svg xmlns='http://www.w3.org/2000/svg' width='1200' ")?;
    write!(
        out,
        "height='{height}' viewBox='0 0 1200 {height}'>\n<title>"
    )?;
    write_headline(out, survey)?;
    out.push_str("</title>\n")?;
    out.push_str(STYLE)?;
    writeln!(out, "<rect class='p' width='1200' height='{height}'/>")?;
    out.push_str("<text class='h' x='16' y='26'>")?;
    write_headline(out, survey)?;
    out.push_str("</text>\n<text class='n' x='16' y='44'>")?;
    out.push_str("Each bar is a message, from its sending to its receipt, with its type; ")?;
    out.push_str("at most 8 at once. Below: how many wait (solid), and their bytes (dashed).")?;
    out.push_str("</text>\n")?;
    write_grid(out, survey.axis(), survey.bottom)?;
    write_axis(out, survey.axis(), survey.scale, UPPER)?;
    write_axis(
        out,
        survey.axis(),
        survey.scale,
        survey.bottom.saturating_add(18),
    )
}

/// Draws a line down from each tick.
fn write_grid(out: &mut String, axis: Axis, bottom: u64) -> Result<(), AllocError> {
    out.push_str("<path class='g' d='")?;
    for i in 0..MOST_TICKS {
        if let Some(time) = axis.tick(i) {
            let x = axis.column(time);
            write!(out, "M{x} {UPPER}V{bottom}")?;
        }
    }
    write!(out, "'/>\n<path class='r' d='M{LEFT} {UPPER}.5H{RIGHT}")?;
    writeln!(out, "M{LEFT} {bottom}.5H{RIGHT}'/>")
}

/// Writes the numbers of the ticks, above this line.
fn write_axis(out: &mut String, axis: Axis, scale: TimeScale, line: u64) -> Result<(), AllocError> {
    let y = line.saturating_sub(4);
    let word = scale_word(scale);
    writeln!(out, "<text class='n' x='16' y='{y}'>{word}</text>")?;
    for i in 0..MOST_TICKS {
        if let Some(time) = axis.tick(i) {
            let x = axis.column(time);
            writeln!(out, "<text class='t' x='{x}' y='{y}'>{time}</text>")?;
        }
    }
    Ok(())
}

/// Ends the picture.
pub(crate) fn write_foot(out: &mut String, survey: &Survey) -> Result<(), AllocError> {
    let count = left_out(survey);
    if count > 0 {
        let y = survey.bottom.saturating_add(34);
        write!(out, "<text class='n' x='16' y='{y}'>")?;
        write_count(out, count, "more queue")?;
        out.push_str(" without a band</text>\n")?;
    }
    out.push_str("</svg>\n")
}
