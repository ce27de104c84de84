// The picture: a band for each landing, a bar for each wait where it began and as tall as it was long, resets across all bands, axes.
// Coordinates are cycles with `e-6` after them, since browsers paint nothing far beyond a million; the browser scales them.
use crate::Rows;
use crate::sums::Sums;
use crate::words::{Mark, Times, put};
use bar_rows::{Joined, Row};
use bars::Bar;
use seconds::MINUTE;
use std::io::Write;
use streams::{Cut, Output};
use waiting::{Carried, Landing};

// The most marks of the axis of times, and of lengths.
const TIMES: u64 = 9;

const LENGTHS: u64 = 3;

// More than either axis has.
const MARKS: u64 = 12;

// So many means tall is a band at most: one wait of hours doesn't flatten the rest.
const MEANS: u64 = 8;

// The cycles of a band's width and height, and by what times are told.
#[derive(Clone, Copy)]
struct Scale {
    width: u64,
    top: u64,
    times: Times,
}

pub fn picture(
    out: &mut Output<impl Write>,
    carried: Carried,
    all: Sums,
    rows: &Rows,
    times: Times,
) -> Result<(), Cut> {
    let s = Scale::of(all, times);
    let width = s.width;
    put(
        out,
        format_args!(
            "<section class=day aria-label=\"The waits of each landing\" style=\"--n:{width}\">\n"
        ),
    )?;
    behind(out, s, &rows.resets)?;
    for (i, l) in carried.landings.iter().enumerate() {
        band(out, s, i, *l, &rows.landings[i])?;
    }
    out.write(b"<p class=x aria-hidden=true>")?;
    Axis::of_times(s).write_labels(out)?;
    out.write(b"</p>\n</section>\n")?;
    key(out, s, all, rows)
}

impl Scale {
    // A little wider than the log, and a little taller than the longest wait or eight means; if no wait has ended, than the open one.
    fn of(all: Sums, times: Times) -> Scale {
        let last = times.last.0;
        let reach = if all.closed == 0 {
            last.saturating_sub(all.since.unwrap_or(0))
        } else {
            all.longest.min(all.mean().saturating_mul(MEANS))
        };
        Scale {
            width: last.saturating_add(last / 200).saturating_add(1),
            top: reach.saturating_add(reach / 16).saturating_add(1),
            times,
        }
    }
}

// Behind the bands: a line for each mark of the axis, and for each reset.
fn behind(out: &mut Output<impl Write>, s: Scale, resets: &Row) -> Result<(), Cut> {
    let width = s.width;
    put(
        out,
        format_args!(
            "<svg class=all viewBox=\"0 0 {width}e-6 1\" preserveAspectRatio=none aria-hidden=true><path class=g d=\""
        ),
    )?;
    let axis = Axis::of_times(s);
    for k in 0..MARKS {
        if let Some(at) = axis.mark_at(k) {
            put(out, format_args!("M{at}e-6 0v1"))?;
        }
    }
    out.write(b"\"/>\n")?;
    for joined in resets.bars() {
        reset(out, *joined, s.times)?;
    }
    out.write(b"</svg>\n")
}

fn reset(out: &mut Output<impl Write>, resets: Joined, times: Times) -> Result<(), Cut> {
    let at = resets.start.0;
    put(
        out,
        format_args!(
            "<path class=r d=\"M{at}e-6 0v1\"><title>Reset of the panel at {}",
            times.moment(at)
        ),
    )?;
    if 1 < resets.waits {
        put(
            out,
            format_args!(" and {} more from there on", resets.waits - 1),
        )?;
    }
    out.write(b"</title></path>\n")
}

// The band of landing i: its name, its bars, the axis of lengths.
fn band(
    out: &mut Output<impl Write>,
    s: Scale,
    i: usize,
    l: Landing,
    row: &Row,
) -> Result<(), Cut> {
    let Scale { width, top, times } = s;
    name(out, times, i, l)?;
    put(
        out,
        format_args!(
            "<svg id=band{i} viewBox=\"0 -{top}e-6 {width}e-6 {top}e-6\" preserveAspectRatio=none role=img aria-label=\"Bars of landing {i}; the table has its figures\"><path class=g d=\"M0 0"
        ),
    )?;
    let axis = Axis::of_lengths(s);
    for k in 0..MARKS {
        if let Some(at) = axis.mark_at(k) {
            put(out, format_args!("M0-{at}e-6h{width}e-6"))?;
        }
    }
    out.write(b"\"/>\n")?;
    for joined in row.bars() {
        bar(out, times, i, *joined)?;
    }
    if let Some(open) = bars::open_bar(times.last, l) {
        open_bar(out, times, i, open)?;
    }
    put(
        out,
        format_args!("</svg><p class=y aria-hidden=true style=\"--n:{top}\">"),
    )?;
    axis.write_labels(out)?;
    out.write(b"</p>\n")
}

fn name(out: &mut Output<impl Write>, times: Times, i: usize, l: Landing) -> Result<(), Cut> {
    let closed = l.closed;
    let waits = if closed == 1 { "wait" } else { "waits" };
    put(
        out,
        format_args!("<p class=name><b>Landing {i}</b>{closed} {waits}"),
    )?;
    if 0 < closed {
        put(
            out,
            format_args!(", mean {}", times.length(Sums::from(l).mean())),
        )?;
    }
    if l.mark != 0 {
        out.write(b" <span class=o>one still waiting</span>")?;
    }
    out.write(b"</p>")
}

// A bar is a square: from where its first wait began, as wide and as tall as the longest was long.
fn square(out: &mut Output<impl Write>, class: &str, start: u64, length: u64) -> Result<(), Cut> {
    put(
        out,
        format_args!("<path{class} d=\"M{start}e-6 0h{length}e-6v-{length}e-6h-{length}e-6z\">"),
    )
}

fn bar(out: &mut Output<impl Write>, times: Times, i: usize, joined: Joined) -> Result<(), Cut> {
    let Joined {
        start,
        waits,
        longest,
        cycles,
    } = joined;
    let length = times.length(longest.0);
    let class = if MINUTE < times.micros(longest.0) {
        " class=l"
    } else {
        ""
    };
    square(out, class, start.0, longest.0)?;
    put(
        out,
        format_args!("<title>Landing {i}, from {}", times.moment(start.0)),
    )?;
    let together = cycles.0;
    if waits < 2 {
        put(
            out,
            format_args!(": {length} ({together} cycles)</title></path>\n"),
        )
    } else {
        put(
            out,
            format_args!(
                " on: {waits} waits, the longest {length} (together {together} cycles)</title></path>\n"
            ),
        )
    }
}

// The bar of the wait that is open at the end.
fn open_bar(out: &mut Output<impl Write>, times: Times, i: usize, open: Bar) -> Result<(), Cut> {
    let cycles = open.length.0;
    square(out, " class=o", open.start.0, cycles)?;
    put(
        out,
        format_args!(
            "<title>Landing {i}, from {}: still waiting, so far {} ({cycles} cycles)</title></path>\n",
            times.moment(open.start.0),
            times.length(cycles)
        ),
    )
}

// THE AXES

// An axis: its step in microseconds, the cycles up to where it has marks, and whether one of them stands at 0.
#[derive(Clone, Copy)]
struct Axis {
    step: u64,
    reach: u64,
    has_zero: bool,
    times: Times,
}

impl Axis {
    fn of_times(s: Scale) -> Axis {
        let times = s.times;
        let reach = times.last.0;
        Axis {
            step: seconds::axis_step(times.micros(reach), TIMES),
            reach,
            has_zero: true,
            times,
        }
    }

    // A length of 0 has no mark.
    fn of_lengths(s: Scale) -> Axis {
        let times = s.times;
        let reach = s.top;
        Axis {
            step: seconds::axis_step(times.micros(reach), LENGTHS),
            reach,
            has_zero: false,
            times,
        }
    }

    // Where mark k stands, in cycles, if the axis has it.
    fn mark_at(self, k: u64) -> Option<u64> {
        let at = self.times.clock.cycles(k.saturating_mul(self.step)).0;
        if at <= self.reach && (0 < k || self.has_zero) {
            Some(at)
        } else {
            None
        }
    }

    fn write_labels(self, out: &mut Output<impl Write>) -> Result<(), Cut> {
        let step = self.step;
        for k in 0..MARKS {
            if let Some(at) = self.mark_at(k) {
                let mark = Mark {
                    at: k.saturating_mul(step),
                    step,
                };
                put(out, format_args!("<i style=\"--v:{at}\">{mark}</i>"))?;
            }
        }
        Ok(())
    }
}

// WHAT THE BARS SAY

fn key(out: &mut Output<impl Write>, s: Scale, all: Sums, rows: &Rows) -> Result<(), Cut> {
    let times = s.times;
    out.write(
        b"<p class=key><span><b></b>a wait: as tall as it was long</span><span><b class=k1></b>longer than a minute</span><span><b class=k2></b>still waiting</span><span><b class=k3></b>a reset of the panel</span>",
    )?;
    let open = all
        .since
        .map_or(0, |since| times.last.0.saturating_sub(since));
    if s.top < all.longest.max(open) {
        put(
            out,
            format_args!(
                "<span id=tall>A bar that reaches its band&rsquo;s top was longer than {}</span>",
                times.length(s.top)
            ),
        )?;
    }
    let near = rows
        .landings
        .iter()
        .filter_map(|row| row.step)
        .map(|step| step.0)
        .max();
    if let Some(near) = near {
        put(
            out,
            format_args!(
                "<span id=joined>So many waits can&rsquo;t be told apart: those of a landing that began within {} are joined into one bar, as tall as the longest of them; the figures count each</span>",
                times.length(near)
            ),
        )?;
    }
    out.write(b"<span>Times count from the start of the log</span></p>\n")
}
