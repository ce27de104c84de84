// The page of a day: the report's figures in words a visitor reads, the picture of its bars, and a table that says the same. One HTML
// file that needs nothing else. It may not know how a log is read, how long a wait is, nor where bars come from.
// What it writes is tested in a browser, and not proved; its functions are proved safe.
#![tactic(auto)]

mod picture;
mod sums;
mod table;
mod words;

use bar_rows::Row;
use seconds::Clock;
use std::io::Write;
use streams::{Cut, Output};
use sums::Sums;
use waiting::{Carried, LANDINGS};
use words::{Times, put};

// The rows of bars of a day: of each landing, and of the resets.
#[derive(Clone, Copy)]
pub struct Rows {
    pub landings: [Row; LANDINGS],
    pub resets: Row,
}

// THE PAGE OF A DAY: of the report at the end of its log, the rows of bars and the clock.
pub fn page(
    out: &mut Output<impl Write>,
    carried: Carried,
    rows: &Rows,
    clock: Clock,
) -> Result<(), Cut> {
    let all = Sums::from(carried);
    let last = carried.last;
    let times = Times { clock, last };
    day_style::head(out)?;
    put(
        out,
        format_args!(
            "<p>Four landings, over {} from the start of the port log</p>\n<div class=top>\n",
            times.length(last.0)
        ),
    )?;
    answer(out, all, times)?;
    out.write(b"</div>\n")?;
    picture::picture(out, carried, all, rows, times)?;
    table::table(out, carried, times)?;
    footer(out, clock)?;
    day_style::end(out)
}

// The figures that answer the visitor's question.
fn answer(out: &mut Output<impl Write>, all: Sums, times: Times) -> Result<(), Cut> {
    let closed = all.closed;
    if 0 < closed {
        let waited = if closed == 1 {
            "passenger"
        } else {
            "passengers"
        };
        put(
            out,
            format_args!(
                "<p><b id=mean>{}</b>mean wait</p>\n<p><b id=longest>{}</b>longest wait</p>\n<p><b id=closed>{closed}</b>{waited} waited</p>\n",
                times.length(all.mean()),
                times.length(all.longest)
            ),
        )?;
    }
    match all.since {
        Some(since) => {
            let open = all.open;
            let ended = if closed == 0 {
                "; no wait has ended yet"
            } else {
                ""
            };
            put(
                out,
                format_args!(
                    "<p class=o><b id=open>{open}</b>still waiting, since {}{ended}</p>\n",
                    times.moment(since)
                ),
            )
        }
        None if closed == 0 => out.write(
            b"<p><b id=nobody>Nobody waited.</b>No call lamp was lit in this log.</p>\n",
        ),
        None => Ok(()),
    }
}

fn footer(out: &mut Output<impl Write>, clock: Clock) -> Result<(), Cut> {
    out.write(
        b"<footer>A wait lasts from the moment a landing&rsquo;s call lamp is lit until it goes dark, or the panel is reset; how many people stood there the lamp doesn&rsquo;t tell, and each wait is counted as one passenger. Mean and longest are of waits that ended. The log counts machine cycles, of four clock cycles each: at ",
    )?;
    let hertz = clock.0;
    let whose = if clock == seconds::NEC_CLOCK {
        "the 400 kHz of NEC&rsquo;s manual of the uPD546, a cycle is 10 microseconds"
    } else {
        "the clock that was given for this page (NEC&rsquo;s is 400000)"
    };
    put(
        out,
        format_args!(
            "{hertz} hertz, {whose}. Cycles are exact, times are rounded to the last figure shown. Every figure is that of Wharfnettle&rsquo;s proved report, <code>waits</code>.</footer>\n"
        ),
    )
}

// THE PAGE OF A LOG THAT IS REFUSED. The program's line of the refusal comes after it.
pub fn no_answer(out: &mut Output<impl Write>, number: u8) -> Result<(), Cut> {
    day_style::head(out)?;
    let why = if number == 41 {
        "its length is no multiple of 8, so it ends inside a record"
    } else {
        "a record&rsquo;s port, value or order can&rsquo;t be a panel&rsquo;s"
    };
    put(
        out,
        format_args!(
            "<div class=top><p><b id=none>No answer</b>The log was refused with number {number}: {why}. That comes from whoever kept the log. No figure of it is shown, since none can be trusted.</p></div>\n"
        ),
    )?;
    day_style::end(out)?;
    out.write(b"<pre hidden>\n")
}
