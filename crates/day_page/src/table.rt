// The table under the picture.
use crate::sums::Sums;
use crate::words::{Times, put};
use std::io::Write;
use streams::{Cut, Output};
use waiting::Carried;

pub fn table(out: &mut Output<impl Write>, carried: Carried, times: Times) -> Result<(), Cut> {
    out.write(
        b"<div class=wide><table><caption>The same in figures</caption><thead><tr><th scope=col>Landing<th scope=col>Closed waits<th scope=col>Mean<th scope=col>Longest<th scope=col>Still waiting since<th scope=col>Cycles together<th scope=col>Mean in cycles<th scope=col>Longest in cycles<th scope=col>Open since cycle<tbody>\n",
    )?;
    for (i, l) in carried.landings.iter().enumerate() {
        put(out, format_args!("<tr><th scope=row>{i}"))?;
        cells(out, Sums::from(*l), times)?;
    }
    out.write(b"<tr><th scope=row>All")?;
    cells(out, Sums::from(carried), times)?;
    out.write(b"</table></div>\n")
}

fn cells(out: &mut Output<impl Write>, s: Sums, times: Times) -> Result<(), Cut> {
    let Sums {
        closed,
        cycles,
        longest,
        since,
        ..
    } = s;
    let mean = s.mean();
    put(out, format_args!("<td>{closed}<td>"))?;
    if closed == 0 {
        out.write(b"&ndash;<td>&ndash;")?;
    } else {
        put(
            out,
            format_args!("{}<td>{}", times.length(mean), times.length(longest)),
        )?;
    }
    out.write(b"<td>")?;
    match since {
        Some(since) => put(out, format_args!("{}", times.moment(since)))?,
        None => out.write(b"&ndash;")?,
    }
    put(out, format_args!("<td>{cycles}<td>{mean}<td>{longest}<td>"))?;
    match since {
        Some(since) => put(out, format_args!("{since}\n")),
        None => out.write(b"&ndash;\n"),
    }
}
