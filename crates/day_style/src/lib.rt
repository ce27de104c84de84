// The head and the end of a day's page: its style, and the line of a page that was cut off. What is below that line is hidden until the
// page's end, so that no page looks whole that isn't. It may not know what the page tells.
#![tactic(auto)]

use std::io::Write;
use streams::{Cut, Output};

const TEXT: &[u8] =
    b":root{--ink:#16212b;--soft:#51606d;--rule:#d3dae0;--bar:#4a9bd4;--long:#0b2a52;--open:#c8500a;color:var(--ink);background:#fff;font:clamp(15px,.55vw + 9px,28px)/1.35 system-ui,'Helvetica Neue',Arial,sans-serif;font-variant-numeric:tabular-nums}\nbody{margin:0}main{display:none;max-width:110rem;margin:auto;padding:1.4rem 2rem}#cut{margin:2rem;font-size:1.5rem}\nh1{font-size:1.7rem;margin:0}h1+p{margin:.1rem 0 0;color:var(--soft)}\n.top{display:flex;flex-wrap:wrap;gap:.6rem 3.5rem;align-items:end;margin:1rem 0 1.5rem}.top p{margin:0;font-size:1.1rem;color:var(--soft)}.top b{display:block;font-size:4rem;line-height:1.05;color:var(--ink);letter-spacing:-.02em}.top .o b{color:var(--open)}\n";

const PICTURE: &[u8] =
    b".day{position:relative;display:grid;grid-template-columns:max-content 1fr 3.6rem;row-gap:.6rem}.day p{margin:0}\n.name{font-size:.85rem;color:var(--soft);padding-right:1rem}.name span{display:block}.name b{display:block;font-size:1.05rem;color:var(--ink)}.o{color:var(--open)}\nsvg{pointer-events:none;grid-column:2;width:100%;height:max(58px,8.5vh);border-bottom:1px solid var(--soft);position:relative;display:block}\nsvg.all{position:absolute;grid-area:1/2/5/3;height:100%;border:0}\npath{pointer-events:auto;vector-effect:non-scaling-stroke;stroke:var(--bar);fill:var(--bar);stroke-width:2px}.l{stroke:var(--long);fill:var(--long)}path.o{stroke:var(--open);fill:#fff;stroke-width:2.5px}\n.g{stroke:var(--rule);stroke-width:1px}.r{stroke:var(--ink);stroke-width:1.5px;stroke-dasharray:5 4}\n.x,.y{position:relative;font-size:.8rem;color:var(--soft)}.x{grid-column:2;height:1.3rem;margin-top:-.4rem!important}\ni{position:absolute;font-style:normal;white-space:nowrap;left:calc(100%*var(--v)/var(--n));transform:translate(-50%)}.x i:first-child{transform:none}.y i{left:.4rem;bottom:calc(100%*var(--v)/var(--n));transform:translateY(50%)}\n";

const TABLE: &[u8] =
    b".key{display:flex;flex-wrap:wrap;gap:.2rem 1.6rem;margin:.4rem 0 1.3rem;font-size:.85rem;color:var(--soft)}.key b{display:inline-block;width:.45em;height:.85em;margin-right:.45em;background:var(--bar);border:2px solid var(--bar);box-sizing:border-box;vertical-align:-.05em}.key .k1{background:var(--long);border-color:var(--long)}.key .k2{background:#fff;border-color:var(--open)}.key .k3{width:0;height:1em;background:none;border:0;border-left:2px dashed var(--ink)}\n.wide{overflow-x:auto}table{border-collapse:collapse;width:100%}caption{text-align:left;font-weight:700;padding-bottom:.2rem}th,td{text-align:right;font-weight:400;padding:.22rem 0 .22rem .8rem;border-top:1px solid var(--rule)}thead th{border:0;font-size:.8rem;color:var(--soft);vertical-align:bottom}th:first-child{text-align:left;padding-left:0}tbody tr:last-child>*{font-weight:700;border-top-color:var(--ink)}footer{margin-top:1rem;font-size:.85rem;color:var(--soft)}\n";

// A phone, where a row of the table has two lines: times, and under them cycles; and paper.
const NARROW: &[u8] =
    b"@media(max-width:640px){main{padding:1rem}h1{font-size:1.4rem}.top{gap:.6rem 1.6rem}.top b{font-size:2.3rem}.top p{font-size:.95rem}.day{grid-template-columns:1fr 3.2rem;row-gap:.25rem}.name{grid-column:1/3;background:#fff;position:relative}.name b,.name span{display:inline;margin-right:.4em}svg,.x{grid-column:1}svg.all{grid-area:1/1/9/2}.x{margin:0!important}.x i:nth-child(2n){display:none}table,thead,tbody,caption{display:block}table{font-size:.8rem}thead th{font-size:.7rem}tr{display:grid;grid-template-columns:3.4em repeat(4,1fr);align-items:end}th,td{padding-left:.3rem}tr>:nth-child(n+6){border-top:0;padding-top:0;color:var(--soft)}tr>:nth-child(6){grid-column:2}}\n@media print{@page{size:A4 landscape;margin:11mm}:root{font-size:11px;print-color-adjust:exact;-webkit-print-color-adjust:exact}main{padding:0}svg{height:17mm}.day,table{break-inside:avoid}}\n";

pub fn head(out: &mut Output<impl Write>) -> Result<(), Cut> {
    out.write(
        b"<!DOCTYPE html>\n<html lang=en><meta charset=utf-8><meta name=viewport content=\"width=device-width,initial-scale=1\">\n<title>How long passengers waited</title>\n<style>\n",
    )?;
    out.write(TEXT)?;
    out.write(PICTURE)?;
    out.write(TABLE)?;
    out.write(NARROW)?;
    out.write(
        b"</style>\n<p id=cut><b>This page was cut off.</b> It ends before its figures do, and must not be used: make it again.</p>\n<main>\n<h1>How long passengers waited</h1>\n",
    )
}

// The page's end, by which it is whole.
pub fn end(out: &mut Output<impl Write>) -> Result<(), Cut> {
    out.write(b"</main>\n<style>main{display:block}#cut{display:none}</style>\n")
}
