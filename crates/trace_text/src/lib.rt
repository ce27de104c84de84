// The report of a panel: the input of program `trace` split into n, ROM and schedule, the board's call on a fresh panel with the plain
// runner, and the text of what it answers. It may not know how a run goes, nor where input comes from and text goes to.
#![tactic(auto)]

ghost use Rattle.std.specs.Prelude.{◌≡◌, ◌+◌, ◌*◌, ◌<◌, ◌≤◌, get_or, length, replicate};
ghost use Rattle.runs.specs.TwoRunners.{plain};
ghost use Rattle.upd546.specs.TheMachine.{fresh};
ghost use Rattle.upd546.specs.Ports.{port_i, log_record_length};
ghost use Rattle.upd546.specs.TwoRunners.{upd546};
ghost use Rattle.upd546.specs.Reports.{port_letter, record_text, records_text, trace_log, run_text};
ghost use Rattle.calls.specs.Call.{report_length};
ghost use Rattle.text.specs.Writing.{HasRoom, Pushed};
ghost use Rattle.trace_text.specs.Writing.{line_length, end_length, text_length, end_line};
ghost use Rattle.trace_text.specs.Records.{Legible, Recorded};
ghost use Rattle.trace_text.specs.Texts.{TellsRun, ended_by, ended_text, answer_text, Reportable, Traced};

use board::REPORT_LENGTH;
use runs::{MachineCycles, Refusal};
use text::Text;
use upd546::layout::IMAGE_LENGTH;
use upd546::{CYCLE_BYTES, LOG_RECORD, PORT_RESET, ROM_LENGTH};

// "n (4 bytes, big-endian)"
const COUNT_LENGTH: usize = 4;

// "under 2,004 bytes being 21"
const SCHEDULE_AT: usize = COUNT_LENGTH + ROM_LENGTH;

// "a log of 16,384 bytes"
const LOG_LENGTH: usize = 16384;

// The bytes of a count in the call's report.
const COUNT_BYTES: usize = 8;

// Every text fits this many bytes; `text_length` is the same number.
pub const TEXT_LENGTH: usize = 65536;

// How a call ended: its number, and the counts of its report that the text shows. The number stays one, as `board::wharfnettle_call`
// answers it to C: the end line tells it of a run, and the line of a refusal of a call that was refused.
#[derive(Clone, Copy)]
struct Ended {
    number: u8,
    cycles: MachineCycles,
    begun: u64,
    written: usize,
}

// The letter of a port, or R of a reset.
fn port_letter(port: u8) -> u8
    requires { port ≤ port_i }
    ensures { result ≡ port_letter port }
{
    if port == PORT_RESET {
        return b'R';
    }
    mnemonics::port_letter(port)
}

// The line of a record of the log.
fn put_line(text: &mut Text<'_>, bytes: &[u8; LOG_RECORD])
    requires { HasRoom line_length text.old × (get_or bytes.now 6 0 ≤ port_i) × (get_or bytes.now 7 0 < 16) }
    ensures { Pushed text.old (record_text bytes.now 0) text.new × (text.new.size ≤ text.old.size + line_length) }
{
    let letter = port_letter(bytes[6]);
    let digit = mnemonics::hex_digit(bytes[7]);
    text.push_number(big_endian::number_at(bytes, 0, CYCLE_BYTES), b' ');
    text.push(&[letter, b' ', digit, b'\n']);
}

// The lines of the first records of a log.
fn put_lines(text: &mut Text<'_>, log: &[u8], count: usize)
    requires { HasRoom (line_length * count) text.old × (log_record_length * count ≤ length log.now) × Legible log.now count }
    ensures { Pushed text.old (records_text log.now count) text.new × (text.new.size ≤ text.old.size + line_length * count) }
{
    let (records, _) = log.as_chunks::<LOG_RECORD>();
    for bytes in &records[..count] {
        put_line(text, bytes);
    }
}

// "then cycles, instructions, stop (0 if finished)"
fn put_end(text: &mut Text<'_>, ended: Ended)
    requires { HasRoom end_length text.old }
    ensures { Pushed text.old (end_line ended.cycles.0 ended.begun ended.number) text.new }
{
    text.push(b"end ");
    text.push_number(ended.cycles.0, b' ');
    text.push_number(ended.begun, b' ');
    text.push_number(ended.number as u64, b'\n');
}

// The text of a run that finished or stopped.
fn put_report(text: &mut Text<'_>, ended: Ended, log: &[u8])
    requires { Reportable ended log.now text.old }
    ensures { Pushed text.old (ended_text ended log.now) text.new }
{
    text.push(b"cycle port value\n");
    put_lines(text, log, ended.written / LOG_RECORD);
    put_end(text, ended);
}

// The text of a call.
fn put_answer(text: &mut Text<'_>, ended: Ended, log: &[u8])
    requires { Reportable ended log.now text.old }
    ensures { Pushed text.old (answer_text ended log.now) text.new }
{
    if board::ran(ended.number) {
        put_report(text, ended, log);
    } else {
        text.push_refused(ended.number);
    }
}

// "runs a fresh state on the plain runner": the board's call on the image of a fresh state. "`trace` and R-4 keep the old figures".
fn call_fresh(rom: &[u8], sched: &[u8], log: &mut [u8], n: MachineCycles) -> Ended
    ensures tells_run { TellsRun (plain upd546 rom.now sched.now fresh log.old n.0) result log.new }
    ensures recorded { Recorded result.written log.new }
{
    let mut image = [0u8; IMAGE_LENGTH];
    board::wharfnettle_fresh(&mut image);
    let mut report = [0u8; REPORT_LENGTH];
    let sheet = upd546::upd546_sheet();
    let number = board::wharfnettle_call(
        &mut image,
        rom,
        sched,
        log,
        n.0,
        0,
        &mut report,
        sheet.rom,
        sheet.rows,
        sheet.levels,
    );
    told(number, &report)
}

// What a report tells of its run.
fn told(number: u8, report: &[u8]) -> Ended
    requires { report_length ≤ length report.now }
    ensures { result ≡ ended_by number report.now }
{
    Ended {
        number,
        cycles: MachineCycles(big_endian::number_at(report, 0, COUNT_BYTES)),
        begun: big_endian::number_at(report, 8, COUNT_BYTES),
        written: big_endian::number_at(report, 16, COUNT_BYTES) as usize,
    }
}

// The text of n cycles of a panel, on a log of 16,384 bytes.
fn put_run(text: &mut Text<'_>, rom: &[u8], sched: &[u8], log: &mut [u8], n: MachineCycles)
    requires { (length log.old ≡ trace_log) × HasRoom text_length text.old }
    ensures { Pushed text.old (run_text rom.now sched.now log.old n.0) text.new }
{
    let ended = call_fresh(rom, sched, log, n);
    put_answer(text, ended, log);
}

// "a log of 16,384 bytes"; the length is what lending it as a slice asks.
fn empty_log() -> [u8; LOG_LENGTH]
    ensures { (result ≡ replicate trace_log 0) × (trace_log ≡ length result) }
{
    [0; LOG_LENGTH]
}

// THE TEXT OF PROGRAM `trace` for its input, at the front of a buffer: its length, and no more, as `Traced` has it; whether it is the line
// of a refusal is read from the text. The input is cut here, as the definition `trace_text` cuts it: what reads input stands above this
// crate.
pub fn trace(input: &[u8], out: &mut [u8; TEXT_LENGTH]) -> usize
    ensures { Traced input.now out.old out.new result }
{
    let mut text = Text::new(out);
    if input.len() < SCHEDULE_AT {
        text.push_refused(Refusal::RomLength as u8);
        return text.len();
    }
    let n = MachineCycles(big_endian::number_at(input, 0, COUNT_LENGTH));
    let mut log = empty_log();
    put_run(
        &mut text,
        &input[COUNT_LENGTH..SCHEDULE_AT],
        &input[SCHEDULE_AT..],
        &mut log,
        n,
    );
    text.len()
}
