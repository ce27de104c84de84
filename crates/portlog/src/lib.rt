// The port log: what an effective write and a reset append to the part of the log that is still empty, and what a write leaves in
// the latches.
// It may not know which instruction writes, nor how a run goes.
#![tactic(auto)]

ghost use Rattle.std.specs.Prelude.{◌≡◌, ◌++◌, ℕ, ◌-◌, ◌*◌, ◌≤◌, length, drop, set};
ghost use Rattle.upd546.specs.Bytes.{bytes_of};
ghost use Rattle.upd546.specs.Ports.{port_c, port_i, reset_record, log_record, log_record_length, log_bytes};
ghost use Rattle.laws.specs.Writes.{All, ValidWrite};
ghost use Rattle.portlog.specs.Appending.{writes_of, Written};

use upd546::{LATCHES, LOG_RECORD, PORT_C, PORT_D, PORT_RESET};

// What stands for a port where C and D are written, from the halves of a value, and where none is: no port has these numbers.
// They are numbers beside the ports', and not an Option or an enum, since `writes_of` in the clauses of `room` and `output` reads them.
pub const PORTS_C_AND_D: u8 = 9;

pub const NO_PORT: u8 = 10;

// OCD appends two records.
const OCD_LENGTH: usize = 2 * LOG_RECORD;

// The six bytes of a cycle number. They are written out, and not by `big_endian::put_number`: with that in the loop of a run a short wait
// takes 12.7 machine instructions a cycle, 1.452 of what Rust's takes, above the limit of 1.45 (docs/MEASUREMENTS.md).
fn put_cycle(log: &mut [u8], n: u64)
    requires { 6 ≤ length log.old }
    ensures { log.new ≡ bytes_of 6 n ++ drop 6 log.old }
{
    log[0] = (n / 1099511627776 % 256) as u8;
    log[1] = (n / 4294967296 % 256) as u8;
    log[2] = (n / 16777216 % 256) as u8;
    log[3] = (n / 65536 % 256) as u8;
    log[4] = (n / 256 % 256) as u8;
    log[5] = (n % 256) as u8;
}

// One record, at the front of the part of the log that is still empty.
fn put_record(log: &mut [u8], n: u64, port: u8, value: u8)
    requires { log_record_length ≤ length log.old }
    ensures { log.new ≡ log_record n (record { port = port; value = value }) ++ drop log_record_length log.old }
{
    put_cycle(log, n);
    log[6] = port;
    log[7] = value;
}

// The bytes that the writes append.
pub fn room(port: u8) -> usize
    ensures { (value : ℕ) → result ≡ log_record_length * length (writes_of port value) }
{
    if port == NO_PORT {
        return 0;
    }
    if port == PORTS_C_AND_D {
        return OCD_LENGTH;
    }
    LOG_RECORD
}

// The latch of a port becomes a value.
fn latch(ports: &mut [u8; LATCHES], port: u8, value: u8)
    requires { (port_c ≤ port) × (port ≤ port_i) }
    ensures { ports.new ≡ set ports.old (port - port_c) value }
{
    let i = (port - PORT_C) as usize;
    ports[i] = value;
}

// Appends the writes that `port` and `value` stand for, in cycle n, and answers their bytes. Which of latch and record comes first
// is a matter of speed alone (docs/MEASUREMENTS.md).
pub fn output(log: &mut [u8], ports: &mut [u8; LATCHES], n: u64, port: u8, value: u8) -> usize
    requires { (log_record_length * length (writes_of port value) ≤ length log.old) × All ValidWrite (writes_of port value) }
    ensures { Written log.old ports.old n (writes_of port value) log.new ports.new result }
{
    if port == NO_PORT {
        return 0;
    }
    if port == PORTS_C_AND_D {
        latch(ports, PORT_C, value % 16);
        latch(ports, PORT_D, value / 16);
        put_record(log, n, PORT_C, value % 16);
        put_record(&mut log[LOG_RECORD..], n, PORT_D, value / 16);
        return OCD_LENGTH;
    }
    put_record(log, n, port, value);
    latch(ports, port, value);
    LOG_RECORD
}

// Appends the record of a reset in cycle n.
pub fn put_reset(log: &mut [u8], n: u64)
    requires { log_record_length ≤ length log.old }
    ensures { log.new ≡ log_bytes n reset_record ++ drop log_record_length log.old }
{
    put_record(log, n, PORT_RESET, 0);
}
