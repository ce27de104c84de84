// The form of a port log, for those who read one: how many bytes a record has, and which ports there are. Whoever is built on it can't
// name a state or an instruction. It may not know what a log is read for.
#![tactic(auto)]

pub use upd546::{CYCLE_BYTES, LOG_RECORD, PORT_C, PORT_I, PORT_RESET};
