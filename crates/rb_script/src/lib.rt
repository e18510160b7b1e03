//! Scripts: lines of text that change a world, each with its answer. Theorem: `run_script` writes
//! *answers* of what it reads; if it stops, it writes as much of it as *Ends* says. The events in
//! its lines and the replies to them are a run of the world, so each law of runs holds for scripts.
#![tactic(auto)]

mod answer;
mod answering;
mod fault;
mod forms;
mod header;
mod hex_sink;
pub mod laws;
mod lines;
mod output;
mod piece_list;
mod reading;
mod replies;
mod script;
mod streams;
mod texts;
mod words;

pub use answering::{Answering, RefusedLine};
pub use fault::ScriptError;
pub use header::header_in;
pub use lines::MOST_OF_LINE;
pub use reading::parts;
pub use replies::name_of;
pub use script::{MOST_OF_SCRIPT, run_script};
pub use streams::{flush, read_some, write_whole};
pub use texts::add_row;
pub use words::{is, number, octets};
