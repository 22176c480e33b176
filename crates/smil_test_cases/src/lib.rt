//! The cases that programs for tests read, a line each, and the lines that answer them.
#![tactic(auto)]

mod answers;
mod fault;
mod faults;
mod lines;
mod printed;
mod words;

pub use answers::{Cases, answer_cases, answer_lines};
pub use fault::Fault;
pub use faults::{put_fault, put_node_fault};
pub use lines::put_lines;
pub use printed::{
    put, put_bytes, put_flag, put_gap, put_interval, put_maybe, put_number, put_serials, put_time,
    put_valued, put_word,
};
pub use words::{Words, natural, number, time};
