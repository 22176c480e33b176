//! Bytes that come in and go out: sources and sinks that may fail, and a reader of lines over them.
#![tactic(auto)]

mod failed;
mod fault_plan;
mod line;
mod line_reader;
mod mem_sink;
mod mem_source;
mod scan;
mod sink;
mod source;
mod std_sink;
mod std_source;
#[cfg(test)]
mod tests;
mod window;

pub use failed::Failed;
pub use line::{INPUT_BYTES, Line};
pub use line_reader::LineReader;
pub use mem_sink::MemSink;
pub use mem_source::{CHUNK_BYTES, MemSource};
pub use sink::{Sink, write_all, write_out};
pub use smil_model::LINE_BYTES;
pub use source::Source;
pub use std_sink::StdSink;
pub use std_source::StdSource;
