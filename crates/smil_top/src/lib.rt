//! Sessions of script lines: the top call that reads them and writes their transcript.
#![tactic(auto)]

mod answer;
mod audit;
mod call;
mod counts;
mod fault;
mod generated;
mod held;
mod last_line;
pub mod laws;
mod load;
mod loaded;
mod loading;
mod loads;
mod nowhere;
mod reading;
mod recorded;
mod run;
mod session;
mod status;
mod top;

pub use call::Call;
pub use fault::Fault;
pub use held::{CallRefusal, Held, TooManyLines};
pub use status::Status;
pub use top::serve;
