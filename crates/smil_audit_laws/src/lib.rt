//! Laws of the audit of what is written: the lines of a diary are read again as its entries, what
//! the order `diary` writes is accepted, and no other list of entries is. A function here has no
//! code: its contract is the law.
#![tactic(auto)]

pub mod laws;
