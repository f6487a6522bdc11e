// The two lists of boxes with a count before them, `stsd` and `dref`, as the bytes of their payloads: rules 5 and 9.
#![tactic(auto)]

pub mod form;
pub mod total;
pub mod url;
