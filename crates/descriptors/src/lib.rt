// Descriptors of ISO/IEC 14496-1 as an `esds` has them: read recursively, and written.
#![tactic(auto)]

pub mod descriptor;
pub mod first;
pub mod length;
pub mod list;
pub mod part;
