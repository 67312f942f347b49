// The result of a network that stands in its row, from its labels and the marks of its roots: a line at a time, or a run of
// lines in one call.
#![tactic(auto)]

pub mod block;
pub mod line;
mod marked;
