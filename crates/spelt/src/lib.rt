// The cases of an input, one a line, and how a case spells its job text.
#![tactic(auto)]

pub mod cases; // cases.rt: the lines of an input, each with a name and a spelling
pub mod draft; // draft.rt: a text that is put together byte for byte
pub mod spelling; // spelling.rt: how a case spells the bytes of its text
