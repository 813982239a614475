// Names where they stand in the lines of a job text.
#![tactic(auto)]

pub mod signs; // signs.rt: the bytes of a text
pub mod words; // words.rt: the names of a line, one after the other
pub mod known; // known.rt: which column a name is
pub mod sections; // sections.rt: the kinds of lines, each with its key
