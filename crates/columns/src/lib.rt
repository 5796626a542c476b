// Numbers in columns, on lines that 0Ah ends: read from a text, and printed to an output. Definitions stand in specs/.
#![tactic(auto)]

pub mod lines; // the lines of a text
pub mod reading; // the numbers of a line
pub mod printing; // a row of numbers
