// The texts of the programs: the grammar of the input, the lines that are printed, and what a program prints for a text. Reading and writing
// are left to `streams`.
//
//     let mut reader = text::input::Reader::new();
//     reader.feed(b"2\n0111\n");
//     reader.text()?                                                          // width 2 and the cells 0 1 1 1
//     text::output::list(2, Rows { values: &[2, 1], cares: &[2, 1] }, 2)      // 1-, -1, rows 2 bits 2
#![tactic(auto)]

pub mod input;
pub mod output;
pub mod program;
