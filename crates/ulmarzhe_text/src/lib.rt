// What every part of the program uses: text on a page, standard output, words, floats in decimals, files read by windows, and how a
// command ended.
#![tactic(auto)]

pub mod files;
pub mod output;
pub mod page;
pub mod real;
pub mod status;
pub mod system;
pub mod window;
pub mod words;
