// Run files: a file is judged as a whole, its steps are run over the controller, and one line of text is written for each.
#![tactic(auto)]

pub mod file;
pub mod run;
pub mod text;
