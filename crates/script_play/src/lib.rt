//! Plays a script on a disk: reads it line by line, answers each line, and writes the answer before
//! the next line is taken up.
#![tactic(auto)]

mod command_line;
mod draft;
mod ending;
mod player;
mod reading;
mod response;
mod stop;
mod telling;
mod turn;
mod whole_run;
mod world;

pub use command_line::run;
