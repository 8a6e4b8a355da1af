// The lines of the program `methods`: what is held between them, what they are answered, and the commands that call nothing of a
// run, those of a view by the methods of `views`.
#![tactic(auto)]

pub mod commands;
pub mod held;
pub mod lines;
pub mod numbers;
mod readings;
pub mod replies;
