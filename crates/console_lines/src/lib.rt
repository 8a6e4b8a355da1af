// The console's lines: how they are read, what they set and is held between them, and what they can be answered.
#![tactic(auto)]

pub mod commands;
pub mod lines;
pub mod memory;
pub mod replies;
pub mod settings;
