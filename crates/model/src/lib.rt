// What the module is: the types of its lanes, paths, power states, pages, commands, events, answers and files. The definitions that say what it does are in specs/.
#![tactic(auto)]

pub mod answer;
pub mod application;
pub mod command;
pub mod event;
pub mod image;
pub mod lane;
pub mod path;
pub mod power;
pub mod status;
pub mod stream;
