//! Scripts that are made from a seed, for trials of many devices and fixes. What is drawn is in `specs/Draws.antt`, and the lines
//! that are made of it in `specs/Made.antt`.
#![tactic(auto)]

mod draws;
mod journey;
mod lines;
mod maker;
mod turn;

pub use maker::make_script;

#[cfg(test)]
mod made_text;
#[cfg(test)]
mod tests;
