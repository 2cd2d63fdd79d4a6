//! Tests of the libraries, by their public calls. A crate with tests is proved twice, so they stand here together.
#![tactic(auto)]

#[cfg(test)]
mod again;
#[cfg(test)]
mod building;
#[cfg(test)]
mod calls;
#[cfg(test)]
mod checks;
#[cfg(test)]
mod choosing;
#[cfg(test)]
mod failing;
#[cfg(test)]
mod forms;
#[cfg(test)]
mod images;
#[cfg(test)]
mod instructions;
#[cfg(test)]
mod lasting;
#[cfg(test)]
mod layers;
#[cfg(test)]
mod listings;
#[cfg(test)]
mod playing;
#[cfg(test)]
mod programs;
#[cfg(test)]
mod prompts;
#[cfg(test)]
mod quiet;
#[cfg(test)]
mod refusals;
#[cfg(test)]
mod routines;
#[cfg(test)]
mod spacing;
#[cfg(test)]
mod stories;
#[cfg(test)]
mod strings;
#[cfg(test)]
mod tokens;
#[cfg(test)]
mod tracing;
#[cfg(test)]
mod transcripts;
#[cfg(test)]
mod typing;
#[cfg(test)]
mod unifying;
#[cfg(test)]
mod watching;
#[cfg(test)]
mod worlds;
