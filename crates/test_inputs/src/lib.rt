//! Worked rows of what a command is given, as tests: executables and their symbols, fault lists and draws, lines, settings;
//! and the texts of instructions.
#![tactic(auto)]

#[cfg(test)]
mod assembly;
#[cfg(test)]
mod drawing;
#[cfg(test)]
mod faults;
#[cfg(test)]
mod files;
#[cfg(test)]
mod headers;
#[cfg(test)]
mod images;
#[cfg(test)]
mod lines;
#[cfg(test)]
mod linked;
#[cfg(test)]
mod settings;
#[cfg(test)]
mod symbols;
