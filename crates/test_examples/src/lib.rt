//! Worked rows of what a command reads, writes and follows, as tests: the commands that words spell, the texts of journals and
//! reports, stores and sinks, and plans on the unreplicated machine with their races.
#![tactic(auto)]

#[cfg(test)]
mod journals;
#[cfg(test)]
mod plans;
#[cfg(test)]
mod races;
#[cfg(test)]
mod reports;
#[cfg(test)]
mod sinks;
#[cfg(test)]
mod waiting;
#[cfg(test)]
mod words;
