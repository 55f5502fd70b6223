//! Worked rows of the guest machine's parts, as tests: arithmetic, instructions and their entries, memory and its ranges,
//! calls, mutexes and who got them, groups of threads, votes.
#![tactic(auto)]

#[cfg(test)]
mod arithmetic;
#[cfg(test)]
mod calls;
#[cfg(test)]
mod entries;
#[cfg(test)]
mod groups;
#[cfg(test)]
mod instructions;
#[cfg(test)]
mod mutexes;
#[cfg(test)]
mod pages;
#[cfg(test)]
mod regions;
#[cfg(test)]
mod takers;
#[cfg(test)]
mod votes;
