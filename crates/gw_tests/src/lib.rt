//! What the program can't show of the libraries. They stand apart from these crates, since a crate with tests is proved twice.
#![tactic(auto)]

#[cfg(test)]
mod answers;
#[cfg(test)]
mod blocks;
#[cfg(test)]
mod checks;
#[cfg(test)]
mod crews;
#[cfg(test)]
mod desks;
#[cfg(test)]
mod dues;
#[cfg(test)]
mod failures;
#[cfg(test)]
mod forwards;
#[cfg(test)]
mod gates;
#[cfg(test)]
mod journals;
#[cfg(test)]
mod ledgers;
#[cfg(test)]
mod locked;
#[cfg(test)]
mod logs;
#[cfg(test)]
mod maps;
#[cfg(test)]
mod messages;
#[cfg(test)]
mod openings;
#[cfg(test)]
mod profiles;
#[cfg(test)]
mod refusals;
#[cfg(test)]
mod sessions;
#[cfg(test)]
mod streams;
#[cfg(test)]
mod subjects;
#[cfg(test)]
mod translations;
#[cfg(test)]
mod verdicts;
#[cfg(test)]
mod worked;
