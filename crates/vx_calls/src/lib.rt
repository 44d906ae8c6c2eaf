//! Tests of public calls that no case of a program reaches: each with ample memory, and its answer compared;
//! and that columns run beside each other, which no contract can say.
#![tactic(auto)]

#[cfg(test)]
mod bytes;
#[cfg(test)]
mod columns_commands;
#[cfg(test)]
mod columns_jobs;
#[cfg(test)]
mod columns_writes;
#[cfg(test)]
mod finds;
#[cfg(test)]
mod fixtures;
#[cfg(test)]
mod ids;
#[cfg(test)]
mod meeting;
#[cfg(test)]
mod orders;
#[cfg(test)]
mod sequences;
#[cfg(test)]
mod sinks;
#[cfg(test)]
mod turns;
