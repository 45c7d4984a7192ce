//! Tests of what the proofs can't say of the host's adapters, over a runtime that follows a script and over real files.
#![tactic(auto)]

#[cfg(test)]
mod bench_tests;
#[cfg(test)]
mod files_tests;
#[cfg(test)]
mod real_tests;
#[cfg(test)]
mod script;
#[cfg(test)]
mod scripted;
