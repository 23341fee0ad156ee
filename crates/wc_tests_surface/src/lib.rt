//! Every call of the public surface, once, on its happy path: with the argument and result types that it promises, so that a
//! signature that moves does not compile. Besides these there are the tests that no contract can replace: memory is granted,
//! and rows are printed before a later read fails.
#![tactic(auto)]

#[cfg(test)]
mod blocks;
#[cfg(test)]
mod changes;
#[cfg(test)]
mod feeds;
#[cfg(test)]
mod files;
#[cfg(test)]
mod instrument;
#[cfg(test)]
mod loaded;
#[cfg(test)]
mod machines;
#[cfg(test)]
mod passes;
#[cfg(test)]
mod rows;
#[cfg(test)]
mod runs;
#[cfg(test)]
mod stores;
