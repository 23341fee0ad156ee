//! Tests of the lowest layer, through its public calls: numbers, words, devices, what every text
//! has, standard blocks, and stores.
#![tactic(auto)]

#[cfg(test)]
mod around;
#[cfg(test)]
mod blocks;
#[cfg(test)]
mod built_in;
#[cfg(test)]
mod devices;
#[cfg(test)]
mod stores;
#[cfg(test)]
mod writing;
