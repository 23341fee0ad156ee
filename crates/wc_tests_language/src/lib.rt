//! Tests of a program text through the public calls: its tokens and its tree, the passes after reading, and the machine.
//! Which texts are refused, what they cost and what their scans leave is tried on the program.
#![tactic(auto)]

#[cfg(test)]
mod bodies;
#[cfg(test)]
mod changes;
#[cfg(test)]
mod declarations;
#[cfg(test)]
mod flat_lines;
#[cfg(test)]
mod names;
#[cfg(test)]
mod places;
#[cfg(test)]
mod programs;
#[cfg(test)]
mod short_lines;
#[cfg(test)]
mod texts;
#[cfg(test)]
mod tokens;
#[cfg(test)]
mod trees;
#[cfg(test)]
mod warnings;
#[cfg(test)]
mod words;
