//! Tests of the legal half and of what is read and written, through public calls: requests and answers of the line, over
//! writers that fail too, the rows of a log, the lines of a report, the sections of a job. What a whole log or job is
//! answered is tried on the program.
#![tactic(auto)]

#[cfg(test)]
mod faults;
#[cfg(test)]
mod lines;
#[cfg(test)]
mod logs;
#[cfg(test)]
mod long_rows;
#[cfg(test)]
mod refused_rows;
#[cfg(test)]
mod requests;
#[cfg(test)]
mod rows;
#[cfg(test)]
mod scans;
#[cfg(test)]
mod sections;
#[cfg(test)]
mod writers;
