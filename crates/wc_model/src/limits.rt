//! The limits of the profile. Each is given here alone; the definitions state them as numbers.

/// The greatest length of a program text, in bytes (107).
pub const MOST_BYTES: usize = 65536;

/// The greatest length of a name, in characters (104).
pub const LONGEST_NAME: usize = 32;

/// The greatest depth of parentheses (207).
pub const MOST_DEPTH: usize = 8;

/// The most units of a text (208).
pub const MOST_UNITS: usize = 64;

/// The most lines of a unit, each `)` among them (208).
pub const MOST_LINES: usize = 1024;

/// The most variables of a unit (306).
pub const MOST_VARIABLES: usize = 256;

/// The most places of a frame (306).
pub const MOST_PLACES: u32 = 4096;

/// The most steps of a unit's longest path (411).
pub const MOST_STEPS: u64 = 1000000;

/// The last moment, in milliseconds: 2^40 - 1 (602).
pub const LAST_MOMENT: u64 = 1099511627775;

/// The least counts of a sample: those of a converter of 24 bits (605).
pub const LEAST_COUNTS: i32 = -8388608;

/// The greatest counts of a sample (605).
pub const GREATEST_COUNTS: i32 = 8388607;

/// The most rows of a log, the first one too (607).
pub const MOST_ROWS: u32 = 1000000;

/// The most bytes and calls that are spent on a log.
pub const MOST_SPENT: u64 = 134217728;

/// The greatest length of a job, and of a plate or a program in a file, in bytes (702).
pub const LONGEST_JOB: usize = 1048576;
