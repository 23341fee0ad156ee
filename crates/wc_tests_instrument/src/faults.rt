//! What the faults of the indicator, of a log and of an input say of themselves.
use std::alloc::Global;
use std::fmt::Display;
use wc_indicator::Refused;
use wc_job::ReadFault;
use wc_record::LogFault;

/// Whether a fault says these words of itself.
fn says<E: Display>(alloc: Global, fault: &E, words: &str) -> bool {
    match format!(in alloc; "{fault}") {
        Ok(said) => said.as_bytes() == words.as_bytes(),
        Err(_) => false,
    }
}

/// Whether each fault says the words that come after it.
fn all_say<E: Display>(alloc: Global, rows: &[(E, &str)]) -> bool {
    for (fault, words) in rows {
        if !says(alloc, fault, words) {
            return false;
        }
    }
    true
}

/// A log's row that is refused.
const REFUSED: LogFault = LogFault::Refused {
    number: 603,
    place: 4,
};

/// Faults of a log.
const OF_LOGS: [(LogFault, &str); 3] = [
    (REFUSED, "refused 603 4"),
    (LogFault::Read, "read fault"),
    (LogFault::Memory, "out of memory"),
];

/// Refusals of the indicator.
const OF_INDICATORS: [(Refused, &str); 2] = [
    (Refused::Motion, "in motion"),
    (Refused::Range, "out of range"),
];

/// Faults of an input.
const OF_INPUTS: [(ReadFault, &str); 3] = [
    (ReadFault::TooLong, "more than 1048576 bytes"),
    (ReadFault::Read, "read fault"),
    (ReadFault::Memory, "out of memory"),
];

#[test]
fn faults_say_what_they_are(rt: HostRuntime) {
    assert!(rt; all_say(rt.alloc(), &OF_LOGS));
    assert!(rt; all_say(rt.alloc(), &OF_INDICATORS));
    assert!(rt; all_say(rt.alloc(), &OF_INPUTS));
}
