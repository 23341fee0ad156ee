//! The records of the last scans.
use std::alloc::Global;
use wc_model::Outputs;
use wc_record::{Record, Recorder};

/// A scan at a moment that left nothing at the outputs.
fn scan_at(ms: u64) -> Record {
    Record {
        ms,
        steps: 2,
        outputs: Outputs {
            bits: 0,
            words: [0, 0, 0, 0],
        },
    }
}

/// A recorder of n holds of scans, one each millisecond from 1 on, those from this moment on.
fn are_held(alloc: Global, number: u16, scans: u64, first: u64) -> bool {
    let few = number.clamp(1, 1000);
    let Ok(mut recorder) = Recorder::new(alloc, few) else {
        return false;
    };
    for ms in 0..scans {
        recorder.keep(scan_at(ms.saturating_add(1)));
    }
    let mut ms = first;
    for index in 0..recorder.len() {
        if recorder.get(index).copied() != Some(scan_at(ms)) {
            return false;
        }
        ms = ms.saturating_add(1);
    }
    ms == scans.saturating_add(1) && recorder.get(recorder.len()).is_none()
}

/// Numbers of scans, each with the moment of the first that a recorder of three holds then.
const HELD: [(u64, u64); 5] = [(0, 1), (2, 1), (3, 1), (4, 2), (1000, 998)];

#[test]
fn a_recorder_holds_the_last_scans(rt: HostRuntime) {
    for (scans, first) in &HELD {
        assert!(rt; are_held(rt.alloc(), 3, *scans, *first));
    }
}

#[test]
fn a_recorder_may_hold_one_scan_or_a_thousand(rt: HostRuntime) {
    assert!(rt; are_held(rt.alloc(), 1, 2, 2) && are_held(rt.alloc(), 1000, 1500, 501));
}
