//! The standard function blocks at their edges, call by call (IEC 61131-3:2003, 2.5.2.3).
use wc_blocks::{Ctu, RTrig, Rs, Sr, Tof, Ton, Tp};
use wc_model::LAST_MOMENT;

/// Q and ET of a TON after a call with these inputs; nothing if the moment is not one to call at.
fn ton_at(block: &mut Ton, now: u64, input: bool, pt: i32) -> Option<(bool, i32)> {
    block.input = input;
    block.pt = pt;
    if now < block.start || now > LAST_MOMENT {
        return None;
    }
    block.call(now);
    Some((block.q, block.et))
}

/// Q and ET of a TOF after a call with these inputs; nothing if the moment is not one to call at.
fn tof_at(block: &mut Tof, now: u64, input: bool, pt: i32) -> Option<(bool, i32)> {
    block.input = input;
    block.pt = pt;
    if now < block.start || now > LAST_MOMENT {
        return None;
    }
    block.call(now);
    Some((block.q, block.et))
}

/// Q and ET of a TP after a call with these inputs; nothing if the moment is not one to call at.
fn tp_at(block: &mut Tp, now: u64, input: bool, pt: i32) -> Option<(bool, i32)> {
    block.input = input;
    block.pt = pt;
    if now < block.start || now > LAST_MOMENT {
        return None;
    }
    block.call(now);
    Some((block.q, block.et))
}

/// Moments and inputs of a TON one after another, each with the Q and the ET that it then has.
const ON_DELAY: [(u64, bool, i32, bool, i32); 14] = [
    (0, false, 100, false, 0),
    (10, true, 100, false, 0),
    (109, true, 100, false, 99),
    (110, true, 100, true, 100),
    (500, true, 100, true, 100),
    (500, true, 600, false, 490),
    (610, true, 600, true, 600),
    (611, false, 600, false, 0),
    (612, true, 600, false, 0),
    (613, true, -1, true, 0),
    (614, true, 0, true, 0),
    (615, true, -2147483648, true, 0),
    (616, true, 4, true, 4),
    (617, true, 6, false, 5),
];

#[test]
fn an_on_delay(rt: HostRuntime) {
    let mut block = Ton::new();
    for (now, input, pt, q, et) in &ON_DELAY {
        assert!(rt; ton_at(&mut block, *now, *input, *pt) == Some((*q, *et)));
    }
}

/// Rows over all moments, and after them at moments that are none to call at.
const ON_DELAY_OVER_ALL: [(u64, bool, i32, Option<(bool, i32)>); 9] = [
    (0, true, 2147483647, Some((false, 0))),
    (2147483646, true, 2147483647, Some((false, 2147483646))),
    (2147483647, true, 2147483647, Some((true, 2147483647))),
    (1099511627775, true, 2147483647, Some((true, 2147483647))),
    (1099511627775, false, 2147483647, Some((false, 0))),
    (1099511627775, true, 1, Some((false, 0))),
    (1099511627775, true, 0, Some((true, 0))),
    (1099511627776, true, 0, None),
    (1099511627774, true, 0, None),
];

#[test]
fn an_on_delay_over_all_moments(rt: HostRuntime) {
    let mut block = Ton::new();
    for (now, input, pt, after) in &ON_DELAY_OVER_ALL {
        assert!(rt; ton_at(&mut block, *now, *input, *pt) == *after);
    }
}

/// Rows of calls of a TOF: moment, IN, PT, and its outputs.
const OFF_DELAY: [(u64, bool, i32, bool, i32); 14] = [
    (0, false, 100, false, 0),
    (10, true, 100, true, 0),
    (20, false, 100, true, 0),
    (119, false, 100, true, 99),
    (120, false, 100, false, 100),
    (500, false, 100, false, 100),
    (500, false, 600, true, 480),
    (620, false, 600, false, 600),
    (621, true, 600, true, 0),
    (622, false, -1, false, 0),
    (623, false, 0, false, 0),
    (624, false, -2147483648, false, 0),
    (625, false, 3, false, 3),
    (626, false, 5, true, 4),
];

#[test]
fn an_off_delay(rt: HostRuntime) {
    let mut block = Tof::new();
    for (now, input, pt, q, et) in &OFF_DELAY {
        assert!(rt; tof_at(&mut block, *now, *input, *pt) == Some((*q, *et)));
    }
}

/// Rows over all moments, and after them at moments that are none to call at.
const OFF_DELAY_OVER_ALL: [(u64, bool, i32, Option<(bool, i32)>); 10] = [
    (0, true, 2147483647, Some((true, 0))),
    (0, false, 2147483647, Some((true, 0))),
    (2147483646, false, 2147483647, Some((true, 2147483646))),
    (2147483647, false, 2147483647, Some((false, 2147483647))),
    (1099511627775, false, 2147483647, Some((false, 2147483647))),
    (1099511627775, true, 2147483647, Some((true, 0))),
    (1099511627775, false, 1, Some((true, 0))),
    (1099511627775, false, 0, Some((false, 0))),
    (1099511627776, false, 0, None),
    (1099511627774, false, 0, None),
];

#[test]
fn an_off_delay_over_all_moments(rt: HostRuntime) {
    let mut block = Tof::new();
    for (now, input, pt, after) in &OFF_DELAY_OVER_ALL {
        assert!(rt; tof_at(&mut block, *now, *input, *pt) == *after);
    }
    let mut fresh = Tof::new();
    assert!(rt; tof_at(&mut fresh, 1099511627775, false, 100) == Some((false, 0)));
}

/// Rows of calls of a TP: moment, IN, PT, and its outputs.
const PULSE: [(u64, bool, i32, bool, i32); 17] = [
    (0, false, 100, false, 0),
    (10, true, 100, true, 0),
    (60, false, 100, true, 50),
    (109, true, 100, true, 99),
    (110, true, 100, false, 100),
    (111, true, 600, false, 600),
    (112, false, 600, false, 0),
    (113, true, 20, true, 0),
    (132, false, 30, true, 19),
    (143, false, 30, false, 0),
    (143, true, 30, true, 0),
    (153, true, 10, false, 10),
    (154, false, 10, false, 0),
    (155, true, -1, false, 0),
    (156, false, -2147483648, false, 0),
    (157, true, 0, false, 0),
    (158, true, 5, false, 5),
];

#[test]
fn a_pulse(rt: HostRuntime) {
    let mut block = Tp::new();
    for (now, input, pt, q, et) in &PULSE {
        assert!(rt; tp_at(&mut block, *now, *input, *pt) == Some((*q, *et)));
    }
}

/// Rows over all moments, and after them at moments that are none to call at.
const PULSE_OVER_ALL: [(u64, bool, i32, Option<(bool, i32)>); 9] = [
    (0, true, 2147483647, Some((true, 0))),
    (2147483646, false, 2147483647, Some((true, 2147483646))),
    (2147483647, true, 2147483647, Some((false, 2147483647))),
    (1099511627775, true, 2147483647, Some((false, 2147483647))),
    (1099511627775, false, 2147483647, Some((false, 0))),
    (1099511627775, true, 1, Some((true, 0))),
    (1099511627775, true, 0, Some((false, 0))),
    (1099511627776, true, 0, None),
    (1099511627774, true, 0, None),
];

#[test]
fn a_pulse_over_all_moments(rt: HostRuntime) {
    let mut block = Tp::new();
    for (now, input, pt, after) in &PULSE_OVER_ALL {
        assert!(rt; tp_at(&mut block, *now, *input, *pt) == *after);
    }
}

/// Inputs of a CTU one after another, each with the Q and the CV that it then has.
const COUNTS: [(bool, bool, i32, bool, i32); 13] = [
    (false, false, 2, false, 0),
    (true, false, 2, false, 1),
    (true, false, 2, false, 1),
    (false, false, 2, false, 1),
    (true, false, 2, true, 2),
    (false, false, 3, false, 2),
    (true, false, 3, true, 3),
    (false, false, 3, true, 3),
    (true, true, 3, false, 0),
    (true, false, 3, false, 0),
    (false, false, 0, true, 0),
    (true, true, 0, true, 0),
    (false, false, -2147483648, true, 0),
];

#[test]
fn a_count_up(rt: HostRuntime) {
    let mut block = Ctu::new();
    for (cu, r, pv, q, cv) in &COUNTS {
        block.cu = *cu;
        block.r = *r;
        block.pv = *pv;
        block.call();
        assert!(rt; block.q == *q);
        assert!(rt; block.cv == *cv);
    }
}

/// Rows of calls at the greatest count.
const GREATEST_COUNTS: [(bool, bool, bool, i32); 5] = [
    (false, false, false, 2147483646),
    (true, false, true, 2147483647),
    (false, false, true, 2147483647),
    (true, false, true, 2147483647),
    (false, true, false, 0),
];

#[test]
fn the_greatest_count(rt: HostRuntime) {
    let mut block = Ctu::new();
    block.pv = 2147483647;
    block.cv = 2147483646;
    for (cu, r, q, cv) in &GREATEST_COUNTS {
        block.cu = *cu;
        block.r = *r;
        block.call();
        assert!(rt; block.q == *q);
        assert!(rt; block.cv == *cv);
    }
}

/// Inputs of an SR one after another, each with the Q1 that it then has.
const SETS: [(bool, bool, bool); 8] = [
    (false, false, false),
    (true, true, true),
    (false, false, true),
    (false, true, false),
    (false, false, false),
    (true, false, true),
    (true, true, true),
    (false, true, false),
];

#[test]
fn set_is_dominant(rt: HostRuntime) {
    let mut block = Sr::new();
    for (s1, r, q1) in &SETS {
        block.s1 = *s1;
        block.r = *r;
        block.call();
        assert!(rt; block.q1 == *q1);
    }
}

/// Rows of calls of an RS: its inputs and its output.
const RESETS: [(bool, bool, bool); 8] = [
    (false, false, false),
    (true, true, false),
    (true, false, true),
    (false, false, true),
    (true, true, false),
    (false, false, false),
    (true, false, true),
    (false, true, false),
];

#[test]
fn reset_is_dominant(rt: HostRuntime) {
    let mut block = Rs::new();
    for (s, r1, q1) in &RESETS {
        block.s = *s;
        block.r1 = *r1;
        block.call();
        assert!(rt; block.q1 == *q1);
    }
}

/// Inputs of two R_TRIG one after another, each with the Q that it then has.
const EDGES: [[(bool, bool); 5]; 2] = [
    [
        (false, false),
        (true, true),
        (true, false),
        (false, false),
        (true, true),
    ],
    [
        (true, true),
        (true, false),
        (true, false),
        (false, false),
        (false, false),
    ],
];

#[test]
fn rising_edges(rt: HostRuntime) {
    for clks in &EDGES {
        let mut block = RTrig::new();
        for (clk, q) in clks {
            block.clk = *clk;
            block.call();
            assert!(rt; block.q == *q);
        }
    }
}
