//! Each standard block, called once with its input set.
use wc_blocks::{Ctu, RTrig, Rs, Sr, Tof, Ton, Tp};

/// The timers at 0 ms, with a time of 100 ms.
fn timers() -> bool {
    let now: u64 = 0;
    let mut ton = Ton::new();
    let mut tof = Tof::new();
    let mut tp = Tp::new();
    ton.input = true;
    ton.pt = 100;
    ton.call(now);
    tof.input = true;
    tof.pt = 100;
    tof.call(now);
    tp.input = true;
    tp.pt = 100;
    tp.call(now);
    !ton.q && tof.q && tp.q
}

/// The blocks without time.
fn others() -> bool {
    let mut edge = RTrig::new();
    let mut set = Sr::new();
    let mut reset = Rs::new();
    let mut count = Ctu::new();
    edge.clk = true;
    edge.call();
    set.s1 = true;
    set.r = true;
    set.call();
    reset.s = true;
    reset.r1 = true;
    reset.call();
    count.cu = true;
    count.pv = 1;
    count.call();
    edge.q && set.q1 && !reset.q1 && count.q && count.cv == 1
}

#[test]
fn blocks_are_called(rt: HostRuntime) {
    assert!(rt; timers());
    assert!(rt; others());
}
