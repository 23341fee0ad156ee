ghost use Rattle.wc_blocks.specs.Views.{ctu_view, r_trig_view, rs_view, sr_view};
ghost use Rattle.wc_model.specs.Definitions.{ctu_contents, r_trig_contents, rs_contents, sr_contents, ctu_step, r_trig_step, rs_step, sr_step};
ghost use Rattle.wc_model.specs.declared.block.StandardBlock.TheVariants as blocks;

use crate::fields::{count_at, set_count, set_truth, truth_at};
use crate::standard::StoredBlock;
use wc_blocks::{Ctu, RTrig, Rs, Sr};
use wc_store::Store;

impl StoredBlock for RTrig {
    ghost block = { blocks.RTrig };

    ghost inputs = { 1 };

    ghost contents = { λ block. r_trig_contents (r_trig_view block) };

    ghost called = { λ now block. r_trig_contents (r_trig_step (r_trig_view block)) };

    #[inline(always)]
    fn fields_at<S: Store>(store: &S, at: usize) -> RTrig {
        RTrig {
            clk: truth_at(store, at),
            q: truth_at(store, at + 1),
            m: truth_at(store, at + 2),
        }
    }

    #[inline(always)]
    fn call_at(&mut self, _now: u64) {
        self.call();
    }

    #[inline(always)]
    fn set_fields<S: Store>(self, store: &mut S, at: usize) {
        set_truth(store, at + 1, self.q);
        set_truth(store, at + 2, self.m);
    }
}

impl StoredBlock for Sr {
    ghost block = { blocks.Sr };

    ghost inputs = { 2 };

    ghost contents = { λ block. sr_contents (sr_view block) };

    ghost called = { λ now block. sr_contents (sr_step (sr_view block)) };

    #[inline(always)]
    fn fields_at<S: Store>(store: &S, at: usize) -> Sr {
        Sr {
            s1: truth_at(store, at),
            r: truth_at(store, at + 1),
            q1: truth_at(store, at + 2),
        }
    }

    #[inline(always)]
    fn call_at(&mut self, _now: u64) {
        self.call();
    }

    #[inline(always)]
    fn set_fields<S: Store>(self, store: &mut S, at: usize) {
        set_truth(store, at + 2, self.q1);
    }
}

impl StoredBlock for Rs {
    ghost block = { blocks.Rs };

    ghost inputs = { 2 };

    ghost contents = { λ block. rs_contents (rs_view block) };

    ghost called = { λ now block. rs_contents (rs_step (rs_view block)) };

    #[inline(always)]
    fn fields_at<S: Store>(store: &S, at: usize) -> Rs {
        Rs {
            s: truth_at(store, at),
            r1: truth_at(store, at + 1),
            q1: truth_at(store, at + 2),
        }
    }

    #[inline(always)]
    fn call_at(&mut self, _now: u64) {
        self.call();
    }

    #[inline(always)]
    fn set_fields<S: Store>(self, store: &mut S, at: usize) {
        set_truth(store, at + 2, self.q1);
    }
}

impl StoredBlock for Ctu {
    ghost block = { blocks.Ctu };

    ghost inputs = { 3 };

    ghost contents = { λ block. ctu_contents (ctu_view block) };

    ghost called = { λ now block. ctu_contents (ctu_step (ctu_view block)) };

    #[inline(always)]
    fn fields_at<S: Store>(store: &S, at: usize) -> Ctu {
        Ctu {
            cu: truth_at(store, at),
            r: truth_at(store, at + 1),
            pv: count_at(store, at + 2),
            q: truth_at(store, at + 3),
            cv: count_at(store, at + 4),
            m: truth_at(store, at + 5),
        }
    }

    #[inline(always)]
    fn call_at(&mut self, _now: u64) {
        self.call();
    }

    #[inline(always)]
    fn set_fields<S: Store>(self, store: &mut S, at: usize) {
        set_truth(store, at + 3, self.q);
        set_count(store, at + 4, self.cv);
        set_truth(store, at + 5, self.m);
    }
}
