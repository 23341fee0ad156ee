ghost use Rattle.std.specs.Prelude.{◌≤◌};
ghost use Rattle.wc_blocks.specs.Views.{tp_view};
ghost use Rattle.wc_model.specs.Definitions.{tp_contents, tp_step, greatest_moment};
ghost use Rattle.wc_model.specs.declared.block.StandardBlock.TheVariants as blocks;

use crate::fields::{
    moment_at, phase_at, set_moment, set_phase, set_time, set_truth, time_at, truth_at,
};
use crate::standard::StoredBlock;
use wc_blocks::Tp;
use wc_store::Store;

impl StoredBlock for Tp {
    ghost block = { blocks.Tp };

    ghost inputs = { 2 };

    ghost contents = { λ block. tp_contents (tp_view block) };

    ghost called = { λ now block. tp_contents (tp_step now (tp_view block)) };

    ghost start = { λ block. block.start };

    ghost is_in_range = { λ block. (block.start ≤ greatest_moment) × (block.phase ≤ 2) };

    #[inline(always)]
    fn fields_at<S: Store>(store: &S, at: usize) -> Tp {
        Tp {
            input: truth_at(store, at),
            pt: time_at(store, at + 1),
            q: truth_at(store, at + 2),
            et: time_at(store, at + 3),
            phase: phase_at(store, at + 4),
            start: moment_at(store, at + 5),
        }
    }

    #[inline(always)]
    fn call_at(&mut self, now: u64) {
        self.call(now);
    }

    #[inline(always)]
    fn set_fields<S: Store>(self, store: &mut S, at: usize) {
        set_truth(store, at + 2, self.q);
        set_time(store, at + 3, self.et);
        set_phase(store, at + 4, self.phase);
        set_moment(store, at + 5, self.start);
    }
}
