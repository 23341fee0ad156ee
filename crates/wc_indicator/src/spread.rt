ghost use Rattle.std.specs.Prelude.{◌≡◌};
ghost use Rattle.wc_model.specs.Instrument.Indication.{spread_of};

use circular_buffer::HeapCircularBuffer;

/// The greatest sample less the least.
pub(crate) fn spread(samples: &HeapCircularBuffer<i32>) -> u32
    ensures { result ≡ spread_of samples.now.items }
{
    let Some(first) = samples.front() else {
        return 0;
    };
    let (mut least, mut greatest) = (*first, *first);
    for sample in samples.iter() {
        least = least.min(*sample);
        greatest = greatest.max(*sample);
    }
    greatest.abs_diff(least)
}
