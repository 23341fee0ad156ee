ghost use Rattle.std.specs.Prelude.{◌≡◌, ◌<◌, if◌then◌else◌};
ghost use Rattle.wc_indicator.specs.Kept.{Reports};
ghost use Rattle.wc_model.specs.Run.ProcessImage.{image_with, status_of, weights_of};

use wc_indicator::Indicator;
use wc_model::Image;

/// A bit as a number.
fn bit(set: bool) -> u8
    ensures { result ≡ (if set then 1 else 0) }
{
    u8::from(set)
}

/// Stable, over, under, centre of zero, tare active and valid, the lowest bit first.
fn status(indicator: &Indicator) -> u8
    ensures reported { Reports status_of indicator.now result }
    ensures few { result < 64 }
{
    bit(indicator.stable())
        + 2 * (bit(indicator.over())
            + 2 * (bit(indicator.under())
                + 2 * (bit(indicator.centre())
                    + 2 * (bit(indicator.tare_active()) + 2 * bit(indicator.valid())))))
}

/// The gross weight, the net weight and the tare value, all 0 without an indication.
fn weights(indicator: &Indicator) -> [i32; 3]
    ensures { Reports weights_of indicator.now result }
{
    match (indicator.gross(), indicator.net()) {
        (Some(gross), Some(net)) => [gross, net, indicator.tare_value()],
        _ => [0, 0, 0],
    }
}

/// What a scan sees: these inputs, and the indicator's status and weights. The status is below 64.
pub fn image(indicator: &Indicator, inputs: u16) -> Image
    ensures reported { Reports (λ p history. image_with p inputs history) indicator.now result }
    ensures few { result.status < 64 }
{
    Image {
        inputs,
        status: status(indicator),
        weights: weights(indicator),
    }
}
