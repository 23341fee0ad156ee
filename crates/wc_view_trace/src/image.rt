ghost use Rattle.std.specs.Prelude.{◌≡◌, ◌≤◌, OnOk};
ghost use Rattle.wc_view_trace.specs.Members.{HasBits, IsBit, IsWeight, WritesImage};

use crate::members::{write_integers, write_number};
use json::Writer;
use std::alloc::AllocError;
use wc_machine::Machine;
use wc_store::SlotStore;
use wc_view_trace_rows::number_in;

/// The first places of a program's frame hold the directly represented variables: 16 inputs, the 6 bits of the status, 3 weights.
const STATUS: usize = 16;

const WEIGHTS: usize = 22;

/// The BOOL at a place of the program's frame as a bit.
fn bit_at(machine: &Machine<'_, SlotStore>, place: usize) -> u64
    ensures held { IsBit machine.now place result }
    ensures bit { result ≤ 1 }
{
    number_in(machine, place).map_or(0, |number| u64::from(number != 0))
}

/// The BOOLs at that many places of the program's frame, from one on, as bits, the first as the lowest.
fn bits_at(machine: &Machine<'_, SlotStore>, first: usize, count: usize) -> u64
    requires few { count ≤ 16 }
    requires within { first ≤ 16 }
    ensures { HasBits machine.now first count result }
{
    let mut bits = 0_u64;
    for passed in 0..count {
        bits = bits * 2 + bit_at(machine, first + (count - passed - 1));
    }
    bits
}

/// The weight at a place of the program's frame.
fn weight_at(machine: &Machine<'_, SlotStore>, place: usize) -> i32
    ensures { IsWeight machine.now place result }
{
    number_in(machine, place).unwrap_or(0)
}

/// Writes the process image that the last scan has seen: the inputs, of which bit i is `%IX0.i`, the status, of which it is
/// `%IX1.i`, and the weights gross, net and tare in units of the last decimal.
pub(crate) fn write_image(
    writer: &mut Writer,
    machine: &Machine<'_, SlotStore>,
) -> Result<(), AllocError>
    ensures before { writer.new.before ≡ writer.old.before }
    ensures tokens { OnOk result
        (WritesImage machine.now writer.old.tokens writer.new.tokens) }
{
    write_number(writer, "inputs", bits_at(machine, 0, STATUS))?;
    write_number(writer, "status", bits_at(machine, STATUS, WEIGHTS - STATUS))?;
    let weights = [
        weight_at(machine, WEIGHTS),
        weight_at(machine, WEIGHTS + 1),
        weight_at(machine, WEIGHTS + 2),
    ];
    write_integers(writer, "weights", &weights)
}
