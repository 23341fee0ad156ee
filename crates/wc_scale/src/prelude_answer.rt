ghost use Rattle.std.specs.Prelude.{◌≡◌, ◌-◌, drop, option_map, pos, replicate, take, ◌++◌, ℕ, List, [], ◌==◌, ◌≤◌, length};
ghost use Rattle.wc_run.specs.OpenScales.{state_view};
ghost use Rattle.wc_scale.specs.Preludes.{HasZerosBesides, HoldsNothing, IsReportedState, ReportsPrelude, load_reported, request_bytes, ReportsDigest, ShowsNoDigest, engraved_lines, plate_lines, unit_line, unit_text, value_line, with_number};
ghost use Rattle.wc_scale.specs.Representation.{IsClosed};
ghost use Rattle.std.specs.List.{position_or_len};
ghost use Rattle.sha2.specs.Hashers.{Holds256};
ghost use Rattle.sha2.specs.Sha256.{sha256};

use crate::results::{CLOSED, DONE, PlateDigest, PreludeAnswer};
use crate::scale::Scale;
use arrayvec::ArrayVec;
use itoa::Buffer;
use sha2::{Digest, Sha256};
use wc_plate::Plate;
use wc_run::Prelude;

/// A list of at most sixteen numbers with zeros after it, and their number.
fn sixteen_samples(items: &ArrayVec<i32, 16>) -> (u32, [i32; 16])
    ensures items { take result.0 result.1 ≡ items.now.items }
    ensures zeros { drop result.0 result.1 ≡ replicate (16 - result.0) (pos 0) }
{
    let mut buffer = [0; 16];
    let count = items.len();
    buffer[..count].copy_from_slice(items);
    (count as u32, buffer)
}

/// The bytes of a request that is open, with zeros after them, and their number.
fn open_request(request: &Option<ArrayVec<u8, 2>>) -> (u32, [u8; 3])
    ensures bytes { take result.0 result.1
        ≡ request_bytes (option_map (λ text. text.items) request.now) }
    ensures zeros { drop result.0 result.1 ≡ replicate (3 - result.0) 0 }
{
    let mut buffer = [0; 3];
    let Some(text) = request else {
        return (0, buffer);
    };
    let count = text.len() + 1;
    buffer[0] = b'\n';
    buffer[1..count].copy_from_slice(text);
    (count as u32, buffer)
}

/// A load, and whether there is one.
fn load_of(load: Option<i32>) -> (u32, i32)
    ensures load { load_reported result.0 result.1 ≡ load }
    ensures unset { result.0 ≡ 0 → result.1 ≡ pos 0 }
{
    match load {
        Some(counts) => (1, counts),
        None => (0, 0),
    }
}

/// A prelude in plain numbers, of a plate with this window.
fn prelude_answer(prelude: &Prelude, window: u32) -> PreludeAnswer
    ensures status { result.status ≡ 0 }
    ensures window { result.window ≡ window }
    ensures state { IsReportedState result (state_view prelude.now) }
    ensures zeros { HasZerosBesides result }
{
    let (has_zero, zero) = load_of(prelude.zero);
    let (has_tare, tare) = load_of(prelude.tare);
    let (count, samples) = sixteen_samples(&prelude.samples);
    let (length, request) = open_request(&prelude.request);
    PreludeAnswer {
        status: DONE,
        window,
        has_zero,
        zero,
        has_tare,
        tare,
        count,
        samples,
        inputs: u32::from(prelude.inputs),
        length,
        request,
    }
}

/// Adds a key and its value, on a line.
fn add_line(hasher: &mut Sha256, key: &[u8], value: &[u8])
    ensures { (m : List ℕ) → Holds256 hasher.old m
        → Holds256 hasher.new (m ++ value_line key.now value.now) }
{
    hasher.update(key);
    hasher.update(b" = ");
    hasher.update(value);
    hasher.update(b"\n");
}

/// Adds a key and its number, on a line.
fn add_number(hasher: &mut Sha256, key: &[u8], number: i32)
    ensures { (m : List ℕ) → Holds256 hasher.old m
        → Holds256 hasher.new (with_number m key.now number) }
{
    let mut buffer = Buffer::new();
    add_line(hasher, key, buffer.format(number).as_bytes());
}

/// The number of bytes before the first space.
fn letters(unit: &[u8]) -> usize
    ensures first { result ≡ position_or_len (λ byte. byte == 32) unit.now }
    ensures within { result ≤ length unit.now }
{
    unit.iter().take_while(|byte| **byte != b' ').count()
}

/// A unit without the spaces after it.
fn unit_text(unit: &[u8]) -> &[u8]
    ensures { result.now ≡ unit_text unit.now }
{
    &unit[..letters(unit)]
}

/// Adds the unit, on a line.
fn add_unit(hasher: &mut Sha256, unit: &[u8])
    ensures { (m : List ℕ) → Holds256 hasher.old m
        → Holds256 hasher.new (m ++ unit_line unit.now) }
{
    hasher.update(b"unit = \"");
    hasher.update(unit_text(unit));
    hasher.update(b"\"\n");
}

/// Adds what is engraved, to nothing.
fn add_engraved(hasher: &mut Sha256, plate: &Plate)
    ensures { Holds256 hasher.old [] → Holds256 hasher.new (engraved_lines plate.now) }
{
    let unit = plate.unit();
    add_unit(hasher, &unit);
    add_number(hasher, b"decimals", plate.decimals());
    add_number(hasher, b"max", plate.max());
    add_number(hasher, b"e", plate.e());
}

/// The digest of a plate's lines.
fn digest_of(plate: &Plate) -> [u8; 32]
    ensures { result ≡ sha256 (plate_lines plate.now) }
{
    let mut hasher = Sha256::new();
    add_engraved(&mut hasher, plate);
    add_number(&mut hasher, b"zero_counts", plate.zero_counts());
    add_number(&mut hasher, b"span_counts", plate.span_counts());
    add_number(&mut hasher, b"window", plate.window());
    hasher.finalize()
}

impl Scale {
    /// What brings a new scale of the same plate to the state of this one, but for a program. It
    /// takes no memory.
    pub fn prelude(&self) -> PreludeAnswer
        ensures reports { ReportsPrelude self.now result }
        ensures zeros { HasZerosBesides result }
        ensures closed { IsClosed self.now → HoldsNothing result }
    {
        match &self.opened {
            Some(opened) => {
                let window = opened.indicator().plate().window() as u32;
                prelude_answer(&opened.prelude(), window)
            }
            None => PreludeAnswer {
                status: CLOSED,
                window: 0,
                has_zero: 0,
                zero: 0,
                has_tare: 0,
                tare: 0,
                count: 0,
                samples: [0; 16],
                inputs: 0,
                length: 0,
                request: [0; 3],
            },
        }
    }

    /// The SHA-256 digest of the plate: that of a file with the seven lines `unit = "kg"`, `decimals = 3` and so on for `max`, `e`,
    /// `zero_counts`, `span_counts` and `window`, in this order. It takes no memory.
    pub fn plate_digest(&self) -> PlateDigest
        ensures reports { ReportsDigest self.now result }
        ensures closed { IsClosed self.now → ShowsNoDigest result }
    {
        match &self.opened {
            Some(opened) => PlateDigest {
                status: DONE,
                bytes: digest_of(opened.indicator().plate()),
            },
            None => PlateDigest {
                status: CLOSED,
                bytes: [0; 32],
            },
        }
    }
}
