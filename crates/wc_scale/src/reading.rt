ghost use Rattle.std.specs.Prelude.{◌≡◌, pos, replicate};
ghost use Rattle.wc_scale.specs.Calls.{ShowsNoPlate, ShowsNothing, ReportsEngraved, ReportsReading, RefusesScan, TakesScan};
ghost use Rattle.wc_scale.specs.Representation.{IsClosed, RefusesValue, ReportsValue, kind_number};
ghost use Rattle.wc_text_variables.specs.Names.{variable_named};

use crate::results::{
    CLOSED, DONE, Engraved, MOMENT_BACK, MOMENT_OUT_OF_RANGE, NO_MEMORY, NO_PROGRAM, NO_VARIABLE,
    Reading, Scanned, VariableRead,
};
use crate::scale::Scale;
use wc_model::{Kind, LAST_MOMENT};
use wc_record::Record;
use wc_text_variables::variable_named;

/// No value, for this reason.
fn no_value(status: u32) -> VariableRead
    ensures { result ≡ record { status = status; kind = 0; number = pos 0 } }
{
    VariableRead {
        status,
        kind: 0,
        number: 0,
    }
}

/// The number of a kind.
fn kind_number(kind: Kind) -> u32
    ensures { result ≡ kind_number kind }
{
    match kind {
        Kind::Bool => 1,
        Kind::Dint => 2,
        Kind::Time => 3,
    }
}

/// No scan, for this reason.
fn no_scan(status: u32) -> Scanned
    ensures { result
        ≡ record { status = status; steps = 0; bits = 0; words = replicate 4 (pos 0) } }
{
    Scanned {
        status,
        steps: 0,
        bits: 0,
        words: [0; 4],
    }
}

/// A scan that is done.
fn scan_answer(scan: &Record) -> Scanned
    ensures status { result.status ≡ 0 }
    ensures steps { result.steps ≡ scan.now.steps }
    ensures bits { result.bits ≡ scan.now.outputs.bits }
    ensures words { result.words ≡ scan.now.outputs.words }
{
    let words = scan.outputs.words;
    Scanned {
        status: DONE,
        steps: scan.steps,
        bits: u32::from(scan.outputs.bits),
        words,
    }
}

impl Scale {
    /// What the indicator shows. It takes no memory.
    pub fn reading(&self) -> Reading
        ensures shows { ReportsReading self.now result }
        ensures closed { IsClosed self.now → ShowsNothing result }
    {
        match &self.opened {
            Some(opened) => {
                let image = opened.image();
                let weights = image.weights;
                Reading {
                    status: DONE,
                    flags: u32::from(image.status),
                    weights,
                }
            }
            None => Reading {
                status: CLOSED,
                flags: 0,
                weights: [0; 3],
            },
        }
    }

    /// What is engraved on the scale: the unit, the point and the range of what it shows. It takes no memory.
    pub fn engraved(&self) -> Engraved
        ensures shows { ReportsEngraved self.now result }
        ensures closed { IsClosed self.now → ShowsNoPlate result }
    {
        match &self.opened {
            Some(opened) => {
                let plate = opened.indicator().plate();
                Engraved {
                    status: DONE,
                    unit: plate.unit(),
                    decimals: plate.decimals(),
                    max: plate.max(),
                    e: plate.e(),
                }
            }
            None => Engraved {
                status: CLOSED,
                unit: [0; 3],
                decimals: 0,
                max: 0,
                e: 0,
            },
        }
    }

    /// The value that a variable of the program has between two scans, by its name: `fill`, `dose.timer.ET` through instances of
    /// blocks, or a directly represented variable as `%QX0.3`, in letters of either case. The name may need a little memory.
    pub fn value(&self, name: &[u8]) -> VariableRead
        ensures reports { ReportsValue self.now name.now result }
        ensures refused { RefusesValue self.now name.now result }
    {
        let Some(opened) = &self.opened else {
            return no_value(CLOSED);
        };
        let Some(machine) = opened.machine() else {
            return no_value(NO_PROGRAM);
        };
        let variable = match variable_named(self.alloc, machine.loaded(), name) {
            Ok(Some(variable)) => variable,
            Ok(None) => return no_value(NO_VARIABLE),
            Err(_) => return no_value(NO_MEMORY),
        };
        match machine.number(variable.place) {
            Some(number) => VariableRead {
                status: DONE,
                kind: kind_number(variable.kind),
                number,
            },
            None => no_value(NO_VARIABLE),
        }
    }

    /// Scans the program once, at a moment in milliseconds: it sees the inputs and the indicator as they are. It takes
    /// no memory.
    pub fn scan(&mut self, ms: u64) -> Scanned
        ensures taken { TakesScan self.old self.new ms result }
        ensures refused { RefusesScan self.old self.new ms result }
    {
        let Some(opened) = &mut self.opened else {
            return no_scan(CLOSED);
        };
        let Some(last) = opened.last() else {
            return no_scan(NO_PROGRAM);
        };
        if ms > LAST_MOMENT {
            return no_scan(MOMENT_OUT_OF_RANGE);
        }
        if ms < last {
            return no_scan(MOMENT_BACK);
        }
        match opened.scan(ms) {
            Some(record) => scan_answer(&record),
            None => no_scan(NO_PROGRAM),
        }
    }
}
