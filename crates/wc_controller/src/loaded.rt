ghost use Rattle.std.specs.Prelude.{◌≡◌, [], ℕ, List, true, false, Some, None, Option, IfErr, IfOk, IfSome, IsOkUnless, OnOk, IsErrOf, is_some, option_map};
ghost use Rattle.wc_controller.specs.Blames.{IsNextUnloaded, IsUnloaded, RefusesLog, StopsFor};
ghost use Rattle.wc_controller.specs.Endings.{HasNotFailedAt, IsReadFaultAt, StopsAt, ReportsWriteFaults, WritesUpTo, begin_fault_input, fault_raised, raised};
ghost use Rattle.wc_controller.specs.Files.{AnswersPrinting, IsLineAnswer};
ghost use Rattle.wc_controller.specs.TakenLogs.{ReportsDevices, observed_by, reader_of, IsLater, IsNextLoadedOf, OfLogic, log_alone, log_alongside, log_by};
ghost use Rattle.wc_controller.specs.WrittenRuns.{IsUnwritten, OnEnd, logic_shown, next_text, says_of};
ghost use Rattle.wc_model.specs.Definitions.{PlateData, IsLoaded, text_view, Record, log_of, AnswersNext, Logic, first_logic};
ghost use Rattle.wc_record.specs.{fields_reported, records_of};
ghost use Rattle.wc_run.specs.{text_of_next, WritesBy, HasNotFailed, ReportsRefused, ReportsWrites, Plan, RefusesToBegin, bytes_of, loaded_of, said, start_of, start_with, IsNotAfter, Represents};

use crate::checking::load;
use crate::ending::InputFault;
use std::alloc::Global;
use wc_cost::Loaded;
use wc_job::Input;
use wc_machine::Machine;
use wc_model::{ByteIn, ByteOut};
use wc_plate::Plate;
use wc_record::RefusedRow;
use wc_run::{LogScale, Observer, Program, RunFault, run};
use wc_store::SlotStore;

/// The plate of a run and its programs: the text of the first and what was loaded of it, and the
/// text of the next one, if there is one.
#[derive(Drop)]
pub(crate) struct RunPrograms<'a> {
    pub(crate) plate: Plate,
    pub(crate) text: &'a [u8],
    pub(crate) loaded: Loaded<'a>,
    pub(crate) next: Option<&'a [u8]>,
}

/// Loads a program.
pub(crate) fn load_input<'a>(
    alloc: Global,
    input: Input,
    text: &'a [u8],
) -> Result<Loaded<'a>, InputFault>
    ensures loaded { IfOk result (λ loaded. IsLoaded text.now (text_view loaded.source)) }
    ensures refused { IfErr result (λ stopped. IsUnloaded text.now stopped.fault) }
    ensures input { IfErr result (λ stopped. stopped.input ≡ input) }
    ensures held { (any : Input) → ¬ IsReadFaultAt any result }
    ensures silent { (count : ℕ) → ReportsWriteFaults (raised result) count count }
{
    match load(alloc, text) {
        Ok(loaded) => Ok(loaded),
        Err(fault) => Err(InputFault {
            input,
            fault: RunFault::from(fault),
        }),
    }
}

/// Loads the next program, if there is one.
fn load_next<'a>(alloc: Global, text: Option<&'a [u8]>) -> Result<Option<Loaded<'a>>, InputFault>
    ensures loaded { IfOk result
        (λ next. IsNextLoadedOf (option_map (λ text. text.now) text.entry) next) }
    ensures refused { IfErr result
        (λ stopped. IsNextUnloaded (option_map (λ text. text.now) text.entry) stopped.fault) }
    ensures input { IfErr result (λ stopped. stopped.input ≡ Input.Next) }
    ensures held { (any : Input) → ¬ IsReadFaultAt any result }
    ensures silent { (count : ℕ) → ReportsWriteFaults (raised result) count count }
{
    match text {
        Some(text) => Ok(Some(load_input(alloc, Input::Next, text)?)),
        None => Ok(None),
    }
}

/// The next program as an observer is shown it.
fn next_program<'l, 't>(
    text: Option<&'t [u8]>,
    loaded: &'l Option<Loaded<'t>>,
) -> Option<Program<'l, 't>>
    requires { IsNextLoadedOf (option_map (λ text. text.now) text) loaded.now }
    ensures loaded { loaded_of result ≡ loaded.now }
    ensures text { bytes_of result ≡ option_map (λ text. text.now) text.entry }
{
    match loaded {
        Some(loaded) => match text {
            Some(text) => Some(Program { text, loaded }),
            None => None,
        },
        None => None,
    }
}

/// The input that is named if an observer does not begin.
fn begin_fault_input(fault: RunFault) -> Input
    ensures { result ≡ begin_fault_input fault }
{
    match fault {
        RunFault::Refused { .. } => Input::Names,
        _ => Input::Log,
    }
}

/// Shows an observer the programs of a run, before its log is read.
fn begin<W: ByteOut, O: Observer<SlotStore, W>>(
    observer: &mut O,
    first: Option<Program<'_, '_>>,
    next: Option<Program<'_, '_>>,
) -> Result<(), InputFault>
    requires { O.is_new observer.old }
    ensures settings { O.settings observer.new ≡ O.settings observer.old }
    ensures plan { O.plan observer.new ≡ O.plan observer.old }
    ensures seen { OnOk result ((plate : PlateData)
        → O.has_seen observer.new plate (logic_shown first.entry next.entry) []) }
    ensures written { OnOk result ((plate : PlateData) (taken : Option (List ℕ))
        → O.has_written observer.new (start_of first.entry next.entry taken) taken plate
        (logic_shown first.entry next.entry) []) }
    ensures begins { OnOk result
        (O.begins observer.old (logic_shown first.entry next.entry) ≡ true) }
    ensures refused { IfErr result (λ stopped. RefusesToBegin
        (O.begins observer.old (logic_shown first.entry next.entry))
        (O.has_refused observer.old observer.new (logic_shown first.entry next.entry))
        stopped.fault) }
    ensures input { IfErr result (λ stopped. stopped.input ≡ begin_fault_input stopped.fault) }
{
    match observer.begin(first, next) {
        Ok(()) => Ok(()),
        Err(fault) => Err(InputFault {
            input: begin_fault_input(fault),
            fault,
        }),
    }
}

/// A scale with a program that is loaded, and the next one, to which no row has come.
fn scale_of<'a>(
    alloc: Global,
    plate: &Plate,
    loaded: Loaded<'a>,
    next: Option<Loaded<'a>>,
) -> Result<LogScale<'a, SlotStore>, RunFault>
    ensures represents { IfOk result (λ scale. Represents scale plate.now
        (Some (first_logic (text_view loaded.entry.source) (text_of_next next.entry))) []) }
    ensures first { IfOk result (λ scale. IsNotAfter scale 0) }
    ensures memory { IsOkUnless result RunFault.Memory }
{
    let machine = Machine::new(alloc, loaded)?;
    LogScale::new(alloc, plate, Some(machine), next)
}

/// How a run ends whose log was run with this answer.
fn stopped_at_log(answer: Result<u32, RunFault>) -> Result<(), InputFault>
    ensures input { IfErr result (λ stopped. stopped.input ≡ Input.Log) }
    ensures fault { raised result ≡ fault_raised answer }
    ensures blames { (plan : Plan) (plate : PlateData) (logic : Option Logic) (fields : Record)
        (known before after : Option (List ℕ))
        → IfSome known (λ bytes. WritesBy plan plate logic (log_by logic bytes) answer before after)
        → ReportsRefused known fields answer
        → StopsFor Input.Log (RefusesLog (log_by logic) fields) known result }
    ensures read { IsReadFaultAt Input.Log result → IsErrOf answer RunFault.Read }
    ensures memory { raised result ≡ Some RunFault.Memory → IsErrOf answer RunFault.Memory }
    ensures reader { (before after : ℕ) → HasNotFailed answer before after
        → HasNotFailedAt Input.Log result before after }
    ensures failures { (before after : ℕ) → ReportsWrites answer before after
        → ReportsWriteFaults (raised result) before after }
{
    match answer {
        Ok(_) => Ok(()),
        Err(fault) => Err(InputFault {
            input: Input::Log,
            fault,
        }),
    }
}

/// Runs a log with no program.
pub(crate) fn run_alone<W: ByteOut, O: Observer<SlotStore, W>, L: ByteIn>(
    alloc: Global,
    observer: &mut O,
    plate: &Plate,
    log: &mut L,
    writer: &mut W,
    reported: &mut RefusedRow,
) -> Result<(), InputFault>
    requires new { O.is_new observer.old }
    ensures writes { IfSome (L.bytes_left log.old)
        (λ bytes. WritesUpTo (IsLineAnswer (observed_by O.plan O.begins observer.old) plate.now
        (log_of (records_of bytes)))
        (raised result) (said O.speaks (W.bytes_taken writer.old))
        (said O.speaks (W.bytes_taken writer.new))) }
    ensures ended { OnEnd result (IfSome (L.bytes_left log.old)
        (λ bytes. says_of (O.has_ended observer.new (O.settings observer.old))
        (W.bytes_taken writer.new)
        (start_of None None (W.bytes_taken writer.old)) plate.now None (log_by None bytes))) }
    ensures unwritten { IsUnwritten result (W.bytes_taken writer.old)
        (W.bytes_taken writer.new) }
    ensures later { IsLater result }
    ensures no_next { ¬ StopsAt Input.Next result }
    ensures refused { StopsAt Input.Names result
        → (O.begins observer.old None ≡ false) × O.has_refused observer.old observer.new None }
    ensures blames { StopsFor Input.Log (RefusesLog log_alone (fields_reported reported.new))
        (L.bytes_left log.old) result }
    ensures devices { ReportsDevices log_alone result
        (reader_of L.bytes_left L.failure_count L.spent_count log.old)
        (reader_of L.bytes_left L.failure_count L.spent_count log.new)
        (W.failure_count writer.old) (W.failure_count writer.new) }
{
    if let Err(stopped) = begin(observer, None, None) {
        return Err(stopped);
    }
    match LogScale::new(alloc, plate, None, None) {
        Ok(mut scale) => stopped_at_log(run(alloc, observer, &mut scale, log, writer, reported)),
        Err(fault) => Err(InputFault {
            input: Input::Log,
            fault,
        }),
    }
}

/// Loads the next program, if there is one, and runs a log with a program that is loaded. The log is
/// not read if the next program is refused.
pub(crate) fn run_loaded<W: ByteOut, O: Observer<SlotStore, W>, L: ByteIn>(
    alloc: Global,
    observer: &mut O,
    programs: RunPrograms<'_>,
    log: &mut L,
    writer: &mut W,
    reported: &mut RefusedRow,
) -> Result<(), InputFault>
    requires new { O.is_new observer.old }
    ensures writes { IfSome (L.bytes_left log.old)
        (λ bytes. WritesUpTo (AnswersNext (next_text programs.entry)
        (AnswersPrinting (observed_by O.plan O.begins observer.old) programs.entry.plate
        (log_of (records_of bytes)) (text_view programs.entry.loaded.source)))
        (raised result) (said O.speaks (W.bytes_taken writer.old))
        (said O.speaks (W.bytes_taken writer.new))) }
    ensures ended { OnEnd result (OfLogic (text_view programs.entry.loaded.source)
        (next_text programs.entry) (λ logic. IfSome (L.bytes_left log.old)
        (λ bytes. says_of (O.has_ended observer.new (O.settings observer.old))
        (W.bytes_taken writer.new)
        (start_with programs.entry.text.now (next_text programs.entry) (W.bytes_taken writer.old))
        programs.entry.plate logic (log_by logic bytes)))) }
    ensures unwritten { IsUnwritten result (W.bytes_taken writer.old)
        (W.bytes_taken writer.new) }
    ensures blames_next { IfErr result (λ stopped. stopped.input ≡ Input.Next
        → IsNextUnloaded (next_text programs.entry) stopped.fault) }
    ensures blames_log { StopsFor Input.Log
        (RefusesLog (log_alongside (is_some (next_text programs.entry)))
        (fields_reported reported.new)) (L.bytes_left log.old) result }
    ensures unread { StopsAt Input.Next result
        → reader_of L.bytes_left L.failure_count L.spent_count log.new
        ≡ reader_of L.bytes_left L.failure_count L.spent_count log.old }
    ensures refused { StopsAt Input.Names result → OfLogic (text_view programs.entry.loaded.source)
        (next_text programs.entry) (λ logic. (O.begins observer.old logic ≡ false)
        × O.has_refused observer.old observer.new logic) }
    ensures later { IsLater result }
    ensures held { ¬ IsReadFaultAt Input.Next result }
    ensures devices { ReportsDevices (log_alongside (is_some (next_text programs.entry))) result
        (reader_of L.bytes_left L.failure_count L.spent_count log.old)
        (reader_of L.bytes_left L.failure_count L.spent_count log.new)
        (W.failure_count writer.old) (W.failure_count writer.new) }
{
    let RunPrograms {
        plate,
        text,
        loaded,
        next: other,
    } = programs;
    let next = match load_next(alloc, other) {
        Ok(next) => next,
        Err(stopped) => return Err(stopped),
    };
    let first = Program {
        text,
        loaded: &loaded,
    };
    if let Err(stopped) = begin(observer, Some(first), next_program(other, &next)) {
        return Err(stopped);
    }
    match scale_of(alloc, &plate, loaded, next) {
        Ok(mut scale) => stopped_at_log(run(alloc, observer, &mut scale, log, writer, reported)),
        Err(fault) => Err(InputFault {
            input: Input::Log,
            fault,
        }),
    }
}
