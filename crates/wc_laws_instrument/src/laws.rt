//! Laws of the definitions, over all inputs.

ghost use Rattle.std.specs.Prelude.{◌≡◌, ◌∷◌, ◌++◌, ℕ, ◌<◌, ℤ, List, length, Option, true, IsFalse};
ghost use Rattle.std.specs.List.{list_all};
ghost use Rattle.wc_laws_instrument.specs.Changes.{ReportsFromTheChange, ReportsUpToTheChange, RowsAreRun};
ghost use Rattle.wc_laws_instrument.specs.Logs.{JobIsItsSections, RowsAreInOrder, ScanLinesComeOut};
ghost use Rattle.wc_laws_instrument.specs.Preludes.{CanBeCut, ReportsCanBeCut};
ghost use Rattle.wc_model.specs.Instrument.Answers.{RequestOutcome, Mode, answer};
ghost use Rattle.wc_model.specs.Definitions.{EffectsOf, History, samples, IsFreeOfScans, IsFreeOfPrograms, is_stable, Record, row_of, PlateData, IsPlate, Table, plate_of, Program, IsCutAnywhere, carriage_return, is_text, line_feed, requests, requests_in, HasOneNearest, LogRow, Past};

/// Exactly one whole number is nearest to a quotient by a positive span, and it is the one that is computed.
pub fn one_number_is_nearest()
    ensures { (num : ℤ) (span : ℕ) → 0 < span → HasOneNearest num span }
{}

/// Scans, inputs and changes of the program may be taken out of a log and put into it: the line's answers stay.
pub fn answers_are_free_of_scans()
    ensures { (p : PlateData) → IsFreeOfScans p }
{}

/// However a stream is cut, it has the same requests.
pub fn streams_are_cut_anywhere()
    ensures { IsCutAnywhere }
{}

/// A report without the lines of its scans is that of a run with no program, byte for byte, whatever the scans do and a change makes of
/// the program.
pub fn answers_are_free_of_programs<State>()
    ensures { (p : PlateData) (program : Program State) (start : State) (rows : List LogRow)
        → IsFreeOfPrograms p program start rows }
{}

/// The lines of scans can be taken out of the bytes that a run writes: those that begin with an S. What is left are the
/// bytes of a run with no program.
pub fn scan_lines_come_out<State>()
    ensures { (p : PlateData) (program : Program State) (start : State) (rows : List LogRow)
        → ScanLinesComeOut p program start rows }
{}

/// Up to a change of the program the report is that of the old program alone, whatever the next one is.
pub fn reports_up_to_the_change()
    ensures { ReportsUpToTheChange }
{}

/// From a change of the program on the report is that of the new program, from the store that is carried over to it.
pub fn reports_from_the_change()
    ensures { ReportsFromTheChange }
{}

/// The rows that a run takes of a log are run with its machine: no change among them is without a next program.
pub fn rows_are_run()
    ensures { RowsAreRun }
{}

/// A table that is accepted gives a plate in its ranges.
pub fn accepted_tables_are_plates()
    ensures { (table : Option Table) (p : PlateData) → plate_of table ≡ Ok p → IsPlate p }
{}

/// A sample and a refused command leave the zero point and the tare; an accepted zero makes the gross weight 0 and ends
/// the tare; an accepted tare makes the net weight exactly 0; a clear ends the tare.
pub fn what_an_event_does()
    ensures { (p : PlateData) (history : History) → 0 < p.span_counts → EffectsOf p history }
{}

/// After a million rows every row is refused, before anything of it is read.
pub fn rows_above_a_million()
    ensures { (before : List Record) (fields : Record) → 999999 < length before
        → row_of before fields ≡ Err 607 }
{}

/// The rows of a log are numbered on, their moments don't fall, and what they bring is in its range.
pub fn rows_are_in_order()
    ensures { RowsAreInOrder }
{}

/// The sections of a job, with their headings, are its bytes again.
pub fn a_job_is_its_sections()
    ensures { JobIsItsSections }
{}

/// Every answer with a weight has twenty bytes: no weight that is shown takes more than ten.
pub fn answers_have_twenty_bytes()
    ensures { (p : PlateData) (history : History) (mode : Mode) (asked : RequestOutcome) → IsPlate p
        → length (answer p history mode asked) ≡ 20 }
{}

/// The requests of a stream are those of its first part and then those that the second completes: a chunk never takes a
/// request back.
pub fn chunks_joined()
    ensures { (before chunk : List ℕ)
        → requests (before ++ chunk) ≡ requests before ++ requests_in before chunk }
{}

/// Every stretch of LF, bytes of text and CR is a request, after those before it and before those after it.
pub fn stretches_are_requests()
    ensures { (before text after : List ℕ) → list_all is_text text ≡ true →
        requests (before ++ (line_feed ∷ text ++ carriage_return ∷ after)) ≡ requests before ++ text
        ∷ requests after }
{}

/// With fewer samples than the window holds the scale is never stable.
pub fn too_few_samples_are_motion()
    ensures { (p : PlateData) (history : History) → length (samples history) < p.window
        → IsFalse (is_stable p history) }
{}

/// A log can be cut after any rows: a new scale that reads their prelude goes on as theirs does, whatever rows follow, and also
/// if the cut is within a request. Of the rows before the cut nothing is asked.
pub fn logs_can_be_cut()
    ensures { (p : PlateData) → 0 < p.window → (past : Past) → CanBeCut p past }
{}

/// With a program the report goes on from a cut as that of the rows with a program that begins again there.
pub fn reports_of_cut_logs<State>()
    ensures { (p : PlateData) (program : Program State) → 0 < p.window → (past : Past)
        → ReportsCanBeCut p program past }
{}
