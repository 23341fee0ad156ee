ghost use Rattle.wc_text_flat.specs.Laws.{CallsAreRuns, EndedBodiesAreOver, FirstNumbersAreContents, FlatCodeHasTheWorstPath, FlatCodeIsShort, FlatCodeMeansTheText, FlatCodeScansTheText, HeldNumbersStayHeld, LoweredCodeKeepsWithin, LoweredCodeNests, OutputsAreNumbers, SkippedLinesAreDropped};
ghost use Rattle.wc_text_flat.specs.SeenLaws.{FlatCodeIsSeenAsTheText, SeenIsTheTrace};

/// The flat run of a text that is read and breaks no rule on bodies is defined, and leaves the
/// numbers of the store that the text leaves; its steps are the length of the trace.
pub fn flat_code_means_the_text()
    ensures { FlatCodeMeansTheText }
{}

/// A scan is the flat run over the numbers with the image in place of the first 25.
pub fn flat_code_scans_the_text()
    ensures { FlatCodeScansTheText }
{}

/// The first numbers of the program's frame are those of the store of the declarations.
pub fn first_numbers_are_contents()
    ensures { FirstNumbersAreContents }
{}

/// From numbers that some store of the declarations' kinds holds, a scan of flat code is defined,
/// and leaves such numbers.
pub fn held_numbers_stay_held()
    ensures { HeldNumbersStayHeld }
{}

/// What a body's code calls is the run of an earlier unit.
pub fn calls_are_runs()
    ensures { CallsAreRuns }
{}

/// To pass over lines is to go on after them.
pub fn skipped_lines_are_dropped()
    ensures { SkippedLinesAreDropped }
{}

/// After the end of a body nothing is executed.
pub fn ended_bodies_are_over()
    ensures { EndedBodiesAreOver }
{}

/// The outputs of a store are the numbers at the places 25 to 44.
pub fn outputs_are_numbers()
    ensures { OutputsAreNumbers }
{}

/// The lines of lowered code name places of the unit's frame, pass over lines that are there, and
/// call earlier units, whose frames lie within the caller's.
pub fn lowered_code_keeps_within()
    ensures { LoweredCodeKeepsWithin }
{}

/// The parentheses of lowered code match, and are at most eight deep; lines that are passed over
/// match too.
pub fn lowered_code_nests()
    ensures { LoweredCodeNests }
{}

/// The worst path of a unit's flat code, from the last line to the first, has the length of a
/// longest path of the unit and the lines of its worst path.
pub fn flat_code_has_the_worst_path()
    ensures { FlatCodeHasTheWorstPath }
{}

/// A unit has no more flat lines than a text may have bytes.
pub fn flat_code_is_short()
    ensures { FlatCodeIsShort }
{}

/// What is seen of a scan are the items of its trace, one by one.
pub fn seen_is_the_trace()
    ensures { SeenIsTheTrace }
{}

/// What is seen of a scan of flat code, line by line, is what is seen of the scan of the text that is lowered: the items of its
/// trace, each with its line of the text, the result and the store after it.
pub fn flat_code_is_seen_as_the_text()
    ensures { FlatCodeIsSeenAsTheText }
{}
