ghost use Rattle.wc_run.specs.Representation.{BytesAreCutAnywhere, EachRowIsACall};

/// Each row of a log brings what a call brings.
pub fn each_row_is_a_call()
    ensures { EachRowIsACall }
{}

/// Bytes on the line bring the same, however they are cut.
pub fn bytes_are_cut_anywhere()
    ensures { BytesAreCutAnywhere }
{}
