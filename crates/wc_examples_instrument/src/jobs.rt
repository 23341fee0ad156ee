//! The sections of a job.

ghost use Rattle.std.specs.Prelude.{◌≡◌, ◌++◌, [], ◌∷◌, codes, Some, None};
ghost use Rattle.wc_model.specs.Run.JobSections.{sections_of};
ghost use Rattle.wc_examples_instrument.specs.Worked.{lines_text, plate_text};

/// The first job: a plate, a program, a log, each with the line ends of its lines.
pub fn first_job()
    ensures { sections_of
        (lines_text (codes "@plate" ∷ []) ++ plate_text
        ++ lines_text (codes "@program" ∷ codes "PROGRAM P"
        ∷ codes "LD %IX0.0" ∷ codes "ST %QX0.0" ∷ codes "END_PROGRAM" ∷ codes "@log"
        ∷ codes "ms,kind,data" ∷ codes "0,I,0001" ∷ codes "0,S," ∷ []))
        ≡ Ok (record {
          plate = plate_text;
          program = lines_text (codes "PROGRAM P" ∷ codes "LD %IX0.0" ∷ codes "ST %QX0.0"
              ∷ codes "END_PROGRAM" ∷ []);
          next = None;
          log = lines_text (codes "ms,kind,data" ∷ codes "0,I,0001" ∷ codes "0,S," ∷ []);
        }) }
{}

/// A heading may end in CRLF; a later heading of the same word is a line of its section; empty sections are sections.
pub fn job_sections()
    ensures crlf { sections_of
        (codes "@plate" ++ 13 ∷ 10 ∷ codes "@program" ++ 10 ∷ codes "@plate" ++ 10 ∷ codes "@log"
        ++ 10 ∷ codes "x")
        ≡ Ok (record {
          plate = [];
          program = lines_text (codes "@plate" ∷ []);
          next = None;
          log = codes "x";
        }) }
{}

/// A next program follows the first heading of its own between the program and the log, and nowhere else.
pub fn next_sections()
    ensures between { sections_of
        (lines_text (codes "@plate" ∷ codes "@program" ∷ codes "P" ∷ codes "@next" ∷ codes "Q"
        ∷ codes "@next" ∷ codes "@log" ∷ []))
        ≡ Ok (record {
          plate = [];
          program = lines_text (codes "P" ∷ []);
          next = Some (lines_text (codes "Q" ∷ codes "@next" ∷ []));
          log = [];
        }) }
    ensures elsewhere { sections_of
        (lines_text (codes "@plate" ∷ codes "@next" ∷ codes "@program" ∷ codes "@log"
        ∷ codes "@next" ∷ []))
        ≡ Ok (record {
          plate = lines_text (codes "@next" ∷ []);
          program = [];
          next = None;
          log = lines_text (codes "@next" ∷ []);
        }) }
{}

/// Without a heading, with one that has no line end, or with one that isn't the first line, a job is refused.
pub fn job_sections_missing()
    ensures empty { sections_of [] ≡ Err 701 }
    ensures no_log { sections_of (lines_text (codes "@plate" ∷ codes "@program" ∷ []))
        ≡ Err 701 }
    ensures no_line_end { sections_of
        (codes "@plate" ++ 10 ∷ codes "@program" ++ 10 ∷ codes "@log")
        ≡ Err 701 }
    ensures not_first { sections_of
        (lines_text ([] ∷ codes "@plate" ∷ codes "@program" ∷ codes "@log" ∷ [])) ≡ Err 701 }
    ensures alongside { sections_of
        (lines_text (codes "@plate" ∷ codes "@program x" ∷ codes "@log" ∷ [])) ≡ Err 701 }
{}
