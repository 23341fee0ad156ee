ghost use Rattle.std.specs.Prelude.{◌≡◌, ℕ, ◌++◌, [], ◌∷◌, List, Option, Some, codes};
ghost use Rattle.wc_examples_instrument.specs.Worked.{plate_text};
ghost use Rattle.wc_examples_instrument.specs.FirstJob.{program_bytes, log_bytes, log_records, table, job_bytes};
ghost use Rattle.wc_examples_language.specs.Programs.{copies_an_input};
ghost use Rattle.wc_model.specs.Definitions.{AnswersJob, IsLoaded, Record, Table};

/// The first program is loaded: its bytes spell it, and no pass refuses it.
pub fn first_program_is_loaded()
    ensures { IsLoaded program_bytes copies_an_input }
{}

/// The first job prints one scan of two steps that copies the input, and ends with status 0.
pub fn first_job_is_answered()
    ensures { (table_of : List ℕ → Option Table) (records_of : List ℕ → List Record) →
        table_of plate_text ≡ Some table → records_of log_bytes ≡ log_records →
        AnswersJob table_of records_of job_bytes (record {
          output = codes "S 0 2 0001 0 0 0 0" ++ 10
              ∷ [];
          status = 0;
        }) }
{}
