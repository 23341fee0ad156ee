/// What the program does, with an example of each command after the name by which the program is called.
macro_rules! about {
    ($called:literal) => {
        concat!(
            "A legal weighing indicator, and the customer's logic in Instruction List.\n\n  ",
            $called,
            " check --path program.il\n  ",
            $called,
            " check --next new.il old.il\n  ",
            $called,
            " run --plate plate.toml --program program.il --log log.csv --last 10\n  ",
            $called,
            " run --plate plate.toml --program old.il --next new.il --log log.csv\n  ",
            $called,
            " run --plate plate.toml --program program.il --log log.csv --watch filling,t.ET\n  ",
            $called,
            " run --plate plate.toml --program program.il --log log.csv --watch filling --changes\n  ",
            $called,
            " trace --plate plate.toml --program program.il --log log.csv --at 650\n  ",
            $called,
            " show --plate plate.toml --program program.il --log log.csv --watch filling > run.svg\n  ",
            $called,
            " line --plate plate.toml --log log.csv\n  ",
            $called,
            " cut --plate plate.toml --log log.csv --at 5000 > rest.csv\n  ",
            $called,
            " run --plate plate.toml --program program.il --log log.csv | ",
            $called,
            " decode\n  ",
            $called,
            " check --deny-warnings program.il\n  ",
            $called,
            " explain 403\n  ",
            $called,
            " < job.txt

Without arguments it reads a job from standard input: a line @plate and the plate, a line
@program and the program, optionally a line @next and the next program, and a line @log
and the log. A run prints `S <ms> <steps> <bits> <%QD0> <%QD1> <%QD2> <%QD3>` for each
scan, and `L <ms> <hex>` for each row of line bytes that was answered. A refusal is the
last line, `refused <number> <place>`; standard error says why, with --message short on
one line, with --message json as a JSON object.

Exit status: 0 success, 1 refused, 2 usage error, 3 a file or device failed, 4 out of memory"
        )
    };
}

/// How help and version name the program.
#[derive(Clone, Copy)]
pub(crate) struct Title {
    pub(crate) name: &'static str,
    pub(crate) about: &'static str,
}

/// The title of the program as it is built.
const BUILT: Title = Title {
    name: "wc",
    about: about!("./wc"),
};

/// The title of the program as it is installed.
const INSTALLED: Title = Title {
    name: "narbeddo",
    about: about!("narbeddo"),
};

/// The title for the name by which the program was called, the first of its arguments.
pub(crate) fn title_of(arguments: &[String]) -> Title {
    match arguments.first() {
        Some(called) if called.as_str() == INSTALLED.name => INSTALLED,
        Some(called) if called.as_str().ends_with("/narbeddo") => INSTALLED,
        _ => BUILT,
    }
}
