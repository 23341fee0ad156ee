ghost use Rattle.std.specs.Prelude.{◌≡◌, IsSome, true};
ghost use Rattle.wc_diag_texts.specs.Numbers.{is_refusal};

use crate::case::Case;
use crate::catalogue::entry_of;
use wc_model::{Kind, StandardBlock};

/// A mistake that a refusal shows: in which way its rule is broken, what is said of the slice that is quoted, and what to write instead.
/// Words are empty if the case has them, or the number of the refusal.
#[derive(Clone, Copy)]
pub struct Mistake {
    pub case: Case,
    pub sentence: &'static str,
    pub hint: &'static str,
}

/// What is said of a mistake, mostly of the slice of text that is quoted before it, and what to write instead. Either is empty if the
/// number of the refusal says all.
type Words = (&'static str, &'static str);

/// What is said of a standard function.
const NO_FUNCTION: &str = "is a standard function, and functions are not supported";

/// What is said of a value that is passed, or of what takes one.
const DIFFERS: &str = "is of another type than the input or output";

/// What to write for a CTD.
macro_rules! counting_down {
    () => {
        concat!(
            "there is no CTD, and a CTU only counts up: count down with e : R_TRIG and n : DINT: CAL e(CLK := a); ",
            "LD e.Q, JMPCN skip; LD n, SUB 1, ST n; `skip:` LD b, JMPCN go; LD 10, ST n; ",
            "`go:` LD n, LE 0 is the Q of the CTD, a its CD, b its LOAD (LD), 10 its PV"
        )
    };
}

/// What to write, and how the seconds of a timer are counted in a DINT.
macro_rules! counting_seconds {
    ($text:literal) => {
        concat!(
            $text,
            "; for the seconds of a t.ET, with lim : TIME := T#1s and n : DINT, below CAL t: LD t.ET, GE lim, JMPCN skip; ",
            "LD lim, ADD T#1s, ST lim; LD n, ADD 1, ST n; `skip:` LD t.ET, GT T#0s, JMPC done; ",
            "LD T#1s, ST lim; LD 0, ST n; `done:` LD n is the seconds"
        )
    };
}

/// The words of a number in a case among these. They are chosen by reference: by value the proof takes twice as long.
macro_rules! words_among {
    ($number:expr, $case:expr; $($row:pat, $which:pat => $sentence:expr, $hint:expr;)*) => {
        *match ($number, $case) {
            $(($row, $which) => &($sentence, $hint),)*
            _ => &("", ""),
        }
    };
}

/// What is said of a refusal of that number in that case; nothing if the number's own sentence says all.
pub fn sentence_of(number: u16, case: Case) -> Option<&'static str>
    ensures { IsSome result → is_refusal number ≡ true }
{
    let entry = entry_of(number)?;
    if matches!(case, Case::Unknown) {
        return None;
    }
    let (sentence, _) = words_in(number, case);
    non_empty(either(sentence, entry.quoted))
}

/// What to write in place of what a refusal of that number refuses in that case; nothing if the number's own hint says all.
pub fn hint_of(number: u16, case: Case) -> Option<&'static str>
    ensures { IsSome result → is_refusal number ≡ true }
{
    let _entry = entry_of(number)?;
    non_empty(words_in(number, case).1)
}

/// A text, if it is one.
fn non_empty(text: &'static str) -> Option<&'static str> {
    if text.is_empty() { None } else { Some(text) }
}

/// A text, or another one if it is empty.
fn either(text: &'static str, other: &'static str) -> &'static str {
    if text.is_empty() { other } else { text }
}

/// The words of a number in a case.
fn words_in(number: u16, case: Case) -> Words {
    words_among! {
        number, case;
        101, Case::ByteOrderMark => "is a byte order mark, which is not allowed", "save the text as ASCII, or as UTF-8 without a byte order mark";
        101, Case::Utf16 => "begins a text in UTF-16", "save the text as ASCII, or as UTF-8 without a byte order mark";
        104, Case::DoubleUnderscore => "has two underscores in a row", "";
        104, Case::LastUnderscore => "has an underscore at its end", "";
        105, Case::SignAlone => "is a sign without a number", "a sign is right before its digits, without a space, such as -5; write ADD or SUB and the number on a line of its own, such as LD n, then ADD m in place of an L m and a +I; the negative of a number is LD 0, and on the next line SUB and the number";
        105, Case::WithBase => "is not a valid literal, or is out of range", "the largest is 16#7FFFFFFF: write -2147483648 for 16#80000000, -1 for 16#FFFFFFFF; the digits of 2# are 0 and 1, of 8# 0 to 7, of 16# 0 to 9 and A to F, with single underscores between";
        105, Case::WithPoint => "has a decimal point, but numbers are integers", "write 1.5 kg as 1500, if weights have 3 decimals";
        105, Case::OutOfRange => "is out of range", "";
        201, Case::SectionWord => "is not allowed after an instruction", "declarations go between VAR and END_VAR, before the first instruction";
        201, Case::UnitEnd => "does not end this unit", "a PROGRAM ends with END_PROGRAM, a FUNCTION_BLOCK with END_FUNCTION_BLOCK";
        201, Case::NoOperator => "is not an operator or a keyword", "operators: LD ST AND OR XOR (with N: LDN) S R NOT ADD SUB MUL DIV MOD GT GE EQ NE LE LT JMP CAL RET (with C or CN)";
        201, Case::Closing => "", "the `)` needs a line of its own";
        201, Case::NoUnit => "", "begin with PROGRAM and a name; then come VAR .. END_VAR, the instructions and END_PROGRAM";
        201, Case::AfterProgram => "", "nothing is allowed after the END_PROGRAM of the program";
        201, Case::NegatedOperand => "", "to negate the operand write ANDN, ORN, XORN, LDN or STN; NOT alone negates the result, and JMPCN jumps if it is FALSE";
        201, Case::LabelWithoutColon => "", "a label ends with a colon, such as skip:";
        201, Case::InstanceCall => "", "a call begins with CAL, such as CAL t(IN := a, PT := T#1s)";
        201, Case::StatementList => "", "this looks like Siemens STL (AWL): U, A or O is LD at the start and after each `=`, S or R, else AND or OR (UN: LDN, ANDN), X is XOR, L is LD; `=` and T are ST; +I is ADD, >=I is GE";
        201, Case::Assignment => "", "to assign write LD and the value, and on the next line ST and the variable";
        201, Case::Declaration => "", "a declaration is `name : TYPE;`, such as a : BOOL;";
        201, Case::Configuration => "is not supported", "leave out CONFIGURATION, RESOURCE and TASK: the one PROGRAM runs in every scan";
        201, Case::Function => NO_FUNCTION, "";
        201, Case::Conversion => NO_FUNCTION, counting_seconds!("there are no conversions: compare a TIME with a TIME, such as GE T#15s");
        201, Case::DownCounter => "", counting_down!();
        201, Case::OpenSection => "", "close the section of declarations with END_VAR before the first instruction";
        201, Case::LeftOut => "is not supported", "write a FUNCTION_BLOCK (one word, with no type after its name) .. END_FUNCTION_BLOCK with a VAR_OUTPUT, ST the result to that, and call an instance with CAL";
        201, Case::LineEnd => "the line cannot end here", "";
        203, Case::UnitWord => "there is a unit after the PROGRAM", "";
        206, Case::Closing => "no parenthesis is open here", "delete this `)`, or write an opening one above, such as AND( a";
        206, _ => "", "write `)` on a line of its own after the last operand that belongs inside, at the latest above the ST that takes the result";
        208, Case::UnitWord => "there are more than 64 units", "";
        401 | 403..=409, Case::NotOfBlock(StandardBlock::Ton) => "", "TON has the inputs IN and PT (:=) and the outputs Q and ET (=>)";
        401 | 403..=409, Case::NotOfBlock(StandardBlock::Tof) => "", "TOF has the inputs IN and PT (:=) and the outputs Q and ET (=>)";
        401 | 403..=409, Case::NotOfBlock(StandardBlock::Tp) => "", "TP has the inputs IN and PT (:=) and the outputs Q and ET (=>)";
        401 | 403..=409, Case::NotOfBlock(StandardBlock::Ctu) => "", "CTU has the inputs CU, R and PV (:=) and the outputs Q and CV (=>)";
        401 | 403..=409, Case::NotOfBlock(StandardBlock::RTrig) => "", "R_TRIG has the input CLK (:=) and the output Q (=>)";
        401 | 403..=409, Case::NotOfBlock(StandardBlock::Sr) => "", "SR has the inputs S1 and R (:=), of which S1 wins, and the output Q1 (=>); RS has S and R1, of which R1 wins";
        401 | 403..=409, Case::NotOfBlock(StandardBlock::Rs) => "", "RS has the inputs S and R1 (:=), of which R1 wins, and the output Q1 (=>); SR has S1 and R, of which S1 wins";
        302 | 409, Case::DownCounter => "", counting_down!();
        306, Case::Variable => "is one variable more than the 256 that a unit may have", "";
        401, Case::Field => "is not an input or output of a declared instance", "";
        401, Case::BlockType => "is the name of a type, not of an instance", "";
        403, Case::Plain => "there is no current result", "begin with LD: no line that leads here has loaded a value";
        404, Case::LiteralTarget => "", "the target is a variable or an output, such as ST a, or Q => a in a call; LD loads the value";
        404, _ => "", "an input is set by the caller: copy it to a variable in VAR, and change the copy";
        405, _ => "", "store the value of an input in a variable of your own, pass that, and read it; of a block of the text declare in VAR_OUTPUT what is to be read";
        408, Case::Deferred => "takes no parenthesis", "";
        409, Case::InputArrow => "is an input of this block, and `=>` reads an output", "an input is passed with :=, such as IN := a";
        409, Case::OutputAssigned => "is an output of this block, and `:=` passes an input", "an output is read with =>, such as Q => a";
        402, Case::Instance => "is an instance, and has no value of its own", "name one of its outputs, such as t.Q, c.CV or l.Q1";
        402, Case::NoInstance => "is not an instance of a function block", "CAL names an instance of a function block, declared in VAR: t : TON;";
        402, Case::TruthLiteral => "", "here 0 and 1 are DINTs: write FALSE for 0, TRUE for 1";
        402, Case::StoredTimeToNumber => "", counting_seconds!("a TIME cannot be converted: store it to a TIME variable");
        402, Case::ComparedNumber => "", "compare the number first, such as NE 0 or GE 500: a comparison gives a BOOL; to use the number below, ST it before the comparison and LD it again";
        402, Case::ComparedTime => "", "compare the time first, such as GE T#500ms: a comparison gives a BOOL; to use the time below, ST it before the comparison and LD it again";
        402, Case::CountedBool => "", "a BOOL cannot be converted to a number: begin with LD to go on with a number; to add 1 to n if a is TRUE write LD a, JMPCN skip; LD n, ADD 1, ST n; `skip:` goes on with an LD; to count pulses write CAL c(CU := a), with c : CTU, and LD c.CV; for 1 or 0, with k : DINT, write LD 0, ST k; LD a, JMPCN done; LD 1, ST k; `done:` LD k";
        402, Case::OrderedBool => "", "BOOLs have no GT, GE, LE or LT: for a second comparison of n write AND( n, then LE 900, then `)`; for another one begin with LD and its number";
        402, Case::MultipliedTime => "", "a TIME cannot be multiplied: write the product as a duration, such as T#15s, or ADD the time several times";
        402, Case::DividedTime => "", counting_seconds!("a TIME cannot be divided: compare it, such as GE T#15s");
        402, Case::Closing => "closes with another type than that of the result before its parenthesis", "end the lines in the parenthesis with the type of the result before it";
        402, Case::Untaken(_) => "is of a type that this operator does not take", "";
        402, Case::Unlike(Kind::Bool) => "is a BOOL, but the current result is of another type", "";
        402, Case::Unlike(Kind::Dint) => "is a DINT, but the current result is of another type", "";
        402, Case::Unlike(Kind::Time) => "is a TIME, but the current result is of another type", "";
        402, Case::Result => "does not take the type of the current result", "";
        402, Case::Unpassed(Kind::Bool, _) => DIFFERS, "pass a number to a DINT, a duration to a TIME";
        402, Case::Unpassed(_, Kind::Bool) => DIFFERS, "compare before the call, store the BOOL in a variable, and pass that variable";
        402, Case::Unpassed(Kind::Dint, _) => DIFFERS, "write a duration, such as T#500ms, or pass a TIME";
        402, Case::Unpassed(Kind::Time, _) => DIFFERS, "write an integer, such as 500, or pass a DINT";
    }
}

impl Mistake {
    /// A mistake with the words of its case.
    pub fn of(case: Case) -> Mistake {
        Mistake {
            case,
            sentence: "",
            hint: "",
        }
    }

    /// The mistake in a refusal of that number, also with the words of its case.
    pub fn with_words(mut self, number: u16) -> Mistake {
        let (sentence, hint) = words_in(number, self.case);
        self.sentence = either(self.sentence, sentence);
        self.hint = either(self.hint, hint);
        self
    }
}

/// The mistake of the first of these rows that fits, if one does. They are chosen by reference: by value the proof takes twice as long.
#[macro_export]
macro_rules! mistake_among {
    ($found:expr; $($pattern:pat $(if $guard:expr)? => $case:ident $(says $sentence:literal,)? $hint:literal;)*) => {
        Some(*match $found {
            $($pattern $(if $guard)? => &$crate::Mistake {
                case: $crate::Case::$case,
                sentence: concat!($($sentence)?),
                hint: $hint,
            },)*
            _ => return None,
        })
    };
}
