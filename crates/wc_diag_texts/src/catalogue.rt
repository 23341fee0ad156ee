ghost use Rattle.std.specs.Prelude.{◌≡◌, IfSome, is_some};
ghost use Rattle.wc_diag_texts.specs.Numbers.{is_from, is_refusal};

/// All that is said of a refusal by its number alone. docs/REFUSALS.md has the same, and a script holds one against the other.
pub struct Entry {
    pub number: u16,
    /// The pass that refuses.
    pub pass: &'static str,
    /// What is wrong.
    pub sentence: &'static str,
    /// What is wrong, said of a slice of text that is quoted before it; empty if nothing is quoted.
    pub quoted: &'static str,
    /// What its place is.
    pub place: &'static str,
    /// A smallest input, in which ` / ` ends a line.
    pub input: &'static str,
    /// The place in the answer to that input.
    pub answer: u32,
    /// What to write instead.
    pub hint: &'static str,
    /// The lines of a usual text that is refused so, why, and the text mended; none if it is no program that is refused.
    pub usual: &'static [&'static str],
}

/// The entry of a number among these, if there is one: a number without a row has no entry.
macro_rules! entry_among {
    ($among:expr; $($number:literal $pass:literal: $sentence:literal $(quoted $quoted:literal)?
        at $place:literal, $input:literal => $answer:literal, help $hint:literal
        $(, $kind:ident $($wrong:literal)* why $why:literal $(rule $section:literal)? mended $($mended:literal)*)?;)*) => {
        Some(match $among {
            $($number => &Entry {
                number: $number,
                pass: $pass,
                sentence: $sentence,
                quoted: concat!($($quoted)?),
                place: $place,
                input: $input,
                answer: $answer,
                hint: $hint,
                usual: &[$(
                    concat!(stringify!($kind), ":"), $(concat!("    ", $wrong),)* concat!("why: ", $why),
                    "mended:", $(concat!("    ", $mended),)* $(concat!("rule: section ", $section, " of docs/LANGUAGE.md"),)?
                )?],
            },)*
            _ => return None,
        })
    };
}

/// The entry of a refusal, if there is one of that number.
pub fn entry_of(number: u16) -> Option<&'static Entry>
    ensures known { is_some result ≡ is_refusal number }
    ensures number { IfSome result (λ entry. entry.now.number ≡ number) }
{
    entry_among! {
        number;
        101 "tokens": "a byte is not allowed here" quoted "is not allowed here"
            at "the line of the byte", "!" => 1,
            help "outside comments only letters, digits, spaces and the punctuation of the language are allowed; a comment is (* .. *)",
            wrong "PROGRAM P" "LD %IX0.0 // start" "ST %QX0.0" "END_PROGRAM"
            why "outside comments a text has only bytes of the language; a comment begins with (* and ends with *)" rule "2.1"
            mended "PROGRAM P" "LD %IX0.0 (* start *)" "ST %QX0.0" "END_PROGRAM";
        102 "tokens": "a comment is still open at the end of the text"
            at "the line of its (*", "(*" => 1, help "close the comment with *)",
            wrong "PROGRAM P" "LD %IX0.0 (* start" "ST %QX0.0" "END_PROGRAM"
            why "a comment goes on over line ends to its *), so all that is below would be left out" rule "2.1"
            mended "PROGRAM P" "LD %IX0.0 (* start *)" "ST %QX0.0" "END_PROGRAM";
        103 "tokens": "comments cannot be nested"
            at "the line of the outer (*", "(*(*" => 1, help "a comment ends at the first *): delete the inner (* and *), or write the outer *) that is missing above the inner (*",
            wrong "PROGRAM P" "(* LD %IX0.1 (* stop *) *)" "LD %IX0.0" "ST %QX0.0" "END_PROGRAM"
            why "the first *) would end the outer comment too, and what follows it would be read as program" rule "2.1"
            mended "PROGRAM P" "(* LD %IX0.1, stop *)" "LD %IX0.0" "ST %QX0.0" "END_PROGRAM";
        104 "tokens": "an identifier has two underscores in a row, one at its end, or more than 32 characters" quoted "has more than 32 characters"
            at "the line of the token", "_" => 1,
            help "an identifier has at most 32 letters, digits and single underscores, and no underscore at its end",
            wrong "PROGRAM Bag__filling" "LD %IX0.0" "ST %QX0.0" "END_PROGRAM"
            why "one underscore and two look alike, and would be two names" rule "2.2"
            mended "PROGRAM Bag_filling" "LD %IX0.0" "ST %QX0.0" "END_PROGRAM";
        105 "tokens": "a number is malformed or out of range" quoted "is not a number"
            at "the line of the token", "+" => 1,
            help "write an integer from -2147483648 to 2147483647, such as 12, -7 or 16#FF, or BOOL#0 or BOOL#1",
            wrong "PROGRAM P" "LD %ID1" "GE 1.5" "AND %IX1.5" "ST %QX0.0" "END_PROGRAM"
            why "numbers are integers: a weight is counted in units of its last decimal, so with 3 decimals 1.5 kg is 1500" rule "2.2"
            mended "PROGRAM P" "LD %ID1" "GE 1500" "AND %IX1.5" "ST %QX0.0" "END_PROGRAM";
        106 "tokens": "a duration is malformed or out of range" quoted "is not a valid duration, or is out of range"
            at "the line of the token", "T#" => 1,
            help "write days to milliseconds in order, each once, such as T#1d2h3m4s5ms, or one with a point, such as T#1.5s; after the first number hours are below 24, minutes and seconds below 60; the longest is T#24d20h31m23s647ms (a TON of T#1d and a CTU count days), and milliseconds are whole",
            wrong "PROGRAM P" "VAR t : TON; END_VAR" "CAL t(IN := %IX0.0, PT := T#5, Q => %QX0.0)" "END_PROGRAM"
            why "without a unit 5 could be seconds or milliseconds" rule "2.2"
            mended "PROGRAM P" "VAR t : TON; END_VAR" "CAL t(IN := %IX0.0, PT := T#5s, Q => %QX0.0)" "END_PROGRAM";
        107 "tokens": "the text has more than 65536 bytes"
            at "0", "(65537 spaces)" => 0, help "shorten the text: it may have 65536 bytes",
            wrong "PROGRAM P" "(* 12 March: the valve opens later *) (2000 times)" "LD %IX0.0" "ST %QX0.0" "END_PROGRAM"
            why "memory and time to load a text are bounded, and comments count" rule "10"
            mended "PROGRAM P" "(* 12 March: the valve opens later *)" "LD %IX0.0" "ST %QX0.0" "END_PROGRAM";
        201 "reader": "a token is unexpected" quoted "is unexpected here"
            at "the line of the first token with which the text can't go on", "x" => 1,
            help "an instruction is `label: OPERATOR operand`; `name : TYPE;` is declared between VAR and END_VAR",
            wrong "PROGRAM P" "LD %IX0.0;" "ST %QX0.0;" "END_PROGRAM"
            why "the text is read from its beginning, and no text of the grammar goes on so; an instruction ends with its line" rule "3.1"
            mended "PROGRAM P" "LD %IX0.0" "ST %QX0.0" "END_PROGRAM";
        202 "reader": "the file ends inside this unit"
            at "the line of the unit's keyword", "PROGRAM" => 1, help "close the unit with END_PROGRAM or END_FUNCTION_BLOCK",
            wrong "FUNCTION_BLOCK Half" "VAR_INPUT n : DINT; END_VAR" "VAR_OUTPUT half : DINT; END_VAR" "LD n" "DIV 2" "ST half"
            why "without its END word nothing says whether the unit is whole, or was cut off on its way" rule "3.1"
            mended "FUNCTION_BLOCK Half" "VAR_INPUT n : DINT; END_VAR" "VAR_OUTPUT half : DINT; END_VAR" "LD n" "DIV 2" "ST half"
            "END_FUNCTION_BLOCK" "PROGRAM P" "END_PROGRAM";
        203 "reader": "there must be exactly one PROGRAM, as the last unit"
            at "the line of the unit after PROGRAM, or the text's last line", "(the empty text)" => 1,
            help "write the function blocks first, and then one PROGRAM",
            wrong "PROGRAM Fill" "LD %IX0.0" "ST %QX0.0" "END_PROGRAM" "PROGRAM Empty" "LD %IX0.1" "ST %QX0.1" "END_PROGRAM"
            why "a scan executes one PROGRAM, from its first line" rule "3.1"
            mended "PROGRAM Fill_and_empty" "LD %IX0.0" "ST %QX0.0" "LD %IX0.1" "ST %QX0.1" "END_PROGRAM";
        204 "reader": "a parenthesis is empty"
            at "the line of the )", "PROGRAM P&( / )" => 2, help "write at least one line between ( and )",
            wrong "PROGRAM P" "LD %IX0.0" "AND(" ")" "ST %QX0.0" "END_PROGRAM"
            why "the `)` applies the operator to the result in the parenthesis, and here there is none" rule "3.3"
            mended "PROGRAM P" "LD %IX0.0" "AND( %IX0.1" "OR %IX0.2" ")" "ST %QX0.0" "END_PROGRAM";
        205 "reader": "a jump, a call, a return or a label is not allowed inside a parenthesis"
            at "its line", "PROGRAM P&( / x:" => 2, help "close the parenthesis before it with a `)` on a line of its own, or move it above the LD that begins the expression",
            wrong "PROGRAM P" "LD %IX0.0" "AND( %IX0.1" "RETCN" ")" "ST %QX0.0" "END_PROGRAM"
            why "the operator waits for its `)`: who leaves the parenthesis would leave it undone" rule "3.1"
            mended "PROGRAM P" "LD %IX0.1" "RETCN" "AND %IX0.0" "ST %QX0.0" "END_PROGRAM";
        206 "reader": "a parenthesis is not closed, or none is open" quoted "the parenthesis is not closed"
            at "the line of the ); the line of the innermost opening", "PROGRAM P)" => 1,
            help "write one ) on a line of its own for each ( that is open",
            wrong "PROGRAM P" "LD %IX0.0" "AND( %IX0.1" "OR %IX0.2" "ST %QX0.0" "END_PROGRAM"
            why "only the `)` applies the operator: without it the ST would store what is in the parenthesis alone" rule "3.1"
            mended "PROGRAM P" "LD %IX0.0" "AND( %IX0.1" "OR %IX0.2" ")" "ST %QX0.0" "END_PROGRAM";
        207 "reader": "more than 8 parentheses are nested"
            at "the line of the ninth opening", "PROGRAM P&( / &( / &( / &( / &( / &( / &( / &( / &(" => 9,
            help "store the inner result in a variable, and use that",
            wrong "PROGRAM P" "LD %IX0.0" "AND( %IX0.1 (9 times)" ") (9 times)" "ST %QX0.0" "END_PROGRAM"
            why "each open parenthesis keeps a result until its `)`, and the machine has room for 8" rule "10"
            mended "PROGRAM P" "LD %IX0.0" "AND( %IX0.1 (8 times)" ") (8 times)" "ST %QX0.0" "END_PROGRAM";
        208 "reader": "there are more than 64 units, or more than 1024 lines in a unit" quoted "the unit has more than 1024 lines"
            at "the line of the unit's keyword, or of the line that is too many", "(64 times FUNCTION_BLOCK a END_FUNCTION_BLOCK, a line each, then PROGRAM)" => 65,
            help "split the body: a unit may have 1024 lines, a text 64 units",
            wrong "PROGRAM P" "LD %ID1 (1025 times)" "END_PROGRAM"
            why "memory and time to load a text are bounded" rule "10"
            mended "FUNCTION_BLOCK Part" "LD 0 (600 times)" "END_FUNCTION_BLOCK" "PROGRAM P" "VAR a, b : Part; END_VAR" "CAL a" "CAL b" "END_PROGRAM";
        301 "tables": "a name is declared twice" quoted "is declared twice"
            at "the second name", "PROGRAM P / VAR a, a : BOOL; END_VAR / END_PROGRAM" => 2,
            help "choose another name; letter case makes no difference",
            wrong "PROGRAM P" "VAR Fill : BOOL; fill : TON; END_VAR" "CAL fill(IN := %IX0.0, PT := T#2s, Q => Fill)" "LD Fill" "ST %QX0.0"
            "END_PROGRAM"
            why "letter case makes no difference, so both would have one name" rule "7.1"
            mended "PROGRAM P" "VAR full : BOOL; fill : TON; END_VAR" "CAL fill(IN := %IX0.0, PT := T#2s, Q => full)" "LD full" "ST %QX0.0"
            "END_PROGRAM";
        302 "tables": "the type is unknown or is not allowed here" quoted "is not a type of this language"
            at "the type", "PROGRAM P / VAR a : b; END_VAR / END_PROGRAM" => 2,
            help "types are BOOL, DINT, TIME, and in VAR R_TRIG, SR, RS, CTU, TON, TOF, TP and the blocks above",
            wrong "PROGRAM P" "VAR n : INT; END_VAR" "LD n" "ADD 1" "ST n" "ST %QD0" "END_PROGRAM"
            why "nothing is converted, so there is one type for whole numbers, of 32 bits" rule "7.2"
            mended "PROGRAM P" "VAR n : DINT; END_VAR" "LD n" "ADD 1" "ST n" "ST %QD0" "END_PROGRAM";
        303 "tables": "the initial value does not fit the type" quoted "is not an initial value of this type"
            at "the literal", "PROGRAM P / VAR a : BOOL := 2; END_VAR / END_PROGRAM" => 2,
            help "a BOOL takes TRUE, FALSE, 0 or 1, a DINT an integer, a TIME a duration, such as T#500ms",
            wrong "PROGRAM P" "VAR t : TON; pause : TIME := 500; END_VAR" "CAL t(IN := %IX0.0, PT := pause, Q => %QX0.0)" "END_PROGRAM"
            why "nothing is converted, and a number has no unit" rule "7.2"
            mended "PROGRAM P" "VAR t : TON; pause : TIME := T#500ms; END_VAR" "CAL t(IN := %IX0.0, PT := pause, Q => %QX0.0)" "END_PROGRAM";
        304 "tables": "there is no such address" quoted "is not an address of this machine"
            at "the address", "PROGRAM P / LD % / END_PROGRAM" => 2,
            help "the inputs are %IX0.0 to %IX0.15, %IX1.0 to %IX1.5 and %ID0 to %ID2, the outputs %QX0.0 to %QX0.15 and %QD0 to %QD3",
            wrong "PROGRAM P" "LD %IX0.0" "ST %MX0.0" "LD %MX0.0" "ST %QX0.0" "END_PROGRAM"
            why "addresses are those of the terminals and of the indicator; what a program keeps has a name" rule "7.3"
            mended "PROGRAM P" "VAR kept : BOOL; END_VAR" "LD %IX0.0" "ST kept" "LD kept" "ST %QX0.0" "END_PROGRAM";
        305 "tables": "an address is not allowed in a function block" quoted "cannot be used in a function block"
            at "the address", "FUNCTION_BLOCK B / LD %IX0.0 / END_FUNCTION_BLOCK / PROGRAM P / END_PROGRAM" => 2,
            help "declare a VAR_INPUT or VAR_OUTPUT in the block, and pass the address in its CAL",
            wrong "FUNCTION_BLOCK Lamp" "LD %IX0.0" "ST %QX0.0" "END_FUNCTION_BLOCK" "PROGRAM P" "VAR l : Lamp; END_VAR" "CAL l" "END_PROGRAM"
            why "a block may have many instances, and all would read and write the same terminals" rule "7.3"
            mended "FUNCTION_BLOCK Lamp" "VAR_INPUT on : BOOL; END_VAR" "VAR_OUTPUT lit : BOOL; END_VAR" "LD on" "ST lit" "END_FUNCTION_BLOCK"
            "PROGRAM P" "VAR l : Lamp; END_VAR" "CAL l(on := %IX0.0, lit => %QX0.0)" "END_PROGRAM";
        306 "tables": "a unit has more than 256 variables, or a frame more than 4096 places" quoted "makes a frame of more than 4096 places"
            at "the name that is too many", "(PROGRAM P, on line 2 a VAR section with 257 names of type BOOL, END_PROGRAM)" => 2,
            help "use fewer variables or instances: a unit may have 256 variables, a frame 4096 places",
            wrong "PROGRAM P" "VAR v1, v2, .., v257 : DINT; END_VAR" "END_PROGRAM"
            why "the machine has room for so many values" rule "7.4"
            mended "PROGRAM P" "VAR v1 : DINT; END_VAR" "LD v1" "ADD 1" "ST v1" "ST %QD0" "END_PROGRAM";
        307 "tables": "the name is a reserved word" quoted "is a reserved word"
            at "the name", "PROGRAM R / END_PROGRAM" => 1,
            help "choose another name: operators, keywords and types are reserved; letter case makes no difference",
            wrong "PROGRAM P" "VAR r : BOOL; END_VAR" "LD %IX0.0" "ST r" "LD r" "ST %QX0.0" "END_PROGRAM"
            why "R is an operator, in any letter case: a line that begins with it would have two meanings" rule "7.1"
            mended "PROGRAM P" "VAR ready : BOOL; END_VAR" "LD %IX0.0" "ST ready" "LD ready" "ST %QX0.0" "END_PROGRAM";
        308 "tables": "the function block is declared below, or is this one itself"
            quoted "is a function block that is declared below, or this one itself"
            at "the type", "FUNCTION_BLOCK B / VAR a : B; END_VAR / END_FUNCTION_BLOCK / PROGRAM P / END_PROGRAM" => 2,
            help "move the block above the unit that uses it; a block cannot contain itself",
            wrong "FUNCTION_BLOCK Line" "VAR m : Motor; END_VAR" "CAL m" "END_FUNCTION_BLOCK" "FUNCTION_BLOCK Motor" "END_FUNCTION_BLOCK" "PROGRAM P"
            "VAR l : Line; END_VAR" "CAL l" "END_PROGRAM"
            why "a block calls only blocks above it, so that no call leads back to itself and each scan ends" rule "7.2"
            mended "FUNCTION_BLOCK Motor" "END_FUNCTION_BLOCK" "FUNCTION_BLOCK Line" "VAR m : Motor; END_VAR" "CAL m" "END_FUNCTION_BLOCK"
            "PROGRAM P" "VAR l : Line; END_VAR" "CAL l" "END_PROGRAM";
        401 "verify": "the name is not declared" quoted "is not declared in this unit"
            at "the line of the instruction", "PROGRAM P / LD x / END_PROGRAM" => 2,
            help "declare the name in VAR, VAR_INPUT or VAR_OUTPUT of this unit",
            wrong "PROGRAM P" "VAR full : BOOL; END_VAR" "LD %IX0.0" "ST ful" "LD full" "ST %QX0.0" "END_PROGRAM"
            why "if a use declared its name, each misspelling would be a variable of its own" rule "7.5"
            mended "PROGRAM P" "VAR full : BOOL; END_VAR" "LD %IX0.0" "ST full" "LD full" "ST %QX0.0" "END_PROGRAM";
        402 "verify": "the types do not match"
            at "the line of the instruction, or of the )", "PROGRAM P / LDN 1 / END_PROGRAM" => 2,
            help "begin with LD to go on with another value; a comparison gives a BOOL, such as GE 500; ST takes a variable of the type of the current result",
            wrong "PROGRAM P" "LD %ID1" "AND %IX1.5" "ST %QX0.0" "END_PROGRAM"
            why "nothing is converted: a weight is a number, and only a comparison makes a BOOL of it" rule "6"
            mended "PROGRAM P" "LD %ID1" "GE 500" "AND %IX1.5" "ST %QX0.0" "END_PROGRAM";
        403 "verify": "there is no current result, or its type differs by the path"
            at "the line of the instruction", "PROGRAM P / NOT / END_PROGRAM" => 2,
            help "load a value with LD first: every path that leads here has to bring one, and all of them one type",
            wrong "PROGRAM P" "AND %IX0.0" "AND %IX0.1" "ST %QX0.0" "END_PROGRAM"
            why "a body begins with no result, and keeps none from the scan before; where paths meet, each has to bring the same type" rule "6"
            mended "PROGRAM P" "LD %IX0.0" "AND %IX0.1" "ST %QX0.0" "END_PROGRAM";
        404 "verify": "this may not be written" quoted "cannot be written"
            at "the line of the instruction", "PROGRAM P / ST 1 / END_PROGRAM" => 2,
            help "only variables, outputs, and inputs of instances can be written",
            wrong "PROGRAM P" "LD TRUE" "ST %IX0.0" "END_PROGRAM"
            why "an input says what is at its terminal, and what is written to it would be lost in the next scan" rule "7.5"
            mended "PROGRAM P" "LD TRUE" "ST %QX0.0" "END_PROGRAM";
        405 "verify": "this may not be read" quoted "cannot be read"
            at "the line of the instruction", "PROGRAM P / VAR t : TON; END_VAR / LD t.IN / END_PROGRAM" => 3,
            help "only the outputs of an instance can be read",
            wrong "PROGRAM P" "VAR t : TON; END_VAR" "CAL t(IN := %IX0.0, PT := T#2s)" "LD t.IN" "ST %QX0.0" "END_PROGRAM"
            why "inputs are there for the block; what a caller may know of it is in its outputs" rule "7.5"
            mended "PROGRAM P" "VAR t : TON; END_VAR" "CAL t(IN := %IX0.0, PT := T#2s)" "LD t.Q" "ST %QX0.0" "END_PROGRAM";
        406 "verify": "no line below has the label" quoted "is not a label of this unit"
            at "the line of the jump", "PROGRAM P / JMP L / END_PROGRAM" => 2, help "jumps only go forward: put the label on a line below the jump",
            wrong "PROGRAM P" "VAR n : DINT; END_VAR" "again: LD n" "ADD 1" "ST n" "LT 10" "JMPC again" "LD n" "ST %QD0" "END_PROGRAM"
            why "jumps lead down only, so that each scan ends within a bound that is known before; the program runs again in the next scan" rule "4"
            mended "PROGRAM P" "VAR n : DINT; END_VAR" "LD n" "GE 10" "JMPC done" "LD n" "ADD 1" "ST n" "done: LD n" "ST %QD0" "END_PROGRAM";
        407 "verify": "the label is used twice in this body" quoted "is the label of two lines of this unit"
            at "the line of the second label", "PROGRAM P / L: / L: / END_PROGRAM" => 3,
            help "choose another label for one of the two, also in each jump that leads to it; letter case makes no difference",
            wrong "PROGRAM P" "LD %IX0.0" "JMPCN skip" "S %QX0.0" "skip: LD %IX0.1" "JMPCN skip" "R %QX0.0" "skip:" "END_PROGRAM"
            why "a jump to it would have two places to go to" rule "7.7"
            mended "PROGRAM P" "LD %IX0.0" "JMPCN stop" "S %QX0.0" "stop: LD %IX0.1" "JMPCN done" "R %QX0.0" "done:" "END_PROGRAM";
        408 "verify": "the divisor is not a whole-number literal, or it is 0" quoted "is not a valid divisor"
            at "the line of the instruction", "PROGRAM P / LD 1 / DIV 0 / END_PROGRAM" => 3,
            help "DIV and MOD take a literal other than 0, such as DIV 10; to compare a quotient, MUL the other side instead",
            wrong "PROGRAM P" "VAR parts : DINT := 3; END_VAR" "LD 100" "DIV parts" "ST %QD0" "END_PROGRAM"
            why "a variable can be 0 when the program runs, and no scan may fail" rule "6"
            mended "PROGRAM P" "LD 100" "DIV 3" "ST %QD0" "END_PROGRAM";
        409 "verify": "the block has no input or output of that name" quoted "is not an input or output of this block"
            at "the line of the call", "PROGRAM P / VAR t : TON; END_VAR / CAL t(x := 1) / END_PROGRAM" => 3,
            help "`:=` takes the names that a block has in VAR_INPUT, `=>` those that it has in VAR_OUTPUT",
            wrong "PROGRAM P" "VAR t : TON; END_VAR" "CAL t(IN := %IX0.0, PT := T#2s, Q := %QX0.0)" "END_PROGRAM"
            why "`:=` passes a value to an input before the block runs, `=>` takes that of an output after it" rule "4"
            mended "PROGRAM P" "VAR t : TON; END_VAR" "CAL t(IN := %IX0.0, PT := T#2s, Q => %QX0.0)" "END_PROGRAM";
        410 "verify": "an input or output is passed twice" quoted "is passed twice in this call"
            at "the line of the call", "PROGRAM P / VAR t : TON; END_VAR / CAL t(IN := 1, IN := 1) / END_PROGRAM" => 3,
            help "name each input and output once",
            wrong "PROGRAM P" "VAR t : TON; END_VAR" "CAL t(IN := %IX0.0, IN := %IX0.1, PT := T#2s, Q => %QX0.0)" "END_PROGRAM"
            why "the block runs once, and would see only the second value" rule "7.7"
            mended "PROGRAM P" "VAR t : TON; a : BOOL; END_VAR" "LD %IX0.0" "OR %IX0.1" "ST a" "CAL t(IN := a, PT := T#2s, Q => %QX0.0)"
            "END_PROGRAM";
        411 "cost": "the unit may take more than 1000000 steps"
            at "the line of the unit's keyword", "(the text below the table) of docs/REFUSALS.md: nineteen blocks, of which each calls the one before twice, and a program that calls the last one twice" => 94,
            help "call fewer blocks: the longest path through a unit may have 1000000 steps",
            wrong "FUNCTION_BLOCK Part" "LD 0 (1000 times)" "END_FUNCTION_BLOCK" "PROGRAM P" "VAR a : Part; END_VAR" "CAL a (1000 times)"
            "END_PROGRAM"
            why "each scan has to end in time, and each step takes some" rule "5"
            mended "FUNCTION_BLOCK Part" "LD 0 (1000 times)" "END_FUNCTION_BLOCK" "PROGRAM P" "VAR a : Part; END_VAR" "CAL a (100 times)"
            "END_PROGRAM";
        501 "plate": "the plate is not TOML"
            at "0", "plate x" => 0, help "the plate has lines `key = value`: a text is between quotation marks, such as unit = \"kg\", a number is digits alone, such as max = 15000";
        502 "plate": "a key is missing, is unknown, or has a value of the wrong type"
            at "0", "(the empty plate)" => 0,
            help "the keys are unit, decimals, max, e, zero_counts, span_counts and window, each once; unit is a text, the others are whole numbers, max and e in units of the last decimal, such as e = 5 for 0.005 kg";
        503 "plate": "unit must be g, kg or t"
            at "0", "plate A with unit = \"lb\"" => 0, help "write unit = \"g\", \"kg\" or \"t\"";
        504 "plate": "decimals must be 0 to 3"
            at "0", "plate A with decimals = 4" => 0, help "write decimals = 0, 1, 2 or 3";
        505 "plate": "e is not an allowed scale interval"
            at "0", "plate A with e = 3" => 0, help "e is 1, 2 or 5, with 0 or 3 decimals also 10, 20 or 50, and at least 5 g";
        506 "plate": "max must be 500 to 10000 times e"
            at "0", "plate A with max = 15001" => 0, help "max is a multiple of e, from 500 to 10000 times e";
        507 "plate": "zero_counts or span_counts is out of range"
            at "0", "plate A with span_counts = 11999" => 0, help "zero_counts is -8388608 to 8388607, span_counts four times max / e to 8000000";
        508 "plate": "window must be 2 to 16"
            at "0", "plate A with window = 1" => 0, help "window is 2 to 16";
        601 "log": "the row does not have three fields, or the first row is not ms,kind,data" quoted "the row has fewer than three fields"
            at "the row", "(the empty log)" => 1,
            help "the first row is ms,kind,data; every other row has two commas as well, even without data, such as 50,S,";
        602 "log": "the time is not a number of milliseconds below 2^40" quoted "is above 1099511627775, the greatest time"
            at "the row", "row ,S," => 2, help "a row is ms,kind,data; ms is a whole number of milliseconds, 0 to 1099511627775";
        603 "log": "the time is before that of the row above" quoted "is before the time of the row above"
            at "the row", "rows 1,S, / 0,S," => 3, help "sort the rows by their times";
        604 "log": "the kind is not C, L, I, S or P" quoted "is not a kind"
            at "the row", "row 0,," => 2, help "a row is ms,kind,data; the kinds are C, L, I, S and P";
        605 "log": "the counts are not a whole number from -8388608 to 8388607" quoted "is not from -8388608 to 8388607"
            at "the row", "row 0,C," => 2, help "the counts are -8388608 to 8388607";
        606 "log": "the data is not hexadecimal, or of the wrong length" quoted "the data is longer than 4096 bytes"
            at "the row", "row 0,I," => 2, help "an L row has pairs of hexadecimal digits, for at most 4096 bytes, an I row four digits";
        607 "log": "there are more than 1000000 rows"
            at "the row", "(the heading row and 1000000 rows 0,S,)" => 1000001, help "split the log: it may have 1000000 rows";
        608 "log": "the row of a scan or of a change has data"
            at "the row", "row 0,S,x" => 2, help "leave the third field of a scan and of a change empty, such as 10,S,";
        609 "log": "there is no next program to change to"
            at "the row", "row 0,P," => 2,
            help "name the next program by --next of run, trace or show, or in a job by @next before @log; one run changes its program once";
        701 "job": "a job has the lines @plate, @program and @log in this order, and begins with @plate"
            at "0", "(the empty job)" => 0,
            help "a job is a line @plate and the plate, a line @program and the program, a line @log and the log; each of the three is on a line of its own, in lower case";
        702 "job, files": "there are more than 1048576 bytes"
            at "0", "(1048577 spaces)" => 0, help "a plate and a job may have 1048576 bytes, a program 65536";
    }
}

/// All that is said of a warning by its number alone, if there is one of that number: no pass, and no answer.
pub fn warning_of(number: u16) -> Option<&'static Entry>
    ensures known { is_some result ≡ is_from 1 9 number }
    ensures number { IfSome result (λ entry. entry.now.number ≡ number) }
{
    entry_among! {
        number;
        1 "": "a variable is neither read nor written" quoted "is neither read nor written"
            at "the line of its name", "PROGRAM P / VAR a : BOOL; END_VAR / END_PROGRAM" => 0, help "remove the variable, or use it",
            suspicious "PROGRAM P" "VAR a, b : BOOL; END_VAR" "LD %IX0.0" "ST a" "LD a" "ST %QX0.0" "END_PROGRAM"
            why "it may be left over, or another name may be written in its place"
            mended "PROGRAM P" "VAR a : BOOL; END_VAR" "LD %IX0.0" "ST a" "LD a" "ST %QX0.0" "END_PROGRAM";
        2 "": "a variable is never read" quoted "is never read"
            at "the line of its name", "PROGRAM P / VAR a : BOOL; END_VAR / LD TRUE / ST a / END_PROGRAM" => 0,
            help "read the variable, or remove it and what writes it",
            suspicious "PROGRAM P" "VAR a : BOOL; END_VAR" "LD %IX0.0" "ST a" "ST %QX0.0" "END_PROGRAM"
            why "what is stored in it has no effect"
            mended "PROGRAM P" "LD %IX0.0" "ST %QX0.0" "END_PROGRAM";
        3 "": "a variable is read, but it is never written and has no initial value" quoted "is read, but it is never written and has no initial value"
            at "the line of its name", "PROGRAM P / VAR a : BOOL; END_VAR / LD a / ST %QX0.0 / END_PROGRAM" => 0,
            help "write the variable, or give it an initial value, such as a : BOOL := TRUE;",
            suspicious "PROGRAM P" "VAR limit : DINT; END_VAR" "LD %ID1" "GE limit" "AND %IX1.5" "ST %QX0.0" "END_PROGRAM"
            why "it is 0, FALSE or T#0s in each scan"
            mended "PROGRAM P" "VAR limit : DINT := 500; END_VAR" "LD %ID1" "GE limit" "AND %IX1.5" "ST %QX0.0" "END_PROGRAM";
        4 "": "an instance is never called" quoted "is never called"
            at "the line of its name", "PROGRAM P / VAR t : TON; END_VAR / END_PROGRAM" => 0, help "call the instance with CAL, or remove it",
            suspicious "PROGRAM P" "VAR t : TON; END_VAR" "LD t.Q" "ST %QX0.0" "END_PROGRAM"
            why "a block does something only when it is called: this timer never runs"
            mended "PROGRAM P" "VAR t : TON; END_VAR" "CAL t(IN := %IX0.0, PT := T#2s)" "LD t.Q" "ST %QX0.0" "END_PROGRAM";
        5 "": "a variable is an output that its function block never writes" quoted "is an output that its function block never writes"
            at "the line of its name", "FUNCTION_BLOCK B / VAR_OUTPUT q : BOOL; END_VAR / END_FUNCTION_BLOCK / PROGRAM P / END_PROGRAM" => 0,
            help "store the output in the function block, or remove it",
            suspicious "FUNCTION_BLOCK Always" "VAR_OUTPUT q : BOOL; END_VAR" "LD TRUE" "END_FUNCTION_BLOCK" "PROGRAM P" "END_PROGRAM"
            why "each caller reads its initial value"
            mended "FUNCTION_BLOCK Always" "VAR_OUTPUT q : BOOL; END_VAR" "LD TRUE" "ST q" "END_FUNCTION_BLOCK" "PROGRAM P" "END_PROGRAM";
        6 "": "an instance is a timer whose PT is never set: its time is T#0ms" quoted "is a timer whose PT is never set: its time is T#0ms"
            at "the line of its name", "PROGRAM P / VAR t : TON; END_VAR / CAL t / END_PROGRAM" => 0,
            help "set the time in the call, such as CAL t(PT := T#5s)",
            suspicious "PROGRAM P" "VAR t : TON; END_VAR" "CAL t(IN := %IX0.0, Q => %QX0.0)" "END_PROGRAM"
            why "without a time it ends as soon as it begins"
            mended "PROGRAM P" "VAR t : TON; END_VAR" "CAL t(IN := %IX0.0, PT := T#2s, Q => %QX0.0)" "END_PROGRAM";
        7 "": "the lines from here on are never executed" quoted "the lines from here on are never executed"
            at "the line of the first instruction", "PROGRAM P / RET / LD 1 / ST %QD0 / END_PROGRAM" => 0,
            help "remove the lines, or put a label before them and jump to it",
            suspicious "PROGRAM P" "LD %IX0.0" "ST %QX0.0" "RET" "LD %IX0.1" "ST %QX0.1" "END_PROGRAM"
            why "RET and JMP always leave; RETC, RETCN, JMPC and JMPCN leave on a condition"
            mended "PROGRAM P" "LD %IX0.0" "ST %QX0.0" "RETC" "LD %IX0.1" "ST %QX0.1" "END_PROGRAM";
        8 "": "an output is stored here, and earlier on a path to here: the last value counts" quoted "is stored here, and earlier on a path to here: the last value counts"
            at "the line of the later store", "PROGRAM P / LD 1 / ST %QD0 / ST %QD0 / END_PROGRAM" => 0,
            help "compute the value in a variable, and store the output once",
            suspicious "PROGRAM P" "LD %IX0.0" "ST %QX0.0" "LD %IX0.1" "ST %QX0.0" "END_PROGRAM"
            why "outputs are set at the end of a scan, so the first store has no effect"
            mended "PROGRAM P" "LD %IX0.0" "OR %IX0.1" "ST %QX0.0" "END_PROGRAM";
        9 "": "a weight is read, but %IX1.5 is never read: while it is FALSE all weights are 0" quoted "is read, but %IX1.5 is never read: while it is FALSE all weights are 0"
            at "the line of the first instruction that reads a weight", "PROGRAM P / LD %ID1 / ST %QD0 / END_PROGRAM" => 0,
            help "read %IX1.5, and act on a weight only if it is TRUE",
            suspicious "PROGRAM P" "LD %ID1" "LT 500" "ST %QX0.0" "END_PROGRAM"
            why "a weight that is not valid reads as 0, here as below 500"
            mended "PROGRAM P" "LD %ID1" "LT 500" "AND %IX1.5" "ST %QX0.0" "END_PROGRAM";
    }
}
