use wc_built_in::{Keyword, keyword_named};
use wc_diag_stops::is_among;
use wc_diag_texts::{Case, Mistake, mistake_among};

/// Words with spaces between, and the mistake that each of them is.
pub(crate) type Row = (&'static [u8], Mistake);

/// Rows of words, each with its mistake.
macro_rules! rows {
    ($($words:expr => $case:ident $(says $sentence:literal,)? $hint:literal;)*) => {
        [$(($words, Mistake { case: Case::$case, sentence: concat!($($sentence)?), hint: $hint })),*]
    };
}

/// Standard functions.
const FUNCTIONS: [Row; 8] = rows! {
    b"limit" => Function "for LIMIT(lo, x, hi) write LD x, ST y, GT hi, JMPCN low; LD hi, ST y; `low:` LD y, LT lo, JMPCN done; LD lo, ST y; `done:` LD y";
    b"max" => Function "for MAX(a, b) write LD a, ST y, LT b, JMPCN done; LD b, ST y; `done:` LD y";
    b"min" => Function "for MIN(a, b) write LD a, ST y, GT b, JMPCN done; LD b, ST y; `done:` LD y";
    b"neg negi negd" => Function "the negative of a number is LD 0, and on the next line SUB and the number";
    b"mux" => Function "for MUX(k, a, b, c) write LD a, ST y; LD k, EQ 1, JMPCN next; LD b, ST y; `next:` LD k, EQ 2, JMPCN done; LD c, ST y; `done:` LD y";
    b"sel" => Function "for SEL(g, a, b) write LD a, ST y; LD g, JMPCN done; LD b, ST y; `done:` LD y";
    b"move" => Function "leave MOVE out: LD loads the value, ST on the next line names where it goes";
    b"abs sqrt expt exp ln log sin cos tan asin acos atan shl shr rol ror len left right mid concat insert find trunc"
        => Function "compute it with ADD, SUB, MUL, DIV, MOD and comparisons, or in a FUNCTION_BLOCK";
};

/// Words of the standard that this language leaves out.
const LEFT_OUT: [Row; 8] = rows! {
    b"end_function" => Worded "a PROGRAM ends with END_PROGRAM, a FUNCTION_BLOCK with END_FUNCTION_BLOCK";
    b"at" => Worded "leave out this declaration, and use the address itself (LD %IX0.0, ST %QX0.0); or leave out AT and its address, and copy inputs to variables on the first lines, and variables to outputs on the last";
    b"var_global var_external" => Worded "declare the variable in VAR of the PROGRAM, and pass it to blocks as an input or output";
    b"var_in_out" => Worded "declare a VAR_INPUT and a VAR_OUTPUT, and name the variable at both in the CAL; an input cannot be written: copy it to the output first";
    b"var_temp" => Worded "declare the variable in VAR, and store to it before you load it";
    b"constant" => Lasting says "the word `CONSTANT` before this name is not supported", "write only VAR, or write the number at each place that uses it";
    b"retain" => Lasting says "the word `RETAIN` before this name is not supported", "write only VAR: a variable keeps its value from scan to scan, and none keeps it over a power failure";
    b"persistent" => Lasting says "the word `PERSISTENT` before this name is not supported", "write only VAR: a variable keeps its value from scan to scan, and none keeps it over a power failure";
};

/// Words in which a program is bound to a controller, and operators of STL (AWL) that are written otherwise here.
const FRAMES: [Row; 2] = rows! {
    b"configuration end_configuration resource end_resource task with" => Configuration "";
    b"a an o on u un x xn l t" => StatementList "";
};

/// Words with which other tools begin a unit.
pub(crate) const UNITS: [Row; 3] = rows! {
    b"type end_type struct end_struct" => Worded says "is not supported", "delete TYPE .. END_TYPE: values are BOOL, DINT or TIME; for an enumeration use a DINT with 0, 1, 2, for a structure one variable for each part";
    b";" => Worded "delete this `;`: no unit ends with one, and a comment is (* .. *)";
    b"organization_block function_block_end data_block begin network" => Worded "this looks like Siemens STL (AWL): write PROGRAM P in place of ORGANIZATION_BLOCK and BEGIN, and END_PROGRAM at the end";
};

/// Words in the place of an operator, with what to write for each: the inputs of standard blocks, which the standard also writes as
/// operators, and operators of other tools and languages. Without these a name that is spelled almost as one of them, and does
/// something else, would be suggested.
pub(crate) const OPERATORS: [Row; 53] = rows! {
    b"end be" => Worded "a PROGRAM ends with END_PROGRAM, a FUNCTION_BLOCK with END_FUNCTION_BLOCK: if that is below, delete this line";
    b"cd" => DownCounter "";
    b"network title begin nop bld rem" => Worded "leave this out, or make it a comment, such as (* NETWORK 1 *); a label may be alone on its line";
    b"method end_method action end_action property end_property" => Worded says "is not supported", "there are no methods and actions: make the lines a FUNCTION_BLOCK of their own above this unit, or jump over them: LD a, JMPCN skip; the lines; `skip:`";
    b"extends implements" => Worded says "is not supported", "a block has nothing after its name: declare an instance of the other block in VAR, and call it with CAL";
    b"cu pv in pt clk s1 r1" => Worded says "is an input of a block, not an operator", "set an input in CAL, such as CAL c(CU := a): a store alone does not call the block";
    b"ldi ldnot strn" => OtherOperator "did you mean `LDN`?";
    b"ani andi and_not andnot" => OtherOperator "did you mean `ANDN`?";
    b"adn" => OtherOperator "did you mean `ANDN`, or `AND`?";
    b"ori or_not ornot" => OtherOperator "did you mean `ORN`?";
    b"nand" => OtherOperator "write AND and its operand, and NOT on the next line";
    b"nor" => OtherOperator "write OR and its operand, and NOT on the next line";
    b"xnor" => OtherOperator "write XOR and its operand, and NOT on the next line";
    b"jmpn jcn spbn" => OtherOperator "did you mean `JMPCN`?";
    b"jc spb" => OtherOperator "did you mean `JMPC`?";
    b"ju spa goto" => OtherOperator "did you mean `JMP`?";
    b"retn" => OtherOperator "did you mean `RETCN`?";
    b"caln" => OtherOperator "did you mean `CALCN`?";
    b"uc" => OtherOperator "did you mean `CAL`?";
    b"cc" => OtherOperator "did you mean `CALC`?";
    b"set otl" => OtherOperator "did you mean `S`? It needs an operand; for SET alone write LD TRUE";
    b"rst res otu" => OtherOperator "did you mean `R`, of a BOOL? A CTU is reset in its call, such as CAL c(CU := a, R := b); a number is set to 0 by LD 0 and ST";
    b"clr" => OtherOperator "write LD FALSE";
    b"sn rn" => OtherOperator "S and R have no N: negate the result with NOT on the line before";
    b"out ote" => OtherOperator "did you mean `ST`, to a BOOL? A timer or counter is a block: declare t : TON; or c : CTU; in VAR, and write CAL t(IN := a, PT := T#1s) or CAL c(CU := a, R := b, PV := 10)";
    b"mov" => OtherOperator "write LD and the value, and on the next line ST and where it goes; on a condition write JMPCN skip above them, and `skip:` goes on with an LD";
    b"gtn gen eqn nen ltn" => OtherOperator "comparisons have no N: write the comparison without it, and NOT on the next line";
    b"gte geq" => OtherOperator "did you mean `GE`?";
    b"les lss" => OtherOperator "did you mean `LT`?";
    b"lte leq" => OtherOperator "did you mean `LE`?";
    b"neq nq" => OtherOperator "did you mean `NE`?";
    b"minus" => OtherOperator "did you mean `SUB`?";
    b"plus" => OtherOperator "did you mean `ADD`?";
    b"str" => OtherOperator "did you mean `LD`?";
    b"cmp" => OtherOperator "to compare n with 5 write LD n, and on the next line GT 5 (or GE, EQ, NE, LE, LT)";
    b"var_in var_out var_stat var_inst" => OtherOperator "declarations are between VAR_INPUT, VAR_OUTPUT or VAR and END_VAR";
    b"inc dec" => OtherOperator "for INC n write LD n, ADD 1, ST n, and for DEC n SUB 1 in their middle; on a condition write JMPCN skip above them, and `skip:` goes on with an LD";
    b"bea beu" => OtherOperator "did you mean `RET`?";
    b"return" => OtherOperator "RET ends the body always, RETC if the result is TRUE, RETCN if it is FALSE";
    b"beb bec" => OtherOperator "did you mean `RETC`?";
    b"cpl inv" => OtherOperator "did you mean `NOT`?";
    b"mps" => OtherOperator "write ST and a BOOL of your own here, and load that in place of the MRD and MPP below";
    b"mrd mpp" => OtherOperator "write LD and the BOOL to which the result is stored in place of the MPS above";
    b"invi invd" => OtherOperator "the bits of a number n all turned are LD -1, and on the next line SUB n";
    b"mc mcr il ilc" => OtherOperator "there is no master control: ST the condition to a BOOL of your own above, and AND that to each result before its ST; JMPCN would leave the outputs as they are";
    b"keep" => OtherOperator "a latch is a block: declare l : RS; in VAR, and write CAL l(S := a, R1 := b, Q1 => c): the reset wins";
    b"anb andld" => OtherOperator "write AND( alone on a line above the LD or LDN that begins the block, and `)` in place of this line";
    b"orb orld" => OtherOperator "write OR( alone on a line above the LD or LDN that begins the block, and `)` in place of this line";
    b"ldp andp orp fp pls" => OtherOperator "an edge is found by a block: declare e : R_TRIG; in VAR, and write CAL e(CLK := a); e.Q is TRUE for one scan";
    b"ldf andf orf fn plf" => OtherOperator "for a falling edge of a, declare was and f as BOOL, and write LDN a, AND was, ST f; LD a, ST was: f is TRUE for one scan";
    b"stc stcn ldc ldcn sc scn rc rcn" => OtherOperator "only JMP, CAL and RET have a C: for others write JMPCN skip on the line above, and `skip:` with an LD below; S and R act only on TRUE";
    b"zv zr fr cnt cntr ctr" => OtherOperator "a counter is a block: declare c : CTU; in VAR, and write CAL c(CU := a, R := b, PV := 10); c.Q is its output; a CTU only counts up";
    b"se sd si sp sa sf sv ss tim" => OtherOperator "a timer is a block: declare t : TON; in VAR for an on-delay (SD, German SE), t : TOF; for an off-delay (SF, German SA) or t : TP; for a pulse that runs on when a falls (SE, German SV), and write CAL t(IN := a, PT := T#1s); t.Q is its output; for a pulse that ends when a falls (SP, German SI) take a TON, and LD a, ANDN t.Q is the output";
};

/// Types that this language does not have, and words that begin one.
pub(crate) const TYPES: [Row; 8] = rows! {
    b"int sint uint usint udint lint ulint byte word dword lword" => Worded "use DINT, the only integer type (32 bits, signed); single bits are BOOLs";
    b"real lreal" => Worded "numbers are integers: use DINT, and count in a smaller unit";
    b"timer tonr" => Worded "timers are TON, TOF and TP; none keeps its time while IN is FALSE";
    b"counter" => Worded "a counter is a CTU, which counts up";
    b"string wstring char date tod time_of_day dt date_and_time array struct pointer" => Worded "the types are BOOL, DINT and TIME: there are no strings, dates, arrays and structures";
    b"f_trig" => Worded "for a falling edge call R_TRIG with the negated input: LDN a, then ST b, then CAL e(CLK := b)";
    b"ctd" => DownCounter "";
    b"ctud" => Worded "count in n : DINT, with up and down as R_TRIG: CAL up(CLK := a), CAL down(CLK := b); LD up.Q, JMPCN next; LD n, ADD 1, ST n; `next:` LD down.Q, JMPCN skip; LD n, SUB 1, ST n; `skip:` LD n, GE 10 is QU; LD n, LE 0 is QD; LD 0, ST n resets";
};

/// The mistake that a word is by one of these rows.
pub(crate) fn row_of(rows: &[Row], word: &[u8]) -> Option<Mistake> {
    let (_, mistake) = rows.iter().find(|(words, _)| is_among(words, word))?;
    Some(*mistake)
}

/// Whether a word has a part, in letters of either case.
fn has_part(word: &[u8], part: &[u8]) -> bool {
    word.windows(part.len().max(1))
        .any(|bytes| bytes.eq_ignore_ascii_case(part))
}

/// A word of a type, `_TO_` and a type, if it is one; between numbers nothing is to convert.
fn mistaken_conversion(word: &[u8]) -> Option<Mistake> {
    if !has_part(word, b"_to_") {
        return None;
    }
    let mut others = "date ring char bcd_ _bcd".split(' ');
    mistake_among! {
        word;
        _ if has_part(word, b"bool") => Function "a number gives a BOOL by a comparison, such as NE 0; for 1 or 0 of a BOOL a, with k : DINT, write LD 0, ST k; LD a, JMPCN skip; LD 1, ST k; `skip:` LD k";
        _ if has_part(word, b"_to_time") => Function "a number cannot be converted to a TIME: write a duration, such as LD T#500ms";
        _ if has_part(word, b"time") => Conversion "";
        _ if others.any(|other| has_part(word, other.as_bytes())) => Function "the types are BOOL, DINT and TIME: there are no strings, dates and BCD numbers to convert";
        _ if !word.is_empty() => Function "leave this line out: every number is a DINT, so there are no conversions";
    }
}

/// A standard function, a conversion, or a block that is left out; nothing if a word is none.
pub(crate) fn mistaken_function(word: &[u8]) -> Option<Mistake> {
    row_of(&FUNCTIONS, word)
        .or(row_of(&TYPES, word).filter(|_| is_among(b"f_trig ctd ctud", word)))
        .or(mistaken_conversion(word))
}

/// A word of the standard that this language leaves out.
pub(crate) fn left_out(word: &[u8]) -> Mistake {
    row_of(&LEFT_OUT, word).unwrap_or(Mistake::of(Case::LeftOut))
}

/// A word with which no unit begins, or one in the place of an operator that is no function: by these rows, or the case that is left.
pub(crate) fn mistaken_word(rows: &[Row], word: &[u8], other: Case) -> Mistake {
    match row_of(rows, word).or(row_of(&FRAMES, word)) {
        Some(mistake) => mistake,
        None if matches!(keyword_named(word), Some(Keyword::Kept)) => left_out(word),
        None => Mistake::of(other),
    }
}

/// The standard block that has a field of that name; nothing if none has, or if that is not sure.
pub fn block_with(field: &[u8]) -> Option<&'static str> {
    match field {
        _ if is_among(b"q et in pt", field) => Some("TON"),
        _ if is_among(b"cv cu pv", field) => Some("CTU"),
        _ if is_among(b"clk", field) => Some("R_TRIG"),
        _ if is_among(b"q1 s1", field) => Some("SR"),
        _ if is_among(b"r1", field) => Some("RS"),
        _ => None,
    }
}
