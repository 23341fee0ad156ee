use crate::foreign::{OPERATORS, TYPES, UNITS, left_out, mistaken_function, mistaken_word, row_of};
use crate::refused::RefusedText;
use crate::types::{mistaken_kind, mistaken_reset};
use crate::unreached::{block_line, follows_leaving, is_unreached};
use wc_built_in::{
    Keyword, elementary_type, is_type_word, keyword_named, standard_block, variable_at,
};
use wc_diag_stops::{
    following, is_among, is_bare_duration, is_digit, is_line_end, is_near, is_operator, is_shape,
    last_line, mistaken_byte, mistaken_duration, mistaken_number, mistaken_statement, operator_on,
    text_before, text_of, without_line_ends,
};
use wc_diag_texts::{Case, Expected, Mistake, mistake_among};
use wc_lexer::{Shape, Token};
use wc_model::{Condition, Kind, StandardBlock, UnitKind, is_word};

/// A word in the place of an operator that is known, or by the token after it.
fn mistaken_start(refused: &RefusedText<'_, '_>) -> Option<Mistake> {
    let word = refused.token();
    mistake_among! {
        (keyword_named(word), refused.next().map(|token| token.shape));
        (Some(Keyword::SectionStart(_)), _) => SectionWord "";
        (Some(Keyword::SectionEnd), _) => Worded says "ends no section of declarations", "delete it if the section above is closed already; if not, write VAR above its declarations";
        (Some(Keyword::UnitStart(UnitKind::FunctionBlock)), _) if refused.is_in_program() => Worded says "begins a unit, and the one above is still open", "move this block above the PROGRAM, which is the last unit and ends with END_PROGRAM";
        (Some(Keyword::UnitStart(_)), _) if refused.is_in_program() => Worded says "begins a unit, and the one above is still open", "a file has one PROGRAM: make one of them a FUNCTION_BLOCK above the other, and call an instance with CAL";
        (Some(Keyword::UnitStart(_)), _) => Worded says "begins a unit, and the one above is still open", "close the unit above with END_FUNCTION_BLOCK";
        (Some(Keyword::UnitEnd(_)), _) => UnitEnd "";
        (_, Some(Shape::Colon | Shape::Assign)) => Assignment "";
        (_, Some(Shape::Opening)) if is_among(b"a an o on u un x xn", word) => Worded "this looks like Siemens STL (AWL): U( or A( is AND(, O( is OR(, X( is XOR(, UN( is ANDN(, ON( is ORN(, each with its first operand; at the start begin with LD and that operand, without a parenthesis";
        _ if block_line(refused.tokens, word).is_some() => InstanceCall "";
        (_, Some(Shape::Point)) => Worded "set an input of a block in its call, such as CAL t(IN := a), or by LD a, ST t.IN and then CAL t";
    }
}

/// A word in the place of an operator, which only a colon could follow.
fn mistaken_operator(refused: &RefusedText<'_, '_>) -> Mistake {
    let word = refused.token();
    if matches!(keyword_named(word), Some(Keyword::Kept)) {
        return left_out(word);
    }
    let is_opened = is_shape(refused.next(), Shape::Opening);
    let is_call = is_opened && is_above(refused, word);
    let known = mistaken_start(refused).or(mistaken_statement(word));
    let mistake = known
        .or(mistaken_function(word))
        .unwrap_or(mistaken_word(&OPERATORS, word, Case::NoOperator));
    Mistake::of(match mistake.case {
        Case::NoOperator if is_type_word(word) => Case::InstanceCall,
        Case::NoOperator | Case::OtherOperator if is_label(refused) => Case::LabelWithoutColon,
        Case::NoOperator if is_opened => Case::InstanceCall,
        Case::OtherOperator | Case::StatementList | Case::Function if is_call => Case::InstanceCall,
        _ => return mistake,
    })
}

/// Whether a line above has a word, which may then be a name.
fn is_above(refused: &RefusedText<'_, '_>, word: &[u8]) -> bool {
    let mut tokens = refused.before().iter();
    tokens.any(|token| token.line < refused.line() && is_word(token.text, word))
}

/// Whether a word may be a label: a jump above leads to it, and nothing is after it on its line, an operator or a `;`.
fn is_label(refused: &RefusedText<'_, '_>) -> bool {
    let (label, next) = (refused.token(), refused.after().first());
    let is_end = is_shape(next, Shape::LineEnd) || is_shape(next, Shape::Semicolon);
    let is_whole = next.is_none() || is_end || is_operator(text_of(next));
    let mut pairs = refused.before().windows(2);
    is_whole
        && pairs.any(|pair| {
            is_word(label, text_of(pair.last()))
                && matches!(keyword_named(text_of(pair.first())), Some(Keyword::Jump(_)))
        })
}

/// A mistake that the words before an unexpected token show.
fn mistaken_before(refused: &RefusedText<'_, '_>) -> Option<Mistake> {
    let (before, line) = (refused.word_before(), refused.line_before());
    let (word, expected) = (keyword_named(before), refused.span.expected);
    let is_kept = matches!(word, Some(Keyword::Kept)) || is_word(b"persistent", before);
    if is_kept && matches!(expected, Expected::CommaOrColon) {
        return Some(left_out(before));
    }
    let is_opened = matches!(line, [.., opening, _] if opening.shape == Shape::Opening);
    let is_taken = matches!(line, [.., arrow, _] if arrow.shape == Shape::Arrow);
    mistake_among! {
        (expected, word);
        (Expected::LineEnd, Some(Keyword::Not)) if is_shape(refused.tokens.get(refused.index), Shape::Opening) => Worded "NOT takes no operand: write the lines of the parenthesis alone, from LD on, and NOT on the line below them";
        (Expected::LineEnd | Expected::PointOrLineEnd, Some(Keyword::Not)) if is_opened => Worded "write the `(` at the end of its line, such as AND(, and on the next line LDN and the operand";
        (Expected::LineEnd | Expected::PointOrLineEnd, Some(Keyword::Apply(_))) => Worded "an operator is no operand: write AND( n, then LE 2000, then `)`, each on a line of its own";
        (Expected::LineEnd | Expected::PointOrLineEnd, Some(Keyword::Not)) => NegatedOperand "";
        (Expected::LineEnd | Expected::PointOrLineEnd, Some(Keyword::Load(_))) if is_opened => Worded "the operand is right after the `(`, without LD, such as AND( a";
        (Expected::CommaPointOrClosing | Expected::CommaOrClosing, Some(Keyword::Not)) if is_taken => Worded "negate an output below the call: LDN t.Q, and on the next line ST a";
        (Expected::CommaPointOrClosing | Expected::CommaOrClosing, Some(Keyword::Not)) => Worded "negate the value before the call: LDN a, ST b, and pass b";
        (Expected::CommaOrColon, _) if is_among(b"end input output", before) && is_shape(refused.tokens.get(refused.index), Shape::Identifier) && !is_type_word(refused.token()) => Worded "END_VAR, VAR_INPUT and VAR_OUTPUT are one word each, with an underscore";
        (Expected::CommaOrColon, _)
            if word.is_some() && !is_type_word(before) || is_among(b"end var_end", before) || is_near(b"END_VAR", before) => OpenSection "";
    }
}

/// A mistake that an unexpected token inside a unit shows, also by the token after it.
fn mistaken_in_unit(token: &[u8], next: Option<&Token<'_>>, expected: Expected) -> Option<Mistake> {
    mistake_among! {
        (expected, token.first(), keyword_named(token));
        (Expected::Field, Some(b'0'..=b'9'), _) => NoAddress "an address begins with `%`, such as %IX0.0 for I0.0 or E0.0, %QX0.0 for Q0.0 or A0.0; there are no flags, such as M0.0: declare a BOOL in VAR; bit 3 of a DINT n that is not negative is LD n, DIV 8, MOD 2, EQ 1";
        (Expected::CommaOrColon, _, Some(Keyword::Kept)) if is_among(b"at", token) && variable_at(text_of(next)).is_none() => Worded "leave out this declaration, and use an address of this machine: %IX0.0 to %IX0.15, %IX1.0 (stable), %IX1.1 (over), %IX1.2 (under), %IX1.3 (centre of zero), %IX1.4 (tare), %IX1.5 (valid), %ID0 (gross), %ID1 (net), %ID2 (tare), %QX0.0 to %QX0.15 and %QD0 to %QD3";
        (Expected::UnitName, _, _) => Worded "write a name after the word, such as PROGRAM Main";
        (Expected::Operand, Some(b'('), _) => Worded "only AND, OR, XOR, ADD, SUB, MUL and comparisons take a parenthesis: begin with LD and its operand, and delete the `)` that belongs to this `(`";
        (Expected::LineEnd | Expected::PointOrLineEnd | Expected::OperandOrLineEnd, Some(b')'), _) => Worded "the `)` needs a line of its own";
        (Expected::FormalOrClosing, Some(b'('), _) => Worded "a call has one pair of parentheses, such as CAL t(IN := a)";
        (Expected::Formal, Some(b')'), _) => Worded "delete the comma before this `)`: a comma is only between two inputs or outputs";
        (Expected::FormalOrClosing | Expected::Formal | Expected::AssignOrArrow, _, _) => Worded "name each input of the block, such as CAL e(CLK := a) of an R_TRIG, CAL t(IN := a, PT := T#1s) of a TON";
        (Expected::OpeningOrLineEnd, Some(b'A'..=b'Z' | b'a'..=b'z' | b'%' | b','), _) => Worded "put the inputs of the call in parentheses, each with its name, such as CAL t(IN := a, PT := T#1s) of a TON";
        (Expected::CommaPointOrClosing | Expected::CommaOrClosing, Some(_), _)
            if is_shape(next, Shape::Assign) || is_shape(next, Shape::Arrow) || token.starts_with(b";") => Worded "separate the parameters with commas, such as CAL t(IN := a, PT := T#1s)";
        (Expected::CommaPointOrClosing | Expected::CommaOrClosing, Some(_), _) => Worded "an input takes a variable, an address, a field or a literal: compute and store the value before the call";
        (Expected::CommaOrColon, Some(b'+' | b'-'), _) => Worded "a name has letters, digits and underscores alone, such as valve_1";
        (Expected::TypeName, Some(b'('), _) => Worded "the types are BOOL, DINT and TIME: for an enumeration write DINT, and 0, 1, 2 in place of its names, such as EQ 1";
        (Expected::AssignOrSemicolon, Some(b'.'), _) => Worded "a type has no point: write TON for Standard.TON";
        (Expected::AssignOrSemicolon, _, _) if is_among(b"r_edge f_edge", token) => Worded "an edge is found by a block: declare a : BOOL; and e : R_TRIG; and write CAL e(CLK := a); e.Q is TRUE for one scan";
        (Expected::CommaOrColon, Some(b';'), _) => Worded "a declaration names a type, such as d, e : DINT;";
        (Expected::Semicolon, Some(b','), _) => Worded "a declaration has one initial value for all its names: for two values write two, such as x : DINT := 5; y : DINT := 7;";
        (Expected::Name | Expected::TypeName | Expected::Literal, Some(b';'), _) => Declaration "";
        (Expected::NameOrEndVar, Some(b';'), _) => Worded "delete this `;`: each declaration ends with one, and a comment is (* .. *)";
        (Expected::Literal, Some(b'('), _) => Worded "an initial value is one literal without parentheses, such as TRUE or T#5s; an instance has none: its inputs are in its CAL, such as CAL t(IN := a, PT := T#2s)";
        (Expected::Literal, _, _) => Worded "an initial value is one literal, such as TRUE, 500 or T#5s; an address is read in the lines of the PROGRAM, or passed in a CAL";
        (_, Some(b';'), _) => Worded "an instruction ends with its line, without a semicolon; a comment is (* .. *)";
        (Expected::InstructionOrLineEnd, _, Some(Keyword::UnitEnd(_))) => Worded "a label may be alone on its line: write this word on the next line";
        (Expected::InstructionOrLineEnd, _, _) if is_type_word(token) => Worded "declarations go between VAR and END_VAR, before the first instruction";
        (Expected::LineEnd | Expected::PointOrLineEnd, Some(b','), _) if is_operator(text_of(next)) => Worded "write each instruction on a line of its own, without commas";
        (Expected::LineEnd | Expected::PointOrLineEnd, Some(b','), _) => Worded "an operator has one operand, on a line of its own, and works on the current result: a + b is LD a, then ADD b; a > b is LD a, then GT b; ADD a, then ADD b adds both to the result above";
        (Expected::LineEnd | Expected::PointOrLineEnd, _, Some(Keyword::Load(_) | Keyword::Store(_) | Keyword::Jump(_) | Keyword::Call(_) | Keyword::Return(_))) => Worded "write each instruction on a line of its own";
        (Expected::LineEnd | Expected::PointOrLineEnd, Some(b'&'), _) => Worded "each operator has a line of its own, with its operand: & b on the next line";
        (Expected::LineEnd | Expected::PointOrLineEnd, _, Some(Keyword::Apply(_))) => Worded "each operator has a line of its own: AND( a, then OR b, then `)`";
        (Expected::LineEnd, Some(b'.'), _) => Worded "a name has one point at most: what a block has inside is read by its VAR_OUTPUT; there are no data blocks: declare the variable in VAR";
        (Expected::LineEnd | Expected::PointOrLineEnd, Some(b'+' | b'-'), _) => Worded "a name has no sign: write n_20 for a name n-20; to compute write LD n, and ADD 20 on the next line, for LD n + 20, and GE( n, then ADD 20, then `)` for GE n + 20";
        (Expected::LineEnd | Expected::PointOrLineEnd, Some(b'A'..=b'Z' | b'a'..=b'z' | b'%'), None) => Worded "an operator has one operand, and each instruction a line of its own";
        (Expected::Instruction | Expected::InstructionOrLineEnd, Some(b'%'), _) if is_shape(next, Shape::Assign) => Assignment "";
        (Expected::Instruction | Expected::InstructionOrLineEnd, Some(b'%'), _) => Worded "write an operator before the address, such as LD or ST";
        (Expected::NameOrEndVar | Expected::CommaOrColon | Expected::Name | Expected::TypeName | Expected::AssignOrSemicolon | Expected::Semicolon, _, word)
            if !matches!(word, Some(Keyword::Kept)) => Declaration "";
        (Expected::Instruction | Expected::InstructionOrLineEnd, Some(b'('), _) => Worded "write the `(` on the line of its CAL, such as CAL t(IN := TRUE)";
    }
}

/// A mistake that an unexpected token shows, by the token after it.
fn mistaken_token(refused: &RefusedText<'_, '_>) -> Mistake {
    let (token, expected) = (refused.token(), refused.span.expected);
    let unit = mistaken_word(&UNITS, token, Case::NoUnit);
    match (expected, mistaken_in_unit(token, refused.next(), expected)) {
        (Expected::Nothing, _) if matches!(unit.case, Case::Configuration) => unit,
        (Expected::Nothing, _) => Mistake::of(Case::AfterProgram),
        (Expected::UnitWord, _) => unit,
        (_, Some(mistake)) => mistake,
        _ if matches!(keyword_named(token), Some(Keyword::Kept)) => left_out(token),
        (Expected::InstructionOrLineEnd, None) => mistaken_operator(refused),
        _ => Mistake::of(Case::Unknown),
    }
}

/// Whether a token is a comma between two digits, without spaces.
fn is_decimal_comma(refused: &RefusedText<'_, '_>) -> bool {
    let place = refused.span.start;
    refused.token().starts_with(b",")
        && refused.after().first().is_some_and(|next| {
            is_digit(next.text.first()) && next.start as usize == place.saturating_add(1)
        })
        && is_digit(text_before(refused.before(), place).last())
}

/// A mistake in an instruction by what is before a token on its line.
fn mistaken_after(refused: &RefusedText<'_, '_>) -> Option<Mistake> {
    let (before, token) = (refused.line_before(), refused.token());
    let last = before.last();
    let is_unnamed = is_shape(last, Shape::Arrow) || is_shape(last, Shape::Assign);
    mistake_among! {
        (refused.span.expected, keyword_named(operator_on(before)), token.first());
        (Expected::Label, _, _) => Worded "a jump names a label without parentheses, which begins with a letter, such as JMPC done; `done:` begins a line below";
        (Expected::LineEnd, Some(Keyword::Jump(_)), Some(b':')) => Worded "write the label here without its colon, such as JMPC done; the line to which it leads begins with `done:`";
        (Expected::LineEnd, Some(Keyword::Return(_)), Some(b'A'..=b'Z' | b'a'..=b'z' | b'_')) => Worded "RET has no operand: for a condition write LD and the operand on the line above, and RETC alone";
        (Expected::Operand | Expected::OperandOrOpening, _, Some(b'&')) => Worded "write a number alone, such as 500 for &500";
        (Expected::OpeningOrLineEnd, _, Some(b'.')) => Worded "CAL names the instance alone, and its inputs are in the list, such as CAL t(IN := a)";
        (Expected::Operand, _, Some(b'(')) if is_unnamed => Worded "delete the parenthesis: an input or output takes one value, such as IN := a";
        (Expected::Operand, Some(Keyword::Store(_)), Some(b'(')) => Worded "a target has no parentheses, such as ST a";
        (Expected::Operand, Some(Keyword::Load(true)), Some(b'(')) => Worded "for LDN( a, then OR b, then `)` write LD a, then OR b, then NOT; LDN (a) is LDN a";
        (Expected::Operand, _, Some(b',' | b')')) if is_unnamed => Worded "leave out an input or output that is not used, such as CAL t(IN := a)";
    }
}

/// A mistake that an unexpected token shows by its line.
fn mistaken_on_line(refused: &RefusedText<'_, '_>) -> Option<Mistake> {
    let (line, before) = (refused.line_before(), text_of(refused.previous()));
    let first = keyword_named(operator_on(line));
    let begins_unit = matches!(first, Some(Keyword::UnitStart(_)));
    let is_address = before.starts_with(b"%") && !before.contains(&b'.');
    let is_unopened = !line.iter().any(|token| token.shape == Shape::Opening);
    let is_duration = before.starts_with(b"T#") || before.starts_with(b"t#");
    let follows_number = is_digit(before.first()) && keyword_named(refused.token()).is_none();
    mistake_among! {
        (refused.span.expected, refused.token().first());
        (Expected::FormalOrClosing | Expected::AssignOrArrow, _) if matches!(line, [_, name, ..] if matches!(mistaken_function(name.text), Some(Mistake { case: Case::Function, .. })) && !is_above(refused, name.text)) => Worded "CAL calls an instance that VAR declares, and there are no functions: write lines in its place, such as LD a, ST y, LT b, JMPCN done; LD b, ST y; `done:` LD y for the larger of a and b";
        (Expected::OpeningOrLineEnd, _) if is_type_word(before) || block_line(refused.tokens, before).is_some() => Worded "a call names the instance alone, without its type, such as CAL t(IN := a)";
        (Expected::OpeningOrLineEnd | Expected::LineEnd, _) if is_among(b"c cn", before) && matches!(line, [_, _]) && matches!(first, Some(Keyword::Jump(_) | Keyword::Call(_))) => Worded "an operator is one word, such as CALC or JMPCN";
        (Expected::InstructionOrLineEnd, _) if is_type_word(refused.token()) && matches!(refused.before(), [.., word, colon, _, _, _] if colon.shape == Shape::Colon && matches!(keyword_named(word.text), Some(Keyword::SectionStart(_)))) => Worded "delete the colon after the VAR, VAR_INPUT or VAR_OUTPUT above";
        (Expected::Instruction | Expected::InstructionOrLineEnd, Some(b'(')) if !begins_unit && !matches!(keyword_named(operator_on(last_line(without_line_ends(refused.before())))), Some(Keyword::Call(_))) => Worded "a parenthesis opens on the line of its operator, such as AND( a; at the start begin with LD and its operand, without a parenthesis";
        (Expected::OperandOrOpening, Some(b'\n')) if is_shape(refused.next(), Shape::Opening) => Worded "write the `(` on the line of its operator, such as AND( a";
        (Expected::OperandOrOpening, Some(b'\n')) if matches!(first, Some(Keyword::Apply(_))) => Worded "write the operand on this line, and no LD of it above: LD n, then GE 5000; to join the result of lines below write OR( and the operand of their LD, and `)` on a line of its own below them";
        (Expected::LineEnd | Expected::PointOrLineEnd, Some(b'(')) if mistaken_function(before).is_some() && !is_above(refused, before) => Worded "there are no functions: write lines in its place, such as LD a, ST y, LT b, JMPCN done; LD b, ST y; `done:` LD y for the larger of a and b";
        (Expected::Instruction, Some(b':')) if begins_unit => Worded "a unit has no type: delete this `:` and the type; what a FUNCTION_BLOCK gives is declared in VAR_OUTPUT";
        (Expected::LineEnd, Some(b'.')) if is_shape(line.last(), Shape::Closing) || keyword_named(before).is_some() => Worded "a point is only between an instance and its field: delete it, or write LD t.Q on the line below a call";
        (Expected::LineEnd, _) if is_shape(line.last(), Shape::Closing) && is_shape(refused.next(), Shape::Arrow) => Worded "outputs are in the parentheses of the call too, such as CAL t(IN := a, Q => b)";
        (Expected::LineEnd, Some(b')')) if is_shape(line.last(), Shape::Closing) && line.len() > 1 => Worded "delete this `)`: the list of the call is closed already";
        (Expected::LineEnd | Expected::PointOrLineEnd, _) if is_unopened && is_among(b"gt ge eq ne le lt", refused.token()) && matches!(first, Some(Keyword::Apply(_))) => Worded "compare in a parenthesis: AND( w, then GT 5000, then `)`, each on a line of its own";
        (Expected::LineEnd | Expected::PointOrLineEnd, _) if is_unopened && is_among(b"or orn xor xorn", operator_on(line)) && is_among(b"and andn", refused.token()) => Worded "lines are worked from top to bottom: for OR of b AND c write OR( b, then AND c, then `)`, each on a line of its own";
        (Expected::LineEnd | Expected::PointOrLineEnd, _) if is_unopened && matches!(keyword_named(refused.token()), Some(Keyword::Apply(_))) => Worded "each operator has a line of its own, with its operand: AND b, and on the next line OR c";
        (Expected::LineEnd, _) if matches!(before, [b'%']) => Worded "write an address without a space, such as %IX0.0";
        _ if is_duration && is_among(b"d h m s ms", refused.token()) => Worded "write the units of a duration without spaces, such as T#1m30s";
        (Expected::LineEnd, Some(b'0'..=b'9' | b'A'..=b'Z' | b'a'..=b'z')) if follows_number => Worded "a number is digits alone, without spaces: 5 000 is 5_000, and 5 kg is 5000 if weights have 3 decimals";
        (Expected::AssignOrSemicolon | Expected::Semicolon, _) if refused.begins_line() => Worded "the declaration above has no `;` at its end";
        (Expected::LineEnd | Expected::Semicolon, _) if is_decimal_comma(refused) && is_address && !matches!(before.get(2), Some(b'D' | b'd')) => Worded "an address has a point, such as %IX0.0";
        (Expected::LineEnd | Expected::Semicolon, _) if is_decimal_comma(refused) && matches!(before.first(), Some(b'0'..=b'9' | b'+' | b'-')) => Worded "a number has no comma: write 25,000 as 25000, and 1,5 kg as 1500, if weights have 3 decimals";
        (Expected::Instruction | Expected::InstructionOrLineEnd, Some(b'(')) if begins_unit => Worded "delete the parentheses: inputs and outputs of a FUNCTION_BLOCK are declared in VAR_INPUT and VAR_OUTPUT";
        (Expected::LineEnd | Expected::PointOrLineEnd | Expected::OperandOrLineEnd, Some(b')'))
            if !is_unopened => Worded "the `)` needs a line of its own; for one operand write no parenthesis, such as AND a";
    }
}

/// A mistake that an unexpected token shows by where it is, and else by itself.
fn mistaken_at(refused: &RefusedText<'_, '_>) -> Mistake {
    let word = left_out(refused.token());
    match (refused.span.expected, word.case) {
        (Expected::CommaOrColon, Case::Lasting) => word,
        _ => mistaken_after(refused)
            .or(mistaken_before(refused))
            .or(mistaken_on_line(refused))
            .unwrap_or(mistaken_token(refused)),
    }
}

/// An address that this machine does not have.
fn mistaken_address(address: &[u8]) -> Option<Mistake> {
    mistake_among! {
        (address.get(1), address.get(2));
        (Some(b'm' | b'M'), _) => Worded "there are no %M addresses: declare a variable in VAR; the scale gives %IX1.0 (stable) to %IX1.5, %ID0 (gross), %ID1 (net) and %ID2 (tare)";
        (_, Some(b'd' | b'D')) => Worded "numbers are %ID0 (gross), %ID1 (net), %ID2 (tare) and %QD0 to %QD3";
        (_, Some(b'b' | b'B')) => Worded "there are no bytes: use bits, such as %IX0.0 and %QX0.0, or the numbers %ID0 (gross), %ID1 (net), %ID2 (tare) and %QD0 to %QD3";
        (Some(b'q' | b'Q' | b'a' | b'A'), Some(b'w' | b'W' | b'l' | b'L')) => Worded "numbers have 32 bits: use %QD0 to %QD3";
        (_, Some(b'w' | b'W' | b'l' | b'L')) => Worded "numbers have 32 bits: use %ID0 (gross), %ID1 (net) or %ID2 (tare)";
        _ if address.starts_with(b"%") => Worded "bits are %IX0.0 to %IX0.15 (inputs, also called E), %IX1.0 (stable), %IX1.1 (over), %IX1.2 (under), %IX1.3 (centre of zero), %IX1.4 (tare), %IX1.5 (valid) and %QX0.0 to %QX0.15 (outputs, also called A): bit 0 of a second byte is %IX0.8 or %QX0.8";
    }
}

/// What cannot be written.
fn mistaken_target(refused: &RefusedText<'_, '_>) -> Option<Mistake> {
    let target = refused.token();
    mistake_among! {
        (target.first(), keyword_named(target));
        (Some(b'%'), _) if matches!(target.get(2), Some(b'd' | b'D')) => Worded "inputs are only read: store a number to an output, such as %QD0, or to a variable; a program cannot set zero or a tare";
        (Some(b'%'), _) => Worded "inputs are only read: store to an output, such as %QX0.0, or to a variable";
        (Some(b'0'..=b'9' | b'+' | b'-'), _) | (_, Some(Keyword::Truth(_))) => LiteralTarget "";
        _ if target.contains(&b'#') => LiteralTarget "";
        _ if !refused.names_one() => Worded "only inputs of a block (VAR_INPUT) are stored to: it sets its outputs and the rest itself; store to an input, or to a variable of your own";
        _ if refused.is_in_program() => Worded "declare it in VAR: nothing calls a PROGRAM and sets its inputs";
    }
}

/// Whether a unit of the text declares a name.
fn is_declared(refused: &RefusedText<'_, '_>, name: &[u8]) -> bool {
    refused.units.iter().any(|unit| unit.declarations.iter().any(|declaration| {
        let mut names = declaration.names.iter();
        names.any(|word| word.text.eq_ignore_ascii_case(name))
    }))
}

/// A name that its unit does not declare: that of another one, of a block, or a number, a timer, an area or a duration of other tools.
fn mistaken_undeclared(refused: &RefusedText<'_, '_>) -> Option<Mistake> {
    let name = refused.offending();
    let rest = following(name, 1);
    let is_number = !rest.is_empty() && rest.iter().all(|byte| byte.is_ascii_digit());
    mistake_among! {
        (name.first(), is_number);
        _ if is_declared(refused, name) => Plain "another unit declares it, and each unit sees its own variables alone: read an output of an instance, such as v.q, and pass a value to an input in the call";
        _ if refused.is_called() && refused.units.iter().any(|unit| is_word(unit.name.text, name)) => Worded "a PROGRAM is not called, and runs in every scan: delete this line, or make a FUNCTION_BLOCK of the lines to call, and call an instance";
        _ if block_line(refused.tokens, name).is_some() => Plain "a FUNCTION_BLOCK has no value: its results are stored to its VAR_OUTPUT, and read of an instance, such as v.q";
        _ if is_operator(name) => Worded "this is an operator: an operand is a variable, an address or a literal; to join two results write the second one in a parenthesis, such as AND( a, then OR b, then `)`";
        _ if is_among(b"on off high low yes no ture treu tru flase fasle fals", name) => Plain "a BOOL is TRUE or FALSE; a name is declared in VAR, VAR_INPUT or VAR_OUTPUT of this unit";
        _ if is_among(b"firstscan first_scan firstcycle first_cycle p_first_cycle p_first sm0_1 m8002 initpulse", name) => Plain "no address is TRUE in the first scan alone: declare first : BOOL := TRUE; in VAR, read that, and write LD FALSE, ST first on the last lines";
        _ if is_among(b"gross net tare stable", name) => Plain "in the PROGRAM %ID0 is the gross weight, %ID1 net, %ID2 tare, and %IX1.0 is stable; a name is declared in VAR, VAR_INPUT or VAR_OUTPUT of this unit";
        _ if matches!(name, [b'i' | b'I' | b'q' | b'Q', b'd' | b'D' | b'x' | b'X', b'0'..=b'9', ..]) => Plain "in the PROGRAM an address begins with `%`, such as %ID1, %QD0 or %IX0.1; a name is declared in VAR, VAR_INPUT or VAR_OUTPUT of this unit";
        (Some(b'k' | b'K'), true) if refused.span.formal.is_some() => Worded "write a number alone, such as 500 for K500";
        (Some(b'k' | b'K'), true) => Plain "write a number alone, such as 500 for K500";
        (Some(b't' | b'c' | b'T' | b'C'), true) => Plain "a timer or counter is an instance: declare T1 : TON; or C1 : CTU; in VAR, call it with CAL, and load T1.Q or C1.Q";
        (Some(b'a' | b'e' | b'i' | b'm' | b'q' | b'x' | b'y' | b'A' | b'E' | b'I' | b'M' | b'Q' | b'X' | b'Y'), true) => Plain "inputs are %IX0.0 to %IX0.15, outputs %QX0.0 to %QX0.15; variables are declared in VAR, VAR_INPUT and VAR_OUTPUT of this unit";
        (Some(b't' | b'T'), _) if is_bare_duration(rest) => Plain "a duration begins with T#, such as T#5s";
    }
}

/// A mistake in how a list or a unit ends, in a declaration, or in an instruction that breaks a rule on results, labels or divisors.
fn mistaken_use(refused: &RefusedText<'_, '_>) -> Option<Mistake> {
    let (token, span) = (refused.token(), refused.span);
    let word = keyword_named(token);
    let is_left = refused.number == 403
        && span.paths.is_none()
        && refused
            .label_before()
            .is_some_and(|label| follows_leaving(refused.tokens, label.line));
    let assigned = match refused.before() {
        [.., named, assign] if assign.shape == Shape::Assign => Some(elementary_type(named.text)),
        _ => None,
    };
    mistake_among! {
        refused.number;
        201 if word.is_some() && refused.begins_line() && matches!(span.expected, Expected::CommaPointOrClosing | Expected::CommaOrClosing) => Worded "close the list of the call above with `)`";
        202 if matches!(word, Some(Keyword::UnitStart(UnitKind::Program))) => Worded "close the unit with END_PROGRAM";
        202 => Worded "close the unit with END_FUNCTION_BLOCK";
        203 if refused.tokens.iter().all(is_line_end) => Worded says "the file is empty", "a file has function blocks, if any, and then one PROGRAM .. END_PROGRAM";
        203 if matches!(word, Some(Keyword::UnitStart(UnitKind::Program))) => Worded says "there is a second PROGRAM", "make one of them a FUNCTION_BLOCK above the PROGRAM, and call an instance with CAL";
        205 if is_shape(refused.next(), Shape::Colon) => Worded "a jump cannot lead into a parenthesis: delete the label, or close the parenthesis above it";
        205 if matches!(word, Some(Keyword::Jump(_) | Keyword::Return(_))) => Worded "close the parenthesis before it with a `)` on a line of its own, or move it, with an LD of its condition, above the LD that begins the expression";
        205 if matches!(word, Some(Keyword::Call(_))) => Worded "move the call, and the lines that set its inputs, above the LD that begins the expression, and read its output in the parenthesis, such as AND t.Q";
        302 if standard_block(token).is_some() || block_line(refused.tokens, token).is_some() => Worded says "is a function block, and only VAR declares instances", "declare the instance in VAR, and pass what is needed of it, such as t.Q to an input of type BOOL";
        303 if matches!(assigned, Some(Some(Kind::Bool))) => Worded says "is not an initial value of a BOOL", "a BOOL takes TRUE, FALSE, 0 or 1";
        303 if matches!(assigned, Some(Some(Kind::Dint))) => Worded says "is not an initial value of a DINT", "a DINT takes an integer, such as 500; for TRUE and FALSE declare a BOOL";
        303 if matches!(assigned, Some(Some(Kind::Time))) => Worded says "is not an initial value of a TIME", "a TIME takes a duration, such as T#500ms";
        303 if matches!(assigned, Some(None)) => Worded says "is an initial value, and an instance has none", "an instance takes no initial value: pass its inputs in CAL";
        308 if block_line(refused.tokens, token).is_some_and(|line| line > refused.line()) => BlockBelow "move the block above the unit that uses it";
        308 if block_line(refused.tokens, token).is_some() => Worded says "is this function block itself", "a block cannot contain itself: declare another block above, and use that";
        403 if matches!(word, Some(Keyword::Jump(when) | Keyword::Call(when) | Keyword::Return(when)) if when != Condition::Always) => Worded says "needs a BOOL, and there is no current result", "load the condition with LD first, or use CAL, JMP or RET without the C";
        403 if is_left => AtLabel says "the current result is undefined: the paths to this label bring different types, or no value", "make the JMP or RET above conditional (JMPC, JMPCN, RETC), jump to this label from a line above, or delete this line";
        403 if is_shape(refused.previous(), Shape::Colon) => AtLabel says "the current result is undefined: the paths to this label bring different types, or no value", "write an LD between the label and this instruction, or bring the same type on every path to the label (JMPC and JMPCN bring a BOOL); if this instruction is only for the value above the label, move it above the label";
        403 if is_unreached(refused.tokens, refused.line()) => Unreached says "there is no current result, since this line is never reached", "make the JMP or RET above conditional (JMPC, JMPCN, RETC), give this line a label to which a line above jumps, or delete it";
        406 if span.first != 0 => LabelAbove says "is the label of a line above this jump", "jumps only go forward, and the whole program runs again in each scan without one: to wait, jump ahead over the lines that wait: JMPC done; the lines; `done:`; to repeat lines write them once for each pass, or do one pass in each scan: LD n, LT 10, JMPCN done; the lines; LD n, ADD 1, ST n (n keeps its value between scans: set it to 0 only to start again); `done:` goes on with an LD";
        406 if word.is_some() => Worded "a label is not a reserved word: to leave the unit write RET, RETC or RETCN in place of the jump";
        409 if matches!(refused.span.case, Case::NotOfBlock(StandardBlock::Ctu)) && is_word(b"CD", refused.offending()) => DownCounter "";
        408 if matches!(token.first(), Some(b'A'..=b'Z' | b'a'..=b'z' | b'_' | b'%')) => Worded "there is no division by a variable, and DIV and MOD take no parenthesis: divide by a literal other than 0, such as DIV 10; to compare a quotient, MUL the other side instead; for a quotient of positive numbers write LD a, ST rest; LD 0, ST q in the scan that starts it alone, and in each scan LD b, LE 0, JMPC done; LD rest, LT b, JMPC done; LD rest, SUB b, ST rest; LD q, ADD 1, ST q; `done:` goes on with an LD: q is the quotient once rest is below b";
    }
}

/// Which mistake a refusal refers to that breaks a rule in that way, with its words.
pub fn mistake_at(refused: &RefusedText<'_, '_>, case: Case) -> Mistake {
    let (token, before) = (refused.token(), refused.before());
    let rest = following(refused.lexeme, token.len());
    let called = mistaken_function(token).map(|found| found.with_words(201));
    let called = called.filter(|_| refused.is_called());
    let found = match (refused.number, refused.span.expected) {
        (101, _) => mistaken_byte(before, refused.span.start, refused.lexeme, case),
        (105, _) => mistaken_number(before, refused.span.start, (token, rest), case),
        (106, _) => mistaken_duration(token, rest),
        (201, Expected::LabelColon) => Some(mistaken_operator(refused)),
        (201, _) => mistaken_use(refused).or(Some(mistaken_at(refused))),
        (302, _) => mistaken_use(refused).or(row_of(&TYPES, token)),
        (304, _) => mistaken_address(token),
        (402, _) => mistaken_kind(refused),
        (401, _) if matches!(case, Case::Plain) => mistaken_undeclared(refused).or(called),
        (404, _) => mistaken_reset(refused).or(mistaken_target(refused)),
        _ => mistaken_use(refused),
    };
    found
        .unwrap_or(Mistake::of(case))
        .with_words(refused.number)
}
