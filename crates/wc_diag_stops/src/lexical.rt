use crate::around::{is_shape, last_line, operator_on, text_of, without_line_ends};
use crate::words::{first_word, following, is_among};
use wc_built_in::{Keyword, keyword_named};
use wc_diag_texts::{Case, Mistake, mistake_among};
use wc_lexer::{Shape, Token};

/// Whether a byte is a digit.
pub fn is_digit(byte: Option<&u8>) -> bool {
    matches!(byte, Some(b'0'..=b'9'))
}

/// Two underscores in a row.
fn has_double_underscore(text: &[u8]) -> bool {
    text.windows(2).any(|pair| pair.starts_with(b"__"))
}

/// What is wrong with an identifier.
fn case_of_word(text: &[u8]) -> Case {
    match text {
        _ if has_double_underscore(text) => Case::DoubleUnderscore,
        [.., b'_'] => Case::LastUnderscore,
        _ => Case::TooLong,
    }
}

/// A sign, if any, and digits with single underscores between them.
fn is_decimal(text: &[u8]) -> bool {
    let digits = match text {
        [b'+' | b'-', digits @ ..] => digits,
        _ => text,
    };
    digits.iter().all(|byte| matches!(byte, b'0'..=b'9' | b'_'))
        && !has_double_underscore(digits)
        && digits.last() != Some(&b'_')
}

/// Digits and a unit of time.
pub fn is_bare_duration(text: &[u8]) -> bool {
    let digits = text
        .iter()
        .take_while(|byte| matches!(byte, b'0'..=b'9' | b'.' | b'_'))
        .count();
    digits > 0 && is_among(b"ms s m h d", following(text, digits))
}

/// What is wrong with a number or a typed literal.
fn case_of_number(text: &[u8]) -> Case {
    match text {
        [_] => Case::SignAlone,
        _ if is_bare_duration(text) => Case::NoNumber,
        _ if text.contains(&b'#') => Case::WithBase,
        _ if text.contains(&b'.') => Case::WithPoint,
        _ if is_decimal(text) => Case::OutOfRange,
        _ => Case::NoNumber,
    }
}

/// A byte order mark, as UTF-8 has it.
pub const BYTE_ORDER_MARK: &[u8] = b"\xef\xbb\xbf";

/// In which way a slice is not a token; `text` goes on from its start.
pub fn case_of_lexeme(number: u16, text: &[u8], bytes_at: &[u8]) -> Case {
    match (number, bytes_at.first()) {
        (101, _) if text.starts_with(BYTE_ORDER_MARK) => Case::ByteOrderMark,
        (101, _) if text.starts_with(b"\xff\xfe") || text.starts_with(b"\xfe\xff") => Case::Utf16,
        (101, Some(byte)) => Case::Byte(*byte),
        (104, _) => case_of_word(bytes_at),
        (105, _) => case_of_number(bytes_at),
        (101 | 106, _) => Case::Plain,
        _ => Case::Unknown,
    }
}

/// The last of these tokens, if a place is right after it; no bytes, if it is not.
pub fn text_before<'a>(before: &[Token<'a>], start: usize) -> &'a [u8] {
    match before.last() {
        Some(token) if token.text.len().saturating_add(token.start as usize) == start => token.text,
        _ => b"",
    }
}

/// The statement of Structured Text that a word begins or ends, if it is one.
pub fn mistaken_statement(word: &[u8]) -> Option<Mistake> {
    mistake_among! {
        word;
        _ if is_among(b"if elsif else end_if", word) => Worded "this looks like Structured Text: for IF a write LD a, JMPCN skip; `skip:` is the END_IF; with an ELSE, JMP done and `skip:` are the ELSE, and `done:` the END_IF";
        _ if is_among(b"for end_for while end_while repeat until", word) => Loop "this looks like Structured Text: there are no loops; write the lines once for each pass, or do one pass in each scan: LD n, LT 10, JMPCN done; the lines; LD n, ADD 1, ST n; `done:` goes on with an LD";
        _ if is_among(b"case end_case", word) => Worded "this looks like Structured Text: for each value write LD mode, EQ 1, JMPCN next1, its lines, JMP done; `next1:` begins the next value or ELSE; `done:` replaces END_CASE";
    }
}

/// Whether a line calls an instance, or has an item of a call's list alone.
fn is_of_call(line: &[Token<'_>]) -> bool {
    match keyword_named(operator_on(line)) {
        Some(word) => matches!(word, Keyword::Call(_)),
        None => line.len() == 1,
    }
}

/// Whether the last item of a list, or of a line, has a `:=`.
fn is_given(line: &[Token<'_>]) -> bool {
    line.iter()
        .rev()
        .take_while(|token| !is_among(b", ( ;", token.text))
        .any(|token| matches!(token.shape, Shape::Assign))
}

/// A `=`, `<` or `>` in place of something else, by the tokens before it.
fn mistaken_sign(tokens: &[Token<'_>], byte: u8) -> Option<Mistake> {
    let before = last_line(tokens);
    let has_colon = before.iter().any(|token| token.shape == Shape::Colon);
    mistake_among! {
        (mistaken_statement(text_of(before.first())), byte);
        (Some(Mistake { case: Case::Loop, .. }), _) => Worded "this looks like Structured Text: there are no loops; do one pass of the loop in each scan: LD n, LT 10, JMPCN done; its lines; LD n, ADD 1, ST n; `done:` goes on with an LD";
        (Some(_), b'=') => Worded "this looks like Structured Text: for IF a = 5 write LD a, EQ 5, JMPCN skip; `skip:` is the END_IF";
        (Some(_), _) => Worded "this looks like Structured Text: for IF w >= 1000 write LD w, GE 1000, JMPCN skip; `skip:` is the END_IF";
        _ if before.is_empty() => Worded says "is not an operator", "to compare write GT, GE, EQ, NE, LE or LT and the operand, such as GE 5000; in Siemens STL (AWL) `=` is ST, ==I EQ, <>I NE, >I GT, <I LT, >=I GE and <=I LE, each comparison with its operand in place of the L before it: L 5 and ==I together are EQ 5; U or O is LD at the start and after each `=`, S or R, else AND or OR";
        _ if is_given(before) => Worded "after `:=` comes one value: in place of c := a > b write LD a, GT b, ST c, each on a line of its own; in a call pass c then";
        (None, b'=') if before.len() > 1 && is_among(b"s r", text_of(before.last())) => Worded "for a S= b write LD b, and on the next line S a; for a R= b LD b, and R a";
        (None, b'=') if is_of_call(before) && before.len() > 1 => Worded "an input is passed with `:=`, such as IN := a";
        (None, b'=') if has_colon => Worded "an initial value is written with `:=`, such as a : DINT := 5;";
        (None, b'=') => Worded "to store write ST, to compare EQ, NE, GT, GE, LT or LE; a call has `:=`, and a declaration is a : DINT := 5;";
        _ if is_of_call(before) => Worded "an output is read with =>, such as Q => a";
        (None, b'>') => Worded "to compare write GT or GE";
        (None, b'<') => Worded "to compare write LT, LE or NE";
    }
}

/// A quotation mark at a place, by the tokens before it and what begins with it.
fn mistaken_quote(before: &[Token<'_>], start: usize, rest: &[u8]) -> Option<Mistake> {
    let name = first_word(following(rest, 1));
    let is_closed = following(rest, name.len().saturating_add(1)).starts_with(b"\"");
    mistake_among! {
        rest.first();
        Some(b'\'') if is_digit(text_before(before, start).last()) && is_digit(rest.get(1)) => Worded "write the digits together, or with underscores, such as 1_000";
        Some(b'"') if is_closed => Worded "write a name without quotation marks, such as LD start; there are no strings";
        _ if is_duration(following(rest, 1)) => Worded "write a duration without quotation marks, such as T#1s";
        _ if last_line(before).len() != 1 && !is_of_call(last_line(before)) && !is_given(last_line(before)) => Worded "there are no strings; a comment is (* .. *)";
        Some(_) => Worded "this language has no strings: use a DINT with a number for each text, such as 1";
    }
}

/// Whether a text begins a duration.
fn is_duration(text: &[u8]) -> bool {
    text.starts_with(b"T#") || text.starts_with(b"t#")
}

/// A byte of which this language has none, by the tokens before it on its line and what begins with it.
fn foreign_byte(before: &[Token<'_>], rest: &[u8]) -> Option<Mistake> {
    mistake_among! {
        rest;
        [b'[', b'A'..=b'Z' | b'a'..=b'z', ..] if is_of_call(before) && before.len() == 2 => Worded "the list of a call is in parentheses, such as CAL t(IN := a)";
        [b'[', ..] if is_operator(text_of(before.last())) => Worded "a parenthesis is ( and ), such as AND( a; an operand alone has none";
        [b'[' | b']', ..] => Worded "this language has no arrays: declare one variable for each element, such as a0, a1";
        [b'{' | b'}', ..] => Worded "delete it: this language has no pragmas; a comment is (* .. *)";
        [b'/', b'/', ..] => Worded "a comment is (* .. *)";
        [b'*', ..] if before.iter().any(|token| is_among(b"at", token.text)) => Worded "leave out AT, and use a whole address in the lines of the PROGRAM, such as LD %IX0.0 or ST %QX0.0";
        [b'*' | b'/', ..] if is_given(before) => Worded "after `:=` comes one value: in place of c := a * b write LD a, MUL b, ST c, each on a line of its own; in a call pass c then; an initial value is the product itself";
        [b'*', ..] if is_duration(text_of(before.last())) => Worded "a TIME cannot be multiplied: write the product, such as T#15s";
        [b'/', ..] if is_operator(text_of(before.last())) => Worded "to negate an operand write ANDN, ORN, XORN, LDN or STN";
        [b'/', ..] => Worded "to divide write DIV; a comment is (* .. *)";
        [b'*', ..] => Worded "to multiply write MUL; a comment is (* .. *)";
        [b'#', b'A'..=b'Z' | b'a'..=b'z' | b'_', ..] => Worded "write the name without the #; a # belongs to a literal, such as 16#FF or T#5s";
        [b'#', ..] => Worded "write a decimal number alone, such as 500 for #500; a # belongs to a literal, such as 16#FF or T#5s";
        [b'@', b'A'..=b'Z' | b'a'..=b'z', ..] => Worded "no operator has an @: to do lines once at a rising edge declare e : R_TRIG in VAR, and write CAL e(CLK := a); LD e.Q, JMPCN skip; the lines; `skip:` goes on with an LD";
        [b'\r', ..] => Worded "save the file with line ends of Windows (CR LF) or Unix (LF)";
        [0, ..] => Worded "save the text as ASCII, or as UTF-8 without a byte order mark";
        [0xc2, 0xa0, ..] => NoBreakSpace says "a no-break space (U+00A0) is not allowed here", "write a space in its place";
        [0xe2, 0x89, 0xa0 | 0xa4 | 0xa5, ..] => Worded "to compare write GT, GE, EQ, NE, LE or LT";
        [0xe2, 0x80, 0x90..=0x95, ..] | [0xe2, 0x88, 0x92, ..] => Worded "a minus sign is that of the keyboard, such as -5; comments may have any";
        [128..=255, ..] => Worded "names have the letters A to Z and a to z, digits and underscores; comments may have any";
    }
}

/// A mistake of a byte that is not allowed at a place: these tokens are before it, and `rest` begins with it.
pub fn mistaken_byte(before: &[Token<'_>], at: usize, rest: &[u8], case: Case) -> Option<Mistake> {
    let line = last_line(before);
    match case {
        Case::Byte(_) if is_shape(line.first(), Shape::Semicolon) => mistake_among! {
            rest;
            [_, ..] => Worded "a line that begins with `;` is no comment: a comment is (* .. *)";
        },
        Case::Byte(byte @ (b'=' | b'<' | b'>')) => mistaken_sign(before, byte),
        Case::Byte(b'\'' | b'"') => mistaken_quote(before, at, rest),
        Case::Byte(_) => foreign_byte(line, rest),
        _ => None,
    }
}

/// A mistake in a duration; `rest` begins after it.
pub fn mistaken_duration(token: &[u8], rest: &[u8]) -> Option<Mistake> {
    mistake_among! {
        token.last();
        _ if rest.starts_with(b",") && is_digit(rest.get(1)) => Worded says "has a comma in place of a decimal point", "write a decimal point instead of the comma, such as T#1.5s";
        Some(b'0'..=b'9' | b'.' | b'_') => Worded says "is a duration without a unit", "a duration has a unit right after each number, without a space, such as T#1s, T#500ms or T#1m30s";
        Some(b'#') => Worded says "is a duration without a number", "write the number right after T#, without a space, such as T#5s";
    }
}

/// Whether a token is a word that is not reserved.
fn is_name(text: &[u8]) -> bool {
    matches!(text.first(), Some(b'A'..=b'Z' | b'a'..=b'z')) && keyword_named(text).is_none()
}

/// A mistake in a number at a place, by the tokens before it; `rest` begins after it.
pub fn mistaken_number(
    tokens: &[Token<'_>],
    start: usize,
    (token, rest): (&[u8], &[u8]),
    case: Case,
) -> Option<Mistake> {
    let (before, line) = (text_of(without_line_ends(tokens).last()), last_line(tokens));
    let is_foreign_duration = is_among(b"s5t s5time ltime lt", first_word(token));
    mistake_among! {
        (case, keyword_named(operator_on(line)));
        (Case::SignAlone, Some(Keyword::Load(_) | Keyword::Apply(_) | Keyword::Store(_))) if matches!(token, [b'-']) && rest.starts_with(b">") => Worded "a field has a point, such as t.Q; to store write ST on the next line, such as ST %QX0.0";
        (Case::SignAlone, _) if matches!(token, [b'-']) && rest.starts_with(b"-") => Worded "a comment is (* .. *)";
        _ if is_duration(text_before(tokens, start)) => Worded "write a sum of durations as one, such as T#1s500ms; compute one with a variable on lines above, and store it";
        _ if is_name(text_before(tokens, start)) => SignAlone "a name has letters, digits and underscores alone, such as start_button; a sign is right before its digits";
        (Case::SignAlone, _) if token.starts_with(b"-") && rest.starts_with(b">") => Worded "an output is read with =>, such as Q => a";
        (Case::SignAlone, _) if is_given(line) => SignAlone "after `:=` comes one value: in place of c := a + b write LD a, ADD b, ST c, each on a line of its own; in a call pass c then; an initial value is the sum itself";
        (Case::SignAlone, Some(Keyword::Apply(_))) if line.len() > 1 => SignAlone "an operand is computed in a parenthesis: for GE n + 20 write GE( n, then ADD 20, then `)`";
        (Case::WithPoint, _) if token.windows(2).any(|pair| pair.starts_with(b"..")) => Worded says "is a range, and there are no ranges", "leave the range out: a DINT is -2147483648 to 2147483647";
        (Case::WithPoint, _) if is_among(b"mul div mod", before) => Worded "write a factor with whole numbers: for MUL 0.5 write MUL 1, and DIV 2 on the next line";
        (Case::WithPoint, _) if is_among(b"e a i q m", before) && token.len() < 8 => Worded says "is not a number, and not an address with the letter before it", "this looks like Siemens STL (AWL): E 0.0 is %IX0.0, A 4.0 an output such as %QX0.0; U is LD at the start and after each `=`, S or R, else AND (UN: LDN, ANDN); `=` is ST";
        (Case::WithPoint, _) if is_among(b"%ix %qx", before) && !is_digit(token.first()) => Worded "an address has no sign, such as %IX0.1";
        (Case::WithPoint, _) if is_among(b"%ix %qx", before) => Worded "write an address without a space, such as %IX0.0";
        (Case::WithPoint, _) if token.ends_with(b".0") => Worded "numbers are integers: write 10.0 as 10, and 2.0 kg as 2000, if weights have 3 decimals";
        (Case::NoNumber, _) if is_bare_duration(token) && is_duration(before) => Worded "write the units of a duration without spaces, such as T#1m30s";
        (Case::NoNumber | Case::WithBase, _) if is_foreign_duration || is_bare_duration(token) => Worded "a duration begins with T#, such as T#500ms";
        (Case::WithBase, _) if matches!(token.first(), Some(b'+' | b'-')) => Worded "a number with a base has no sign: write -16#14 as -20";
        (Case::WithBase, _) if token.starts_with(b"10#") => Worded "write a decimal number without 10#, such as 500";
        (Case::WithBase, _) if token.starts_with(b"BOOL") || token.starts_with(b"bool") => Worded says "is not a literal of this language", "a BOOL is TRUE, FALSE, BOOL#0 or BOOL#1";
        (Case::NoNumber, _) if token.iter().any(|byte| byte.is_ascii_alphabetic()) => Worded "a name begins with a letter, such as a1; a number has digits alone: write 0xFF as 16#FF, 5e3 as 5000, and 10 kg as 10000 if weights have 3 decimals";
        (Case::WithBase, _) if token.first().is_some_and(|byte| byte.is_ascii_alphabetic()) => Worded says "is not a literal of this language", "write the number without its type, such as 5";
    }
}

/// Whether a word is an operator.
pub fn is_operator(word: &[u8]) -> bool {
    match keyword_named(word) {
        Some(Keyword::Load(_) | Keyword::Store(_) | Keyword::Apply(_) | Keyword::Not) => true,
        Some(Keyword::Jump(_) | Keyword::Call(_) | Keyword::Return(_)) => true,
        _ => false,
    }
}
