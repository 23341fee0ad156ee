use crate::refused::{RefusedText, Sentence, words};
use wc_built_in::{Keyword, keyword_named, standard_block};
use wc_diag_stops::{is_among, is_digit, last_line, without_line_ends};
use wc_diag_texts::{Case, Mistake, mistake_among};
use wc_lexer::Token;
use wc_model::{Kind, Operator, StandardBlock, StoreKind, is_word};

/// What operators do, as far as types are asked: `family_of` has those of each.
#[derive(Clone, Copy, PartialEq, Eq)]
pub(crate) enum Family {
    Negate,
    Store,
    StoreNegated,
    Set,
    Logic,
    Order,
    Equal,
    Add,
    Multiply,
    Divide,
    Condition,
    Other,
}

/// What a word does as an operator.
pub(crate) fn family_of(word: &[u8]) -> Family {
    match keyword_named(word) {
        Some(Keyword::Load(true)) => Family::Negate,
        Some(Keyword::Store(StoreKind::Result)) => Family::Store,
        Some(Keyword::Store(StoreKind::Negation)) => Family::StoreNegated,
        Some(Keyword::Store(_)) => Family::Set,
        Some(Keyword::Apply(operator)) => match operator {
            Operator::Gt | Operator::Ge | Operator::Le | Operator::Lt => Family::Order,
            Operator::Eq | Operator::Ne => Family::Equal,
            Operator::Add | Operator::Sub => Family::Add,
            Operator::Mul => Family::Multiply,
            Operator::Div | Operator::Mod => Family::Divide,
            _ => Family::Logic,
        },
        Some(Keyword::Not | Keyword::Jump(_) | Keyword::Call(_) | Keyword::Return(_)) =>
            Family::Condition,
        _ if word.first() == Some(&b'&') => Family::Logic,
        _ => Family::Other,
    }
}

/// The types that operators take, in words, if not every type is taken.
fn taken_by(family: Family) -> Option<&'static str> {
    match family {
        Family::Negate | Family::StoreNegated | Family::Set | Family::Logic | Family::Condition =>
            Some("a BOOL"),
        Family::Order | Family::Add => Some("a DINT or a TIME"),
        Family::Multiply | Family::Divide => Some("a DINT"),
        Family::Store | Family::Equal | Family::Other => None,
    }
}

/// Words for a number that other tools also take for a BOOL.
const BITS: &[u8] = b"0 1";

/// Whether the line above the last of these, blank ones apart, loads such a number.
fn follows_bit(before: &[Token<'_>]) -> bool {
    let (above, _) = before.split_at(before.len().saturating_sub(last_line(before).len()));
    match without_line_ends(above) {
        [.., operator, number] => is_word(b"LD", operator.text) && is_among(BITS, number.text),
        _ => false,
    }
}

/// What to write for an operand, a target or an operator, by the operator's family, the type of the operand and that of the result.
fn mistaken_operand(case: Case, family: Family, before: Option<Kind>) -> Option<Mistake> {
    mistake_among! {
        (case, family, before);
        (Case::Result, Family::Order, Some(_)) | (Case::Unlike(_), Family::Order, Some(Kind::Bool)) => OrderedBool "";
        (Case::Untaken(Kind::Time), Family::Negate, _) => Worded "load the time with LD; its negative is LD T#0s, then SUB and the time";
        (Case::Untaken(_), Family::Negate, _) => Worded "load the number with LD; whether it is 0 is LD n, then EQ 0, and its negative is LD 0, then SUB n";
        (Case::Untaken(_), Family::StoreNegated, _) => Worded "STN stores a negated BOOL to a BOOL, such as STN %QX0.0; for the negative of a number LD 0, SUB the number, and ST";
        (Case::Untaken(_), Family::Set, _) => Worded "declare it as BOOL; or to store a number on a condition write LD a, JMPCN skip; LD 5, ST n; `skip:` goes on with an LD";
        (Case::Untaken(_), Family::Order, _) => Worded "compare with a number or a duration, such as GE 500, and AND the BOOL on the next line";
        (Case::Result, _, Some(Kind::Bool)) | (Case::Untaken(Kind::Bool), _, _) | (Case::Unlike(_), Family::Add | Family::Multiply | Family::Divide, Some(Kind::Bool)) => CountedBool "";
        (Case::Result, Family::Multiply, Some(_)) | (Case::Unlike(_), Family::Multiply, Some(Kind::Time)) => MultipliedTime "";
        (Case::Result, Family::Divide, Some(_)) | (Case::Untaken(Kind::Time), Family::Divide, _) | (Case::Unlike(_), Family::Divide, Some(Kind::Time)) => DividedTime "";
        (Case::Untaken(_), Family::Multiply | Family::Divide, _) => Worded "a TIME cannot be multiplied: load the product, such as LD T#5s, and store it to a TIME variable; for milliseconds as a number use DINTs only, such as MUL 1000";
        (Case::Untaken(Kind::Dint), _, _) => Worded "compare the number in a parenthesis of this operator: for OR n and GE 500 write OR( n, then GE 500, then `)`";
        (Case::Untaken(Kind::Time), _, _) => Worded "compare the time in a parenthesis of this operator: for AND t.ET and GE T#1s write AND( t.ET, then GE T#1s, then `)`";
        (Case::Unlike(_), Family::Equal, Some(Kind::Bool)) => Worded "compare a BOOL with TRUE or FALSE; to compare a number or a time, load it first";
        (Case::Unlike(_), Family::Order | Family::Equal, Some(Kind::Dint)) => Worded "compare a DINT with a number, such as GE 500, and a TIME with a duration: LD t.ET, GE T#5s";
        (Case::Unlike(_), Family::Order | Family::Equal, Some(Kind::Time)) => Worded "compare a TIME with a duration, such as GE T#500ms";
        (Case::Unlike(_), Family::Add, Some(Kind::Dint)) => Worded "add a number to a DINT, such as ADD 5; a TIME cannot be converted to a number";
        (Case::Unlike(_), Family::Add, Some(Kind::Time)) => Worded "add a duration to a TIME, such as ADD T#500ms";
        (Case::Unlike(_), _, Some(Kind::Bool)) => Worded "store a BOOL to a BOOL variable or to an output bit, such as ST %QX0.0";
        (Case::Unlike(Kind::Bool), Family::Store, Some(Kind::Dint)) => Worded "store it to a DINT, such as %QD0, or compare it first, such as GE 500, to get a BOOL; a CAL leaves the result as it was: load the output that you want";
        (Case::Unlike(Kind::Bool), Family::Store, Some(Kind::Time)) => Worded "store it to a TIME, or compare it first, such as GE T#500ms, to get a BOOL";
        (Case::Unlike(_), Family::Store, Some(Kind::Time)) => StoredTimeToNumber "";
        (Case::Unlike(_), Family::Store, Some(Kind::Dint)) => Worded "a number cannot be converted to a TIME: load a duration, such as LD T#500ms, or store to a DINT";
        (Case::Result | Case::Unlike(_), _, Some(Kind::Time)) => ComparedTime "";
        (Case::Result | Case::Unlike(_), _, Some(Kind::Dint)) => ComparedNumber "";
    }
}

/// What to write if types do not match, if that needs no operator.
fn mistaken_without_operator(
    refused: &RefusedText<'_, '_>,
    before: Option<Kind>,
) -> Option<Mistake> {
    let (span, is_passed) = (refused.span, refused.span.is_passed);
    mistake_among! {
        (span.case, before, span.outer.map(|made| made.kind));
        (Case::Unpassed(_, Kind::Bool), _, _) if !is_passed => Worded "read it to a BOOL variable or to an output bit, such as Q => %QX0.0";
        (Case::Unpassed(_, Kind::Dint), _, _) if !is_passed => Worded "read it to a DINT variable or to a number, such as CV => %QD0";
        (Case::Unpassed(_, Kind::Time), _, _) if !is_passed => Worded "read it to a TIME variable, such as ET => elapsed; a TIME cannot be converted to a number";
        (Case::Instance, _, _) if refused.sets() => Worded "name one of its inputs, such as x.S1 of an SR, or set them in its CAL";
        (Case::Untaken(Kind::Dint), _, _) if is_among(BITS, refused.token()) => TruthLiteral "";
        (Case::Untaken(Kind::Dint), _, _) if family_of(refused.operator()) == Family::Logic && is_digit(refused.token().first()) => Worded "AND, OR and XOR take BOOLs, not the bits of a number: bit 3 of an n that is not negative is LD n, DIV 8, MOD 2, EQ 1, and its lowest 3 bits (AND 16#7) are MOD 8";
        (Case::Unlike(Kind::Bool) | Case::Result, _, _) if follows_bit(refused.before()) => TruthLiteral "";
        (Case::Result, Some(Kind::Dint), _) if is_word(b"NOT", refused.token()) => Worded "NOT takes a BOOL: compare the number first, such as NE 0; the negative of n is LD 0, then SUB n, and its bits all turned are LD -1, then SUB n";
        (Case::Closing, Some(Kind::Dint), Some(Kind::Bool)) => Worded "compare the number before the `)`, such as GE 500: a comparison gives a BOOL";
        (Case::Closing, Some(Kind::Time), Some(Kind::Bool)) => Worded "compare the time before the `)`, such as GE T#500ms: a comparison gives a BOOL";
    }
}

/// What to write for a store to a timer or a counter, or to its output: what its call does.
pub(crate) fn mistaken_reset(refused: &RefusedText<'_, '_>) -> Option<Mistake> {
    let block = standard_block(refused.word_at(refused.span.block)?.as_bytes());
    mistake_among! {
        block.filter(|_| refused.span.formal.is_none());
        Some(StandardBlock::Ton) => Worded "a TON runs while IN is TRUE at its call, and is reset by FALSE: LD a, ANDN reset, ST run, CAL t(IN := run, PT := T#1s)";
        Some(StandardBlock::Tof | StandardBlock::Tp) => Worded "its time ends a TOF or TP; a call with PT := T#0s ends a TP at once; LD t.Q, ANDN reset hides its Q while reset is TRUE";
        Some(StandardBlock::Sr | StandardBlock::Rs) => Worded "its call sets and resets it: CAL l(S1 := a, R := b) of an SR, CAL l(S := a, R1 := b) of an RS";
        Some(StandardBlock::Ctu) => Worded "a CTU counts, and is reset to a CV of 0, at its call: CAL c(CU := a, R := b, PV := 3)";
    }
}

/// What to write if types do not match: by the operator, the type of the operand and that of the result.
pub(crate) fn mistaken_kind(refused: &RefusedText<'_, '_>) -> Option<Mistake> {
    let span = refused.span;
    let before = span.result.map(|made| made.kind);
    let operator = match span.case {
        Case::Result => refused.token(),
        _ => refused.operator(),
    };
    let is_set = matches!(span.case, Case::Instance) && refused.sets();
    mistaken_reset(refused)
        .filter(|_| is_set)
        .or(mistaken_without_operator(refused, before))
        .or(mistaken_operand(span.case, family_of(operator), before))
}

/// The name of a type of values.
fn name_of(kind: Kind) -> &'static str {
    match kind {
        Kind::Bool => "BOOL",
        Kind::Dint => "DINT",
        Kind::Time => "TIME",
    }
}

/// An operand of another type than the result before it, or an operator that takes another one.
fn result_said(refused: &RefusedText<'_, '_>, verb: &str, wanted: &str) -> Sentence {
    let before = refused.span.result?;
    let (result, line) = (name_of(before.kind), before.line);
    Some(format!(in refused.alloc;
        "{verb} {wanted}, but the current result is a {result} since line {line}"
    ))
}

/// An operand that its operator never takes.
fn untaken_said(refused: &RefusedText<'_, '_>, kind: Kind) -> Sentence {
    let (operator, kind) = (words(refused.operator())?, name_of(kind));
    let taken = taken_by(family_of(refused.operator()))?;
    Some(format!(in refused.alloc; "is a {kind}, but {operator} takes {taken}"))
}

/// A parenthesis that ends with another type than the result before it.
fn closing_said(refused: &RefusedText<'_, '_>) -> Sentence {
    let (inside, outside) = (refused.span.result?, refused.span.outer?);
    let (ends, from) = (name_of(inside.kind), inside.line);
    let (before, line) = (name_of(outside.kind), outside.line);
    Some(format!(in refused.alloc;
        "closes with a {ends} (line {from}), but the result before its parenthesis is a {before} (line {line})"
    ))
}

/// A value for an input, or a target of an output, of another type.
fn unpassed_said(refused: &RefusedText<'_, '_>, kind: Kind, wanted: Kind) -> Sentence {
    let (span, kind, formal) = (refused.span, name_of(kind), name_of(wanted));
    let (name, block) = (refused.word_at(span.formal)?, refused.block()?);
    let what = if span.is_passed { "input" } else { "output" };
    Some(format!(in refused.alloc; "is a {kind}, but the {what} {name} of {block} is a {formal}"))
}

/// A name that a block does not have, or has otherwise.
fn name_said(refused: &RefusedText<'_, '_>, case: Case) -> Sentence {
    let block = refused.block()?;
    let is_passed = refused.span.is_passed;
    let (is, more) = match case {
        Case::OutputAssigned => ("is an output of", ", and `:=` passes an input"),
        Case::InputArrow => ("is an input of", ", and `=>` reads an output"),
        Case::NotOfBlock(_) | Case::NotOfOwnBlock if is_passed => ("is not an input of", ""),
        Case::Field if refused.is_stored() => ("is not an input of", ""),
        Case::NotOfBlock(_) | Case::NotOfOwnBlock | Case::Field => ("is not an output of", ""),
        _ => return None,
    };
    Some(format!(in refused.alloc; "{is} {block}{more}"))
}

/// What is said of a difference, if more is known than the case.
pub fn difference_said(refused: &RefusedText<'_, '_>, case: Case) -> Sentence {
    match (refused.number, refused.span.case) {
        (401 | 409, _) => name_said(refused, case),
        (402, Case::Unlike(kind)) => result_said(refused, "is a", name_of(kind)),
        (402, Case::Untaken(kind)) => untaken_said(refused, kind),
        (402, Case::Result) => result_said(refused, "needs", taken_by(family_of(refused.token()))?),
        (402, Case::Closing) => closing_said(refused),
        (402, Case::Unpassed(kind, wanted)) => unpassed_said(refused, kind, wanted),
        _ => None,
    }
}
