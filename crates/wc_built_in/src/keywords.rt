ghost use Rattle.std.specs.Prelude.{◌≡◌, map};
ghost use Rattle.wc_model.specs.Definitions.{named_in, name_of};
ghost use Rattle.wc_built_in.specs.Keywords.{keyword_row, keywords, longer_than, of_length};

use crate::keyword::Keyword;
use wc_model::{Condition, Kind, Operator, Section, StandardBlock, StoreKind, UnitKind, is_word};

// Reserved words for which others look too, in small letters.
pub const TRUE: &[u8] = b"true";

pub const FALSE: &[u8] = b"false";

pub const END_VAR: &[u8] = b"end_var";

pub const END_FUNCTION_BLOCK: &[u8] = b"end_function_block";

pub const END_PROGRAM: &[u8] = b"end_program";

/// A reserved word, in small letters, and what it represents.
pub(crate) struct KeywordRow {
    word: &'static [u8],
    keyword: Keyword,
}

/// Reserved words, each with what it represents.
macro_rules! words {
    ($($word:tt $keyword:expr;)*) => {
        &[$(KeywordRow {
            word: $word,
            keyword: $keyword,
        }),*]
    };
}

/// The reserved words of one letter.
fn words_of_one_letter() -> &'static [KeywordRow]
    ensures { map keyword_row result.now ≡ of_length 1 keywords }
{
    words! {
        b"s" Keyword::Store(StoreKind::Set);
        b"r" Keyword::Store(StoreKind::Reset);
    }
}

/// The reserved words of two letters, the most frequent first.
fn words_of_two_letters() -> &'static [KeywordRow]
    ensures { map keyword_row result.now ≡ of_length 2 keywords }
{
    words! {
        b"ld" Keyword::Load(false);
        b"st" Keyword::Store(StoreKind::Result);
        b"or" Keyword::Apply(Operator::Or);
        b"gt" Keyword::Apply(Operator::Gt);
        b"ge" Keyword::Apply(Operator::Ge);
        b"eq" Keyword::Apply(Operator::Eq);
        b"ne" Keyword::Apply(Operator::Ne);
        b"le" Keyword::Apply(Operator::Le);
        b"lt" Keyword::Apply(Operator::Lt);
        b"sr" Keyword::Standard(StandardBlock::Sr);
        b"rs" Keyword::Standard(StandardBlock::Rs);
        b"tp" Keyword::Standard(StandardBlock::Tp);
        b"at" Keyword::Kept;
    }
}

/// The reserved words of three letters, the most frequent first.
fn words_of_three_letters() -> &'static [KeywordRow]
    ensures { map keyword_row result.now ≡ of_length 3 keywords }
{
    words! {
        b"and" Keyword::Apply(Operator::And);
        b"orn" Keyword::Apply(Operator::Orn);
        b"xor" Keyword::Apply(Operator::Xor);
        b"ldn" Keyword::Load(true);
        b"stn" Keyword::Store(StoreKind::Negation);
        b"not" Keyword::Not;
        b"add" Keyword::Apply(Operator::Add);
        b"sub" Keyword::Apply(Operator::Sub);
        b"mul" Keyword::Apply(Operator::Mul);
        b"div" Keyword::Apply(Operator::Div);
        b"mod" Keyword::Apply(Operator::Mod);
        b"jmp" Keyword::Jump(Condition::Always);
        b"cal" Keyword::Call(Condition::Always);
        b"ret" Keyword::Return(Condition::Always);
        b"var" Keyword::SectionStart(Section::Own);
        b"ton" Keyword::Standard(StandardBlock::Ton);
        b"tof" Keyword::Standard(StandardBlock::Tof);
        b"ctu" Keyword::Standard(StandardBlock::Ctu);
    }
}

/// The reserved words of four letters, the most frequent first: each declaration has a type.
fn words_of_four_letters() -> &'static [KeywordRow]
    ensures { map keyword_row result.now ≡ of_length 4 keywords }
{
    words! {
        b"dint" Keyword::Elementary(Kind::Dint);
        b"bool" Keyword::Elementary(Kind::Bool);
        b"time" Keyword::Elementary(Kind::Time);
        b"andn" Keyword::Apply(Operator::Andn);
        b"xorn" Keyword::Apply(Operator::Xorn);
        b"jmpc" Keyword::Jump(Condition::IfTrue);
        b"calc" Keyword::Call(Condition::IfTrue);
        b"retc" Keyword::Return(Condition::IfTrue);
        TRUE Keyword::Truth(true);
    }
}

/// The reserved words of five letters.
fn words_of_five_letters() -> &'static [KeywordRow]
    ensures { map keyword_row result.now ≡ of_length 5 keywords }
{
    words! {
        b"jmpcn" Keyword::Jump(Condition::IfFalse);
        b"calcn" Keyword::Call(Condition::IfFalse);
        b"retcn" Keyword::Return(Condition::IfFalse);
        FALSE Keyword::Truth(false);
    }
}

/// The reserved words of more than five letters.
fn longer_words() -> &'static [KeywordRow]
    ensures { map keyword_row result.now ≡ longer_than 5 keywords }
{
    words! {
        END_VAR Keyword::SectionEnd;
        b"var_input" Keyword::SectionStart(Section::Input);
        b"var_output" Keyword::SectionStart(Section::Output);
        b"function_block" Keyword::UnitStart(UnitKind::FunctionBlock);
        END_FUNCTION_BLOCK Keyword::UnitEnd(UnitKind::FunctionBlock);
        b"program" Keyword::UnitStart(UnitKind::Program);
        END_PROGRAM Keyword::UnitEnd(UnitKind::Program);
        b"r_trig" Keyword::Standard(StandardBlock::RTrig);
        b"function" Keyword::Kept;
        b"end_function" Keyword::Kept;
        b"var_in_out" Keyword::Kept;
        b"var_global" Keyword::Kept;
        b"var_external" Keyword::Kept;
        b"var_temp" Keyword::Kept;
        b"constant" Keyword::Kept;
        b"retain" Keyword::Kept;
    }
}

/// The reserved words among which those of that number of letters are.
fn words_of_length(letters: usize) -> &'static [KeywordRow]
    ensures { of_length letters (map keyword_row result.now) ≡ of_length letters keywords }
{
    match letters {
        1 => words_of_one_letter(),
        2 => words_of_two_letters(),
        3 => words_of_three_letters(),
        4 => words_of_four_letters(),
        5 => words_of_five_letters(),
        _ => longer_words(),
    }
}

/// The first of these that the text is.
fn keyword_in(rows: &[KeywordRow], text: &[u8]) -> Option<Keyword>
    ensures { result ≡ named_in (map keyword_row rows.now) (name_of text.now) }
{
    for row in rows {
        if is_word(row.word, text) {
            return Some(row.keyword);
        }
    }
    None
}

/// What a text represents, if it is a reserved word. Letter case is not significant.
pub fn keyword_named(text: &[u8]) -> Option<Keyword>
    ensures { result ≡ named_in keywords (name_of text.now) }
{
    keyword_in(words_of_length(text.len()), text)
}
