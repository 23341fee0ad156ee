ghost use Rattle.std.specs.Prelude.{◌≡◌, nat_lt};
ghost use Rattle.std.specs.List.{position_or_len};
ghost use Rattle.wc_diag_places.specs.LaterSpans.{unit_number};
ghost use Rattle.wc_model.specs.Language.Views.{text_view};

use crate::operand_tokens::is_listed;
use wc_diag_stops::Slice;
use wc_diag_texts::Case;
use wc_lexer::Token;
use wc_model::{MOST_VARIABLES, Source, Unit, Word};

/// Where a word is, if it is this name and is before a place.
fn place_before(word: &Word<'_>, name: &[u8], place: u32) -> Option<u32> {
    let is_before = word.line < place && word.text.eq_ignore_ascii_case(name);
    is_before.then_some(word.line)
}

/// The number of units that begin up to a place.
fn units_until(units: &[Unit<'_>], place: u32) -> usize
    ensures { result ≡ position_or_len (λ unit. nat_lt place unit.line) units.now }
{
    units.iter().take_while(|unit| unit.line <= place).count()
}

/// The number of the unit that a place is in.
pub(crate) fn unit_at(source: &Source<'_>, place: u32) -> usize
    ensures { result ≡ unit_number (text_view source.now) place }
{
    units_until(&source.units, place).saturating_sub(1)
}

/// The number of variables of a unit up to a place.
fn variables_until(unit: &Unit<'_>, place: u32) -> usize {
    let mut count = 0_usize;
    for declaration in &unit.declarations {
        let names = declaration.names.iter();
        count = count.saturating_add(names.filter(|word| word.line <= place).count());
    }
    count
}

/// In which way a unit has too much at a name (306): the rule on variables or on places is broken.
pub(crate) fn case_of_capacity(source: &Source<'_>, place: u32) -> Case {
    match source.units.get(unit_at(source, place)) {
        Some(unit) if variables_until(unit, place) > MOST_VARIABLES => Case::Variable,
        _ => Case::Plain,
    }
}

/// Where the first of two is that have the name at a place: units or variables (301), labels (407), the label of a jump (406).
pub(crate) fn first_of_two(source: &Source<'_>, number: u16, name: &[u8], at: u32) -> Option<u32> {
    let unit = source.units.get(unit_at(source, at))?;
    let (mut units, mut lines) = (source.units.iter(), unit.body.iter());
    let mut declarations = unit.declarations.iter();
    match number {
        301 if unit.name.line == at => { units.find_map(|unit| place_before(&unit.name, name, at)) }
        301 => declarations.find_map(|declaration| {
            let mut names = declaration.names.iter();
            names.find_map(|word| place_before(word, name, at))
        }),
        406 | 407 => lines.find_map(|line| place_before(line.label.as_ref()?, name, at)),
        _ => None,
    }
}

/// The type of the instance to which a slice of an instruction refers, that of a field or of the call, if its declaration names
/// it; each line of the tree is a place.
pub(crate) fn block_in<'a>(
    source: &Source<'a>,
    unit: usize,
    tokens: &[Token<'a>],
    operand: &[Token<'a>],
    case: Case,
) -> Option<Slice> {
    let instance = match case {
        Case::Field | Case::Instance => *operand.first()?,
        _ if is_listed(tokens) => *tokens.get(1)?,
        _ if operand.len() > 1 => *operand.first()?,
        _ => return None,
    };
    let mut declarations = source.units.get(unit)?.declarations.iter();
    let declaration = declarations.find(|declaration| {
        let mut names = declaration.names.iter();
        names.any(|word| word.text.eq_ignore_ascii_case(instance.text))
    })?;
    Some(Slice {
        start: declaration.type_name.line as usize,
        length: declaration.type_name.text.len(),
        line: 0,
    })
}
