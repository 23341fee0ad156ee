ghost use Rattle.std.specs.Prelude.{◌≡◌, ◌++◌, ◌∷◌, [], IfOk, List, Some, map, option_map};
ghost use Rattle.wc_text_bodies.specs.Views.{Leads, LeadsOn, declaring_view, section_view};
ghost use Rattle.wc_laws_grammar.specs.Moves as moves;
ghost use Rattle.wc_laws_grammar.specs.Words.{literal_of};
ghost use Rattle.wc_text_lines.specs.Words.{symbol_view};
ghost use Rattle.wc_model.specs.Definitions.{ProgramUnit, unit_view, word_view};

use std::alloc::{AllocError, Global};
use wc_lexer::{Shape, Token};
use wc_model::{Decl, Initial, Section, Unit, Value, Word};
use wc_text_lines::{ends_section, truth, word};

/// How far a section of declarations has been read.
#[derive(Drop)]
pub enum DeclarationState<'a> {
    /// Before a declaration.
    Undeclared,
    /// After a name.
    AfterNames(Vec<Word<'a>, Global>),
    /// After a comma.
    AfterComma(Vec<Word<'a>, Global>),
    /// After the colon.
    AfterColon(Vec<Word<'a>, Global>),
    /// After the type.
    AfterType(Vec<Word<'a>, Global>, Word<'a>),
    /// After `:=`.
    AfterAssign(Vec<Word<'a>, Global>, Word<'a>),
    /// After the value.
    AfterValue(Vec<Word<'a>, Global>, Word<'a>, Initial),
}

/// Where a token of a section leads, apart from the unit.
#[derive(Drop)]
pub enum SectionPlace<'a> {
    /// On in the section.
    WithinSection(DeclarationState<'a>),
    /// After END_VAR.
    AfterSection,
}

/// After the `;` of a declaration, which is added after the unit's others.
fn end_declaration<'a>(
    unit: &mut Unit<'a>,
    section: Section,
    names: Vec<Word<'a>, Global>,
    type_name: Word<'a>,
    initial: Option<Initial>,
) -> Result<Option<SectionPlace<'a>>, AllocError>
    ensures { IfOk result
        (λ next. (units : List ProgramUnit)
        → option_map (section_view units (unit_view unit.new) section) next
        ≡ Some (moves.Declaring units
        (moves.with_declaration (unit_view unit.old) section (map word_view names.entry.items)
        (word_view type_name.entry) initial) section moves.Undeclared)) }
{
    unit.declarations.push(Decl {
        section,
        names,
        type_name,
        initial,
    })?;
    Ok(Some(SectionPlace::WithinSection(DeclarationState::Undeclared)))
}

/// The names with one more.
fn with_name<'a>(
    names: Vec<Word<'a>, Global>,
    name: Word<'a>,
) -> Result<DeclarationState<'a>, AllocError>
    ensures { IfOk result
        (λ state.
        declaring_view state
        ≡ moves.AfterNames (map word_view names.entry.items ++ word_view name.entry ∷ [])) }
{
    let mut names = names;
    names.push(name)?;
    Ok(DeclarationState::AfterNames(names))
}

/// After the token that begins a declaration or ends the section.
fn at_undeclared<'a>(
    alloc: Global,
    token: Token<'a>,
) -> Result<Option<SectionPlace<'a>>, AllocError>
    ensures { IfOk result (λ next. Leads DeclarationState.Undeclared token.entry next) }
{
    let state = match token.shape {
        Shape::LineEnd => DeclarationState::Undeclared,
        Shape::Identifier => {
            if ends_section(token.text) {
                return Ok(Some(SectionPlace::AfterSection));
            }
            with_name(Vec::new(alloc), word(token))?
        }
        _ => return Ok(None),
    };
    Ok(Some(SectionPlace::WithinSection(state)))
}

/// After the token that follows a name: a comma or the colon.
fn at_names<'a>(names: Vec<Word<'a>, Global>, token: Token<'a>) -> Option<SectionPlace<'a>>
    ensures { Leads (DeclarationState.AfterNames names.entry) token.entry result }
{
    let state = match token.shape {
        Shape::LineEnd => DeclarationState::AfterNames(names),
        Shape::Comma => DeclarationState::AfterComma(names),
        Shape::Colon => DeclarationState::AfterColon(names),
        _ => return None,
    };
    Some(SectionPlace::WithinSection(state))
}

/// After the token that follows a comma: a name.
fn at_next_name<'a>(
    names: Vec<Word<'a>, Global>,
    token: Token<'a>,
) -> Result<Option<SectionPlace<'a>>, AllocError>
    ensures { IfOk result (λ next. Leads (DeclarationState.AfterComma names.entry) token.entry next) }
{
    let state = match token.shape {
        Shape::LineEnd => DeclarationState::AfterComma(names),
        Shape::Identifier => with_name(names, word(token))?,
        _ => return Ok(None),
    };
    Ok(Some(SectionPlace::WithinSection(state)))
}

/// After the token that follows the colon: the type.
fn at_type<'a>(names: Vec<Word<'a>, Global>, token: Token<'a>) -> Option<SectionPlace<'a>>
    ensures { Leads (DeclarationState.AfterColon names.entry) token.entry result }
{
    let state = match token.shape {
        Shape::LineEnd => DeclarationState::AfterColon(names),
        Shape::Identifier => DeclarationState::AfterType(names, word(token)),
        _ => return None,
    };
    Some(SectionPlace::WithinSection(state))
}

/// The literal that the token is, also TRUE and FALSE.
fn literal(token: Token) -> Option<Value>
    ensures { result ≡ literal_of (symbol_view token.entry) }
{
    match token.shape {
        Shape::Identifier => truth(token.text).map(Value::Bool),
        Shape::Whole(number) => Some(Value::Dint(number)),
        Shape::Duration(milliseconds) => Some(Value::Time(milliseconds)),
        Shape::Truth(value) => Some(Value::Bool(value)),
        _ => None,
    }
}

/// After the token that follows `:=`: the value.
fn at_value<'a>(
    names: Vec<Word<'a>, Global>,
    type_name: Word<'a>,
    token: Token<'a>,
) -> Option<SectionPlace<'a>>
    ensures { Leads (DeclarationState.AfterAssign names.entry type_name.entry) token.entry result }
{
    match token.shape {
        Shape::LineEnd => Some(SectionPlace::WithinSection(DeclarationState::AfterAssign(
            names, type_name,
        ))),
        _ => {
            let line = token.line;
            let value = literal(token)?;
            let initial = Initial { value, line };
            Some(SectionPlace::WithinSection(DeclarationState::AfterValue(
                names, type_name, initial,
            )))
        }
    }
}

/// After the token that follows a type: `:=` or the `;`.
fn after_type<'a>(
    unit: &mut Unit<'a>,
    section: Section,
    names: Vec<Word<'a>, Global>,
    type_name: Word<'a>,
    token: Token<'a>,
) -> Result<Option<SectionPlace<'a>>, AllocError>
    ensures { IfOk result
        (λ next.
        LeadsOn unit.old section (DeclarationState.AfterType names.entry type_name.entry)
        token.entry unit.new next) }
{
    let state = match token.shape {
        Shape::LineEnd => DeclarationState::AfterType(names, type_name),
        Shape::Assign => DeclarationState::AfterAssign(names, type_name),
        Shape::Semicolon => return end_declaration(unit, section, names, type_name, None),
        _ => return Ok(None),
    };
    Ok(Some(SectionPlace::WithinSection(state)))
}

/// After the token that follows a value: the `;`.
fn after_value<'a>(
    unit: &mut Unit<'a>,
    section: Section,
    names: Vec<Word<'a>, Global>,
    type_name: Word<'a>,
    initial: Initial,
    token: Token<'a>,
) -> Result<Option<SectionPlace<'a>>, AllocError>
    ensures { IfOk result
        (λ next.
        LeadsOn unit.old section (DeclarationState.AfterValue names.entry type_name.entry initial)
        token.entry unit.new next) }
{
    match token.shape {
        Shape::LineEnd => Ok(Some(SectionPlace::WithinSection(DeclarationState::AfterValue(
            names, type_name, initial,
        )))),
        Shape::Semicolon => end_declaration(unit, section, names, type_name, Some(initial)),
        _ => Ok(None),
    }
}

/// After one more token of a section, whose line ends are passed over; none if no section goes
/// on so. A declaration that the token ends is added to the unit's.
pub fn declaration_move<'a>(
    alloc: Global,
    unit: &mut Unit<'a>,
    section: Section,
    state: DeclarationState<'a>,
    token: Token<'a>,
) -> Result<Option<SectionPlace<'a>>, AllocError>
    ensures { IfOk result
        (λ next. (units : List ProgramUnit)
        → option_map (section_view units (unit_view unit.new) section) next
        ≡ moves.declaration_move units (unit_view unit.old) section (declaring_view state.entry)
        (symbol_view token.entry) token.entry.line) }
{
    match state {
        DeclarationState::Undeclared => at_undeclared(alloc, token),
        DeclarationState::AfterNames(names) => Ok(at_names(names, token)),
        DeclarationState::AfterComma(names) => at_next_name(names, token),
        DeclarationState::AfterColon(names) => Ok(at_type(names, token)),
        DeclarationState::AfterType(names, type_name) => after_type(
            unit, section, names, type_name, token,
        ),
        DeclarationState::AfterAssign(names, type_name) => Ok(at_value(names, type_name, token)),
        DeclarationState::AfterValue(names, type_name, initial) => after_value(
            unit, section, names, type_name, initial, token,
        ),
    }
}
