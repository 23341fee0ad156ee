use std::alloc::Global;
use wc_model::{Section, Unit, UnitKind};
use wc_text_bodies::{Body, DeclarationState};
use wc_text_lines::LineState;

/// How far a body's line has been read.
#[derive(Drop)]
pub enum LinePlace<'a> {
    /// At its start.
    AtLine,
    /// On it, if it has started.
    OnLine(LineState<'a>),
    /// After a `)`, which the body counts as done.
    Closed,
}

/// How far a text has been read, after its whole units.
#[derive(Drop)]
pub enum TextState<'a> {
    /// In no unit.
    Outside,
    /// After a unit's first word, of that line.
    Unnamed(UnitKind, u32),
    /// In a section of declarations.
    Declaring(Unit<'a>, Section, DeclarationState<'a>),
    /// In a body.
    InBody(Body<'a>, LinePlace<'a>),
}

/// Where a token of a body leads, apart from the body itself.
#[derive(Drop)]
pub(crate) enum BodyPlace<'a> {
    /// On in the body.
    Within(LinePlace<'a>),
    /// Into a section, if no line of the body has come.
    InSection(Section),
    /// After the unit.
    AfterUnit,
}

/// The whole units, and how far the text after them has been read.
#[derive(Drop)]
pub struct Progress<'a> {
    pub units: Vec<Unit<'a>, Global>,
    pub state: TextState<'a>,
}
