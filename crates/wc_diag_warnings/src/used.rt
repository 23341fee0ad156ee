ghost use Rattle.std.specs.Prelude.{◌≡◌, ◌&&◌, ◌||◌, [], OnOk, codes, option_map};
ghost use Rattle.std.specs.List.{list_any};
ghost use Rattle.wc_model.specs.Definitions.{is_among, same_name, Name, name_of, term_view};
ghost use Rattle.wc_diag_warnings.specs.Seen.{does, event_view, events_view, uses_view};
ghost use Rattle.wc_diag_warnings.specs.Uses.{is_this, is_variable, used_in};

use crate::events::{Action, Event};
use std::alloc::{AllocError, Global};
use wc_model::{Operand, is_word};
use wc_names::Names;

/// How a name is used; an instance is given a PT.
#[derive(Clone, Copy)]
enum Use {
    Read,
    Written,
    Called,
    Given,
}

/// The variable that an operand is.
fn variable_of<'a>(operand: Operand<'a>) -> Option<&'a [u8]>
    ensures { (name : Name) → is_variable (term_view operand.entry) name
        ≡ is_this (option_map (λ text. name_of text.now) result) name }
{
    match operand {
        Operand::Name(text) => Some(text),
        Operand::Literal(_) | Operand::Address(_) | Operand::Field { .. } => None,
    }
}

/// The instance, if the input is PT.
fn given_time<'a>(instance: &'a [u8], input: &[u8]) -> Option<&'a [u8]>
    ensures { (name : Name) → (same_name (name_of instance.now) name
        && same_name (name_of input.now) (codes "pt"))
        ≡ is_this (option_map (λ text. name_of text.now) result) name }
{
    is_word(input, b"PT").then_some(instance)
}

/// The name that the event uses so.
fn name_used<'a>(wanted: Use, event: &Event<'a>) -> Option<&'a [u8]>
    ensures { (name : Name) → does wanted (event_view event.now).action name
        ≡ is_this (option_map (λ text. name_of text.now) result) name }
{
    match (wanted, event.action) {
        (Use::Read, Action::Read(operand)) => variable_of(operand),
        (Use::Written, Action::Store(target) | Action::Set(target)) => variable_of(target),
        (Use::Called, Action::Call(instance)) => Some(instance),
        (Use::Given, Action::Give { instance, input }) => given_time(instance, input),
        (Use::Given, Action::Store(Operand::Field { instance, field })) => given_time(
            instance, field,
        ),
        _ => None,
    }
}

/// Adds a name, if there is one.
fn add<'a>(names: &mut Names<'a>, name: Option<&'a [u8]>) -> Result<(), AllocError>
    ensures added { OnOk result ((other : Name) → is_among names.new other
        ≡ (is_among names.old other
        || is_this (option_map (λ text. name_of text.now) name.entry) other)) }
{
    match name {
        Some(name) => match names.add(name) {
            Ok(_) => Ok(()),
            Err(_) => Err(AllocError),
        },
        None => Ok(()),
    }
}

/// Adds the names that events use so.
fn add_used<'a>(names: &mut Names<'a>, wanted: Use, events: &[Event<'a>]) -> Result<(), AllocError>
    ensures added { OnOk result ((name : Name) → is_among names.new name
        ≡ (is_among names.old name
        || list_any (λ e. does wanted e.action name) (events_view events.now))) }
{
    for event in events {
        add(names, name_used(wanted, event))?;
    }
    Ok(())
}

/// The names that the events of a unit use.
#[derive(Drop)]
pub(crate) struct Uses<'a> {
    pub(crate) read: Names<'a>,
    pub(crate) written: Names<'a>,
    pub(crate) called: Names<'a>,
    pub(crate) given: Names<'a>,
}

/// No names.
pub(crate) fn no_uses<'a>(alloc: Global) -> Uses<'a>
    ensures { (name : Name) → uses_view result name ≡ used_in [] name }
{
    Uses {
        read: Names::new(alloc),
        written: Names::new(alloc),
        called: Names::new(alloc),
        given: Names::new(alloc),
    }
}

/// Adds the names that events use, when there are none yet.
pub(crate) fn fill<'a>(uses: &mut Uses<'a>, events: &[Event<'a>]) -> Result<(), AllocError>
    ensures found { OnOk result
        (((name : Name) → uses_view uses.old name ≡ used_in [] name) → (name : Name)
        → uses_view uses.new name ≡ used_in (events_view events.now) name) }
{
    add_used(&mut uses.read, Use::Read, events)?;
    add_used(&mut uses.written, Use::Written, events)?;
    add_used(&mut uses.called, Use::Called, events)?;
    add_used(&mut uses.given, Use::Given, events)
}
