ghost use Rattle.std.specs.Prelude.{◌≡◌, ◌<◌, ◌&&◌, ◌||◌, false, not, [], ◌∷◌, List, OnOk};
ghost use Rattle.wc_model.specs.Definitions.{same_name, name_of};
ghost use Rattle.wc_names.specs.Keys.{name_of_key};
ghost use Rattle.wc_names.specs.declared.key.Key.{Key as Keyed};
ghost use Rattle.wc_diag_warnings.specs.Paths.{action_leaves, Source, Store, AreFrom, IsFollowed, is_from, is_store, leads, marks};
ghost use Rattle.wc_diag_warnings.specs.Events.{BodyEvent};
ghost use Rattle.wc_diag_warnings.specs.Seen.{event_view};

use crate::addresses::stored_variable;
use crate::events::{Action, Event};
use indexmap::IndexMap;
use std::alloc::{AllocError, Global};
use wc_model::Condition;
use wc_names::Key;

/// From where paths come to an event.
#[derive(Clone, Copy)]
pub(crate) struct PathSources {
    /// Whether one comes from the body's start.
    pub(crate) started: bool,
    /// The outputs from a store of which one comes: the bit of each one's number.
    pub(crate) stored: u64,
}

/// No paths.
fn no_paths() -> PathSources
    ensures { (source : Source) → is_from result source ≡ false }
{
    PathSources {
        started: false,
        stored: 0,
    }
}

/// All of these and those.
fn both(these: PathSources, those: PathSources) -> PathSources
    ensures { (source : Source) → is_from result source
        ≡ (is_from these source || is_from those source) }
{
    PathSources {
        started: these.started | those.started,
        stored: these.stored | those.stored,
    }
}

/// These, and one from a store of the output of that number.
fn from_store(paths: PathSources, output: u8) -> PathSources
    requires { output < 64 }
    ensures { (source : Source) → is_from result source
        ≡ (is_from paths source || is_store output source) }
{
    PathSources {
        started: paths.started,
        stored: paths.stored | 1 << output,
    }
}

/// Whether one comes from a store of the output of that number.
pub(crate) fn is_stored(paths: PathSources, output: u8) -> bool
    requires { output < 64 }
    ensures { result ≡ is_from paths (Store output) }
{
    (paths.stored >> output) & 1 == 1
}

/// Where the paths to the events before go on.
#[derive(Drop)]
pub(crate) struct Ahead<'a> {
    next: PathSources,
    /// Those by jumps to each label.
    labels: IndexMap<Key<'a>, PathSources>,
}

/// What is ahead at the start of a body.
pub(crate) fn at_start<'a>(alloc: Global) -> Ahead<'a>
    ensures { IsFollowed [] result }
{
    Ahead {
        next: PathSources {
            started: true,
            stored: 0,
        },
        labels: IndexMap::new(alloc),
    }
}

/// Whether no run goes on from the event to the next.
fn leaves(event: &Event<'_>) -> bool
    ensures { result ≡ action_leaves (event_view event.now).action }
{
    match event.action {
        Action::Jump { condition, .. } | Action::Return(condition) => condition
            == Condition::Always,
        _ => false,
    }
}

/// The paths to the event that go on to the next, and one that begins with the event if it stores an output.
fn onward(event: &Event<'_>, paths: PathSources) -> PathSources
    ensures { (source : Source) → is_from result source
        ≡ (not (action_leaves (event_view event.now).action)
        && (is_from paths source || marks source (event_view event.now))) }
{
    if leaves(event) {
        return no_paths();
    }
    match stored_variable(event) {
        Some(output) => from_store(paths, output),
        None => paths,
    }
}

/// The paths by jumps to a label.
fn to_label(labels: &IndexMap<Key<'_>, PathSources>, label: &[u8]) -> PathSources
    ensures { (source : Source) → is_from result source
        ≡ leads labels.now (name_of label.now) source }
{
    labels
        .get(&Key { text: label })
        .map_or(no_paths(), |paths| *paths)
}

/// The paths to the event after those before.
pub(crate) fn paths_to(ahead: &Ahead<'_>, event: &Event<'_>) -> PathSources
    ensures { (before : List BodyEvent) → IsFollowed before ahead.now
        → AreFrom result before (event_view event.now) }
{
    match event.action {
        Action::Label(label) => both(ahead.next, to_label(&ahead.labels, label)),
        _ => ahead.next,
    }
}

/// Adds paths by a jump to a label.
fn lead<'a>(
    labels: &mut IndexMap<Key<'a>, PathSources>,
    label: &'a [u8],
    paths: PathSources,
) -> Result<(), AllocError>
    ensures led { OnOk result ((source : Source) (key : Keyed)
        → leads labels.new (name_of_key key) source
        ≡ ((is_from paths source && same_name (name_of label.now) (name_of_key key))
        || leads labels.old (name_of_key key) source)) }
{
    let entry = labels.entry(Key { text: label })?;
    let kept = entry.or_insert(no_paths());
    *kept = both(paths, *kept);
    Ok(())
}

/// Goes on from an event, to which there are these paths.
pub(crate) fn follow<'a>(
    ahead: &mut Ahead<'a>,
    event: &Event<'a>,
    paths: PathSources,
) -> Result<(), AllocError>
    ensures followed { OnOk result ((before : List BodyEvent) → IsFollowed before ahead.old
        → AreFrom paths before (event_view event.now)
        → IsFollowed (event_view event.now ∷ before) ahead.new) }
{
    ahead.next = onward(event, paths);
    match event.action {
        Action::Jump { label, .. } => lead(&mut ahead.labels, label, paths),
        _ => Ok(()),
    }
}
