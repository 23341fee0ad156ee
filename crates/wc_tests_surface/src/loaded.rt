//! What a loaded text answers.
ghost use Rattle.std.specs.Prelude.{◌<◌, length};

use crate::passes::{COUNTING, loaded_of};
use std::alloc::Global;
use wc_cost::Loaded;
use wc_model::{Code, Fault, Path, Place, SlotKind};

/// The calls of each unit, for the program: its name, its bound and the lines of its code.
fn has_a_program(loaded: &Loaded<'_>) -> bool {
    if loaded.units() < 2 {
        return false;
    }
    let name: &str = loaded.name(1);
    let bounds: (u32, u32) = (loaded.bound(0), loaded.bound(1));
    let code: &[Code] = loaded.code(1);
    name.as_bytes() == b"P".as_slice() && bounds == (8, 24) && code.len() == 10
}

/// The calls that speak of the program's frame.
fn has_a_frame(loaded: &Loaded<'_>) -> bool {
    let kinds: &[SlotKind] = loaded.kinds();
    let initials: &[i64] = loaded.initials();
    let place: Option<Place> = loaded.place(&Path::Names(&[b"a", b"N"]));
    let size: usize = loaded.size();
    size == 55 && kinds.len() == size && initials.len() == size && place == Some(Place(46))
}

/// The worst path of a unit.
fn path_of(alloc: Global, loaded: &Loaded<'_>, unit: usize) -> Result<Vec<u32>, Fault>
    requires { unit < length loaded.now.codes }
{
    loaded.worst_path(alloc, unit)
}

/// The worst path of the block.
fn has_a_worst_path(alloc: Global, loaded: &Loaded<'_>) -> bool {
    if loaded.units() < 2 {
        return false;
    }
    match path_of(alloc, loaded, 0) {
        Ok(path) => path.as_slice() == [5, 6, 7, 8, 9, 10].as_slice(),
        Err(_) => false,
    }
}

/// The worst path, if the text was loaded.
fn has_a_worst_path_if_loaded(alloc: Global, loaded: &Result<Loaded<'_>, Fault>) -> bool {
    match loaded {
        Ok(loaded) => has_a_worst_path(alloc, loaded),
        Err(_) => false,
    }
}

/// The worst path of the block of the text.
fn has_the_texts_worst_path(alloc: Global) -> bool {
    has_a_worst_path_if_loaded(alloc, &loaded_of(alloc, COUNTING))
}

/// The old place whose value a place keeps.
fn carried_place(new: &Loaded<'_>, old: &Loaded<'_>, place: Place) -> Option<Place> {
    if usize::from(place.0) < new.size() {
        new.carry(old, place)
    } else {
        None
    }
}

/// A loaded text has its program and its frame, and carries on the last place of the same.
fn answers(loaded: &Loaded<'_>, same: &Loaded<'_>) -> bool {
    let program = has_a_program(loaded) && has_a_frame(loaded);
    program && carried_place(loaded, same, Place(54)) == Some(Place(54))
}

/// The text, loaded twice, answers so.
fn is_answering(alloc: Global) -> bool {
    match loaded_of(alloc, COUNTING) {
        Ok(loaded) => answers(&loaded, &loaded),
        Err(_) => false,
    }
}

#[test]
fn a_loaded_text_answers(rt: HostRuntime) {
    assert!(rt; is_answering(rt.alloc()));
}

#[test]
fn worst_path_succeeds(rt: HostRuntime) {
    assert!(rt; has_the_texts_worst_path(rt.alloc()));
}
