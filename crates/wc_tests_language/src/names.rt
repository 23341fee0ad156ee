//! Names without letter case, in the order in which they came.
use wc_declare::Names;

/// Whether a name is added, and is a new one or not.
fn is_added<'a>(names: &mut Names<'a>, name: &'a [u8], new: bool) -> bool {
    names.add(name) == Ok(new)
}

/// Names have their numbers, and another is not there.
fn have_numbers(names: &Names<'_>) -> bool {
    let numbers = names.number(b"fill") == Some(0) && names.number(b"TARE") == Some(1);
    let other = names.number(b"filled") == None && !names.contains(b"filled");
    numbers && other && names.contains(b"Tare")
}

/// The third of three names is the first in other letters.
fn are_added(names: &mut Names<'_>) -> bool {
    is_added(names, b"Fill", true)
        && is_added(names, b"tare", true)
        && is_added(names, b"FILL", false)
        && have_numbers(names)
}

#[test]
fn names_are_numbered(rt: HostRuntime) {
    assert!(rt; are_added(&mut Names::new(rt.alloc())));
}
