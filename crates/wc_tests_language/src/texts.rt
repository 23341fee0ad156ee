//! Texts through the passes.
use std::alloc::Global;
use wc_cost::{Loaded, cost};
use wc_declare::{Tables, tables};
use wc_model::Fault;
use wc_reader::read;
use wc_verify::{Checked, verify};

/// The tables of a text.
pub(crate) fn tables_of<'a>(alloc: Global, text: &'a [u8]) -> Result<Tables<'a>, Fault> {
    match read(alloc, text) {
        Ok(source) => tables(alloc, &source),
        Err(fault) => Err(fault),
    }
}

/// A text through the passes up to the rules on bodies.
pub(crate) fn check<'a>(alloc: Global, text: &'a [u8]) -> Result<Checked<'a>, Fault> {
    let source = match read(alloc, text) {
        Ok(source) => source,
        Err(fault) => return Err(fault),
    };
    match tables(alloc, &source) {
        Ok(tables) => verify(alloc, source, tables),
        Err(fault) => Err(fault),
    }
}

/// A text through all passes.
pub(crate) fn load_text<'a>(alloc: Global, text: &'a [u8]) -> Result<Loaded<'a>, Fault> {
    match check(alloc, text) {
        Ok(checked) => cost(alloc, checked),
        Err(fault) => Err(fault),
    }
}
