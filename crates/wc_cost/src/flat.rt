ghost use Rattle.std.specs.Prelude.{◌≡◌, OnOk, length};
ghost use Rattle.wc_cost.specs.Lowering.{FlatLines, no_lines, put_line, turned_lines};

use std::alloc::{AllocError, Global};
use std::marker::Model;
use wc_model::Code;

/// Flat lines with the lines of the text at which they are. They grow from the last line to the
/// first.
#[derive(Drop)]
pub struct Flat {
    code: Vec<Code>,
    sources: Vec<u32>,
}

impl Model for Flat {
    ghost Value = { FlatLines };

    ghost view = { λ f. turned_lines f.code.items f.sources.items };
}

impl Flat {
    /// No lines.
    pub(crate) fn new(alloc: Global) -> Flat
        ensures { result ≡ no_lines }
    {
        Flat {
            code: Vec::new(alloc),
            sources: Vec::new(alloc),
        }
    }

    /// The number of lines.
    pub(crate) fn len(&self) -> usize
        ensures { result ≡ length self.now.code }
    {
        self.code.len()
    }

    /// Puts a flat line, at a line of the text, before those that are there.
    pub(crate) fn put(&mut self, line: Code, source: u32) -> Result<(), AllocError>
        ensures { OnOk result (self.new ≡ put_line line source self.old) }
    {
        self.code.push(line)?;
        Ok(self.sources.push(source)?)
    }

    /// The flat lines and their lines of the text, from the first to the last.
    pub fn into_lines(self) -> (Vec<Code>, Vec<u32>)
        ensures code { result.0.items ≡ self.code }
        ensures sources { result.1.items ≡ self.sources }
    {
        let Flat {
            mut code,
            mut sources,
        } = self;
        code.reverse();
        sources.reverse();
        (code, sources)
    }
}
