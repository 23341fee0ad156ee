ghost use Rattle.std.specs.Prelude.{◌≡◌, None};
ghost use Rattle.wc_model.specs.Definitions.{body_fault, declaration_fault, text_view};
ghost use Rattle.wc_names.specs.RepresentsText.{AreTables};
ghost use Rattle.wc_verify.specs.CheckedTexts.{WasRead};

use std::marker::Model;
use wc_model::Source;
use wc_names::Tables;

/// A text that was read and breaks no rule on declarations and bodies, with its tables.
#[derive(Drop)]
pub struct Checked<'a> {
    pub(crate) source: Source<'a>,
    pub(crate) tables: Tables<'a>,
}

impl<'a> Model for Checked<'a> {
    ghost use Rattle.std.specs.Coded.{codes};
    ghost use Rattle.std.specs.Prelude.{[]};
    ghost use Rattle.wc_model.specs.contracts.tree.Line as line;
    ghost use Rattle.wc_verify.specs.CheckedInside.{checked_view, IsCheckedSound};
    ghost use Rattle.wc_verify.specs.CheckedTexts.{CheckedText};
    ghost use mir.Syntax;

    ghost Value = { CheckedText };

    ghost coded = { Prim.hlevel (codes, (line.the_row (record { mir = Syntax.named 1; lft = [] })).coded) };

    ghost view = { checked_view };

    ghost invariant = { IsCheckedSound };
}

impl<'a> Checked<'a> {
    /// The text that was verified. It was read, and breaks no rule on declarations and bodies.
    pub fn source(&self) -> &Source<'a>
        ensures source { result.now ≡ self.now.source }
        ensures read { WasRead (text_view self.now.source) }
        ensures declared { declaration_fault (text_view self.now.source) ≡ None }
        ensures sound { body_fault (text_view self.now.source) ≡ None }
    {
        &self.source
    }

    /// Its tables.
    pub fn tables(&self) -> &Tables<'a>
        ensures tables { result.now ≡ self.now.tables }
        ensures occur { AreTables self.now.tables (text_view self.now.source) }
    {
        &self.tables
    }
}
