ghost use Rattle.std.specs.Prelude.{◌≡◌, ◌<◌, ◌≤◌, Some, IfOk, IfSome, IsOkUnless, length, map, option_map, slice_get};
ghost use Rattle.wc_model.specs.Definitions.{carried_number, first_numbers, number_of_path, slot_kinds, Scope, text_view, IsBoundAt};
ghost use Rattle.wc_laws_language.specs.FirstNumbers.{AreFirst};
ghost use Rattle.wc_text_flat.specs.{frame_of_text, sources_of};
ghost use Rattle.wc_cost.specs.LoadedTexts.{AreWorstAt, IsLoadedSound, IsProgramOf};

use crate::path_lengths::{path_lengths, worst_lines};
use crate::units::LoweredUnit;
use std::alloc::Global;
use std::marker::Model;
use std::str::from_utf8;
use wc_model::{Code, Fault, Path, Place, SlotKind};
use wc_verify::Checked;

/// A text that every pass accepts, with its flat code: what a machine runs.
#[derive(Drop)]
pub struct Loaded<'a> {
    pub(crate) checked: Checked<'a>,
    pub(crate) units: Vec<LoweredUnit>,
    pub(crate) kinds: Vec<SlotKind>,
    pub(crate) initials: Vec<i64>,
}

impl<'a> Model for Loaded<'a> {
    ghost use Rattle.std.specs.Coded.{codes};
    ghost use Rattle.std.specs.Prelude.{[]};
    ghost use Rattle.wc_model.specs.contracts.tree.Line as line;
    ghost use Rattle.wc_cost.specs.LoadedInside.{loaded_view, AreFieldsSound};
    ghost use Rattle.wc_cost.specs.LoadedTexts.{LoadedText};
    ghost use mir.Syntax;

    ghost Value = { LoadedText };

    ghost coded = { Prim.hlevel (codes, (line.the_row (record { mir = Syntax.named 1; lft = [] })).coded) };

    ghost view = { loaded_view };

    ghost invariant = { AreFieldsSound };
}

impl<'a> Loaded<'a> {
    /// The text that was loaded, with its tables.
    pub fn checked(&self) -> &Checked<'a>
        ensures { result.now.source ≡ self.now.source }
    {
        &self.checked
    }

    /// The number of units the text has. Units are counted in text order from 0; the program is the last.
    pub fn units(&self) -> usize
        ensures count { result ≡ length (text_view self.now.source) }
        ensures codes { result ≡ length self.now.codes }
        ensures sound { IsLoadedSound self.now }
    {
        self.units.len()
    }

    /// The name of a unit, as it is spelled.
    pub fn name(&self, unit: usize) -> &'a str
        requires { unit < length self.now.codes }
        ensures { option_map (λ u. u.spelled) (slice_get (text_view self.now.source) unit)
            ≡ Some result.now }
    {
        let spelled = self.checked.source().units[unit].name.text;
        match from_utf8(spelled) {
            Ok(name) => name,
            // A name is ASCII, so it is UTF-8, and this is never reached.
            Err(_) => "",
        }
    }

    /// The flat lines of a unit's body.
    #[inline(always)]
    pub fn code(&self, unit: usize) -> &[Code]
        requires { unit < length self.now.codes }
        ensures { slice_get self.now.codes unit ≡ Some result.now }
    {
        self.units[unit].code.as_slice()
    }

    /// The lines of the text at which the flat lines of a unit's body are, one for each. What follows a call's own line,
    /// up to its last output, is at the line of the call.
    pub fn lines(&self, unit: usize) -> &[u32]
        requires { unit < length self.now.codes }
        ensures { slice_get (map (λ u. sources_of u.body) (text_view self.now.source)) unit
            ≡ Some result.now }
    {
        self.units[unit].lines.as_slice()
    }

    /// The number of steps a unit takes at most: the length of its longest path.
    pub fn bound(&self, unit: usize) -> u32
        requires { unit < length self.now.codes }
        ensures { IsBoundAt (text_view self.now.source) unit result }
    {
        self.units[unit].bound
    }

    /// The lines of a unit's own body on its worst path, in order: the one that goes on to the next
    /// line of the text if paths are equally long. `Memory` is its only fault.
    pub fn worst_path(&self, alloc: Global, unit: usize) -> Result<Vec<u32>, Fault>
        requires { unit < length self.now.codes }
        ensures worst { IfOk result
            (λ lines. AreWorstAt (text_view self.now.source) unit lines.items) }
        ensures memory { IsOkUnless result Fault.Memory }
    {
        let lowered = &self.units[unit];
        let path_lengths = path_lengths(alloc, &self.units, &lowered.code)?;
        worst_lines(alloc, &path_lengths, &lowered.code, &lowered.lines)
    }

    /// The place that a path names in the program's frame. Fields of standard blocks that texts
    /// cannot name go by `M`, `run`, `phase` and `start`.
    pub fn place(&self, path: &Path<'_>) -> Option<Place>
        ensures { (scope : Scope) → IsProgramOf (text_view self.now.source) scope
            → option_map (λ p. p.0) result ≡ number_of_path scope path.now }
    {
        let last = self.units.len().saturating_sub(1);
        self.checked.tables().place(last, path)
    }

    /// The number of places the program's frame has.
    pub fn size(&self) -> usize
        ensures { result ≡ length (frame_of_text (text_view self.now.source)) }
    {
        self.kinds.len()
    }

    /// The place of the old text's program whose value a place of this text's program keeps at a change from that
    /// text to this one; `None` if the place begins with its first value. It looks up each name of the place's
    /// path once, and takes no memory.
    pub fn carry(&self, old: &Loaded<'_>, place: Place) -> Option<Place>
        requires { place.0 < length (frame_of_text (text_view self.now.source)) }
        ensures carried { option_map (λ p. p.0) result
            ≡ carried_number (text_view old.now.source) (text_view self.now.source) place.0 }
        // So the number that is carried on is in the range of the place's kind.
        ensures kind { IfSome result
            (λ p. slice_get (slot_kinds (frame_of_text (text_view self.now.source))) place.0
            ≡ slice_get (slot_kinds (frame_of_text (text_view old.now.source))) p.0) }
    {
        let last = self.units.len().saturating_sub(1);
        let old_last = old.units.len().saturating_sub(1);
        self.checked
            .tables()
            .carry(last, old.checked.tables(), old_last, place)
    }

    /// The kinds of the places of the program's frame, in their order.
    pub fn kinds(&self) -> &[SlotKind]
        ensures kinds { result.now ≡ slot_kinds (frame_of_text (text_view self.now.source)) }
        ensures few { length result.now ≤ 4096 }
    {
        self.kinds.as_slice()
    }

    /// What the places hold at first, in the same order: BOOL is 0 or 1, TIME is milliseconds.
    pub fn initials(&self) -> &[i64]
        ensures numbers { result.now ≡ first_numbers (frame_of_text (text_view self.now.source)) }
        // Each is in the range of its slot's kind, and no timer has started.
        ensures first { AreFirst (slot_kinds (frame_of_text (text_view self.now.source)))
            result.now }
    {
        self.initials.as_slice()
    }
}
