ghost use Rattle.std.specs.Prelude.{◌≡◌, ◌≤◌, ◌<◌, ℕ, Some, IfErr, IfOk, IsOkUnless};
ghost use Rattle.wc_text_flat.specs.Contents.{frame_of_text, number_in};
ghost use Rattle.wc_machine.specs.Machines.{text_of, Leaves, RepresentsText};
ghost use Rattle.wc_machine.specs.Seeing.{IsScanShown, IsSeen};
ghost use Rattle.wc_model.specs.Definitions.{carried, place_number, IsProgramBound, Location, Store as Contents, Text, text_view, greatest_moment};
ghost use Rattle.wc_model.specs.Language.Scans.{initial_of, outputs_of, scan_of};

use crate::body::run;
use crate::executable::Executable;
use crate::seen::{LineObserver, NoObserver, SeenLine, Sight};
use crate::stores::{carried_over, first_store};
use std::alloc::Global;
use std::marker::Model;
use wc_cost::Loaded;
use wc_execution::{copy_image, number_at, read_outputs};
use wc_model::{Fault, Image, Outputs, Place, Steps};
use wc_store::Store;

/// A machine: a loaded text that is run scan by scan over a store of plain numbers.
#[derive(Drop)]
pub struct Machine<'a, S: Store> {
    loaded: Executable<'a>,
    store: S,
    last: u64,
    bound: u32,
}

impl<'a, S: Store> Model for Machine<'a, S> {
    ghost use Rattle.std.specs.Coded.{codes};
    ghost use Rattle.std.specs.Prelude.{[]};
    ghost use Rattle.wc_machine.specs.Machines.{machine_view, IsMachineSound, MachineState};
    ghost use Rattle.wc_model.specs.contracts.tree.Line as line;
    ghost use mir.Syntax;

    ghost Value = { MachineState };

    ghost coded = { Prim.hlevel (codes, (line.the_row (record { mir = Syntax.named 1; lft = [] })).coded) };

    ghost view = { λ a. machine_view a.loaded (S.numbers a.store) a.last };

    ghost invariant = { λ a.
        IsMachineSound a.loaded (S.slot_kinds a.store) (S.numbers a.store) a.last a.bound };
}

impl<'a, S: Store> Machine<'a, S> {
    /// A machine at the store of the declarations, before its first scan. `Memory` is its only fault.
    pub fn new(alloc: Global, loaded: Loaded<'a>) -> Result<Machine<'a, S>, Fault>
        ensures represents { IfOk result
            (λ machine.
            RepresentsText machine (text_view loaded.entry.source)
            (initial_of (text_view loaded.entry.source))) }
        ensures last { IfOk result (λ machine. machine.last ≡ 0) }
        ensures memory { IsOkUnless result Fault.Memory }
    {
        let units = loaded.units();
        let bound = loaded.bound(units - 1);
        let store = match first_store(alloc, loaded.kinds(), loaded.initials()) {
            Ok(store) => store,
            Err(fault) => {
                // A call drops it in one step; the return would drop each field, which is dear to prove.
                drop(loaded);
                return Err(fault);
            }
        };
        let loaded = match Executable::new(alloc, loaded) {
            Ok(executable) => executable,
            Err(refused) => {
                drop(store);
                return Err(refused);
            }
        };
        Ok(Machine {
            loaded,
            store,
            last: 0,
            bound,
        })
    }

    /// The machine with another text between two scans. A place keeps its number if the same names or the same
    /// address lead to a place of the same kind in both texts, and into the same standard function block or into none;
    /// every other place begins with its first number. The moment of the last scan stays. `Memory` is the only fault,
    /// and then the machine is handed back as it was.
    pub fn change(
        self,
        alloc: Global,
        loaded: Loaded<'a>,
    ) -> Result<Machine<'a, S>, (Machine<'a, S>, Fault)>
        ensures represents { (text : Text) (store : Contents) → RepresentsText self.entry text store
            → IfOk result (λ machine. RepresentsText machine (text_view loaded.entry.source)
            (carried text store (text_view loaded.entry.source))) }
        ensures text { IfOk result
            (λ machine. text_of machine ≡ text_view loaded.entry.source) }
        ensures last { IfOk result (λ machine. machine.last ≡ self.entry.last) }
        ensures unchanged { IfErr result (λ failed. failed.0 ≡ self.entry) }
        ensures memory { IfErr result (λ failed. failed.1 ≡ Fault.Memory) }
    {
        let first = match first_store(alloc, loaded.kinds(), loaded.initials()) {
            Ok(first) => first,
            Err(fault) => {
                drop(loaded);
                return Err((self, fault));
            }
        };
        let units = loaded.units();
        let bound = loaded.bound(units - 1);
        let store = carried_over(first, &loaded, self.loaded.text(), &self.store);
        let loaded = match Executable::new(alloc, loaded) {
            Ok(executable) => executable,
            Err(refused) => {
                drop(store);
                return Err((self, refused));
            }
        };
        let last = self.last;
        drop(self);
        Ok(Machine {
            loaded,
            store,
            last,
            bound,
        })
    }

    /// One scan as `scan` does it, with an observer of its lines.
    fn observe_scan<O: LineObserver>(&mut self, now: u64, image: &Image, observer: &mut O) -> Steps
        requires not_before { self.old.last ≤ now }
        requires in_range { now ≤ greatest_moment }
        ensures shown { (text : Text) (store : Contents) → RepresentsText self.old text store
            → IsScanShown (O.is_shown observer.old observer.new) text store image.now now }
        ensures means { (text : Text) (store : Contents) → RepresentsText self.old text store
            → Leaves self.new text result.0 (scan_of text store image.now now) }
        ensures last { self.new.last ≡ now }
        ensures within { (n : ℕ) → IsProgramBound (text_of self.old) n → result.0 ≤ n }
    {
        copy_image(&mut self.store, image);
        let program = self.loaded.units() - 1;
        let steps = run(&self.loaded, &mut self.store, observer, program, 0, now, 0);
        self.last = now;
        Steps(steps)
    }

    /// One scan at a moment in milliseconds: the image goes to the inputs, the program's body is executed, and its
    /// items are counted. It takes no memory.
    pub fn scan(&mut self, now: u64, image: &Image) -> Steps
        requires not_before { self.old.last ≤ now }
        requires in_range { now ≤ greatest_moment }
        // So each bit of the status has a place that the program can read. The proof does without.
        requires status { image.now.status < 64 }
        ensures means { (text : Text) (store : Contents) → RepresentsText self.old text store
            → Leaves self.new text result.0 (scan_of text store image.now now) }
        ensures last { self.new.last ≡ now }
        ensures within { (n : ℕ) → IsProgramBound (text_of self.old) n → result.0 ≤ n }
    {
        self.observe_scan(now, image, &mut NoObserver)
    }

    /// One scan as `scan` does it, with its steps, and what was seen of each item that it counts, in the order of execution:
    /// which flat line, at which line of the text and at what depth of calls, what it wrote, and the result after it. If memory
    /// is refused for what was seen the scan is done all the same, and `Memory` is in place of the lines.
    pub fn trace(
        &mut self,
        alloc: Global,
        now: u64,
        image: &Image,
    ) -> (Steps, Result<Vec<SeenLine>, Fault>)
        requires not_before { self.old.last ≤ now }
        requires in_range { now ≤ greatest_moment }
        // So each bit of the status has a place that the program can read. The proof does without.
        requires status { image.now.status < 64 }
        ensures seen { (text : Text) (store : Contents) → RepresentsText self.old text store
            → IfOk result.1 (λ lines. IsSeen text store image.now now lines.items) }
        ensures means { (text : Text) (store : Contents) → RepresentsText self.old text store
            → Leaves self.new text result.0.0 (scan_of text store image.now now) }
        ensures last { self.new.last ≡ now }
        ensures within { (n : ℕ) → IsProgramBound (text_of self.old) n → result.0.0 ≤ n }
        ensures memory { IsOkUnless result.1 Fault.Memory }
    {
        let mut sight = Sight::new(alloc);
        let steps = self.observe_scan(now, image, &mut sight);
        (steps, sight.into_lines())
    }

    /// What the last scan left at the outputs.
    pub fn outputs(&self) -> Outputs
        ensures { (text : Text) (store : Contents) → RepresentsText self.now text store
            → result ≡ outputs_of store }
    {
        read_outputs(&self.store)
    }

    /// The number of what is at a place of the program's frame: 0 or 1, a DINT, or milliseconds. There is none if the
    /// frame has no such place.
    pub fn number(&self, place: Place) -> Option<i64>
        ensures { (text : Text) (store : Contents) (location : Location)
            → RepresentsText self.now text store
            → place_number (frame_of_text text) location ≡ Some place.0
            → result ≡ number_in store location }
    {
        number_at(&self.store, place)
    }

    /// The text that it runs, as it was loaded.
    pub fn loaded(&self) -> &Loaded<'a>
        ensures { result.now.source ≡ self.now.source }
    {
        self.loaded.text()
    }

    /// The moment of the last scan in milliseconds, 0 before the first.
    pub fn last(&self) -> u64
        ensures { result ≡ self.now.last }
    {
        self.last
    }

    /// The number of steps a scan takes at most: the length of the program's longest path.
    pub fn bound(&self) -> u32
        ensures { IsProgramBound (text_of self.now) result }
    {
        self.bound
    }
}
