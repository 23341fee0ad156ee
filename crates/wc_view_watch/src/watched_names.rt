ghost use Rattle.std.specs.Prelude.{◌≡◌, ◌<◌, ◌^◌, ◌++◌, ◌∷◌, ◌||◌, List, ℕ, IfErr, IfOk, IfSome, IsOkUnless, None, OnOk, Option, Some, get_or, is_some, length, map, option_and_then, option_copied, option_map, slice_get, true, unwrap_or};
ghost use Rattle.wc_machine.specs.Machines.{RepresentsText};
ghost use Rattle.wc_model.specs.Definitions.{Store as Contents, Text, text_view, PlateData, Past, Logic, first_logic};
ghost use Rattle.wc_run.specs.{logic_after, text_of_next, RefusesToBegin, loaded_of, logic_of, row_of};
ghost use Rattle.wc_text_variables.specs.Names.{variable_named};
ghost use Rattle.wc_view_watch.specs.Plans.{IsUnknown, begins_with, numbers_in, value_text, values_in, values_line, numbers_of};
ghost use Rattle.wc_view_watch.specs.Watching.{AreLookedUp, FitLogic, HasRefused, RunsLogic};

use crate::names::{UnknownName, all_watched, names_of};
use std::alloc::Global;
use wc_cost::Loaded;
use wc_machine::Machine;
use wc_model::{Fault, put_bytes};
use wc_record::HeadKind;
use wc_report::put_number;
use wc_run::{Program, RowSeen, RunFault};
use wc_store::SlotStore;
use wc_text_variables::NamedVariable;
use wc_view_changes::put_literal;

/// The names of a list that are watched, and what each of them means in the program that runs and in the next one, if one is
/// left.
#[derive(Drop)]
pub struct WatchedNames<'n> {
    pub(crate) names: Vec<&'n [u8]>,
    pub(crate) watched: Vec<Option<NamedVariable>>,
    pub(crate) next: Option<Vec<Option<NamedVariable>>>,
    /// The first name that no program has, if there is one.
    pub(crate) unknown: Option<UnknownName>,
}

/// Puts a name and its value, if it means something. `Memory` is the only fault.
fn put_named(
    line: &mut Vec<u8>,
    machine: &Machine<'_, SlotStore>,
    name: &[u8],
    watched: &Option<NamedVariable>,
) -> Result<(), Fault>
    ensures puts { (text : Text) (store : Contents) → RepresentsText machine.now text store
        → variable_named text name.now ≡ watched.now
        → OnOk result (line.new.items ≡ line.old.items ++ value_text text store name.now) }
    ensures memory { IsOkUnless result Fault.Memory }
{
    let Some(watched) = watched else {
        return Ok(());
    };
    let Some(number) = machine.number(watched.place) else {
        return Ok(());
    };
    put_bytes(line, b" ")?;
    put_bytes(line, name)?;
    put_bytes(line, b"=")?;
    put_literal(line, watched.kind, number)
}

/// Whether the name of that number means something.
fn is_watched(watched: &[Option<NamedVariable>], index: usize) -> bool
    ensures { result ≡ is_some (option_and_then (λ found. found) (slice_get watched.now index)) }
{
    matches!(watched.get(index), Some(Some(_)))
}

/// What the names mean in the next program, if there is one.
fn all_watched_next(
    alloc: Global,
    next: Option<&Loaded<'_>>,
    names: &[&[u8]],
) -> Result<Option<Vec<Option<NamedVariable>>>, Fault>
    ensures mean { IfOk result (λ all. option_map (λ found. found.items) all
        ≡ option_map (λ other. map (variable_named other) (map (λ name. name.now) names.now))
        (text_of_next (option_map (λ loaded. loaded.now) next.entry))) }
    ensures memory { IsOkUnless result Fault.Memory }
{
    let Some(next) = next else {
        return Ok(None);
    };
    Ok(Some(all_watched(alloc, next, names)?))
}

/// The number of bytes a list has.
fn count_bytes(list: &[u8]) -> usize
    ensures count { result ≡ length list.now }
    ensures few { result < 2 ^ 63 }
{
    list.len()
}

impl<'n> WatchedNames<'n> {
    /// No names, before the programs are known.
    pub fn new(alloc: Global) -> WatchedNames<'n>
        ensures { result.unknown ≡ None }
    {
        WatchedNames {
            names: Vec::new(alloc),
            watched: Vec::new(alloc),
            next: None,
            unknown: None,
        }
    }

    /// Looks for the names of a list, and for the first of them that no program has. `Memory` is the only fault.
    fn look_up(
        &mut self,
        alloc: Global,
        list: &'n [u8],
        first: &Loaded<'_>,
        next: Option<&Loaded<'_>>,
    ) -> Result<(), Fault>
        ensures names { OnOk result (FitLogic self.new list.now
            (Some (first_logic (text_view first.now.source)
            (text_of_next (option_map (λ loaded. loaded.now) next.entry))))) }
        ensures unknown { OnOk result (IsUnknown list.now
            (Some (first_logic (text_view first.now.source)
            (text_of_next (option_map (λ loaded. loaded.now) next.entry)))) self.new.unknown) }
        ensures memory { IsOkUnless result Fault.Memory }
    {
        self.names = names_of(alloc, list)?;
        self.watched = all_watched(alloc, first, &self.names)?;
        self.next = all_watched_next(alloc, next, &self.names)?;
        self.unknown = self.find_unknown(list);
        Ok(())
    }

    /// Looks for the names of a list, between commas, in the programs of a run, which does not begin if no program has one of
    /// them. With no program no name is looked up. `Memory` is the only other fault.
    pub fn begin(
        &mut self,
        alloc: Global,
        list: &'n [u8],
        first: Option<Program<'_, '_>>,
        next: Option<Program<'_, '_>>,
    ) -> Result<(), RunFault>
        ensures looked_up { OnOk result (FitLogic self.new list.now
            (logic_of (loaded_of first.entry) (loaded_of next.entry))) }
        ensures begins { OnOk result (begins_with list.now
            (logic_of (loaded_of first.entry) (loaded_of next.entry)) ≡ true) }
        ensures refused { IfErr result (RefusesToBegin (begins_with list.now
            (logic_of (loaded_of first.entry) (loaded_of next.entry)))
            (HasRefused list.now self.new
            (logic_of (loaded_of first.entry) (loaded_of next.entry)))) }
    {
        let Some(first) = first else {
            return Ok(());
        };
        self.look_up(alloc, list, first.loaded, next.map(|next| next.loaded))?;
        match self.unknown {
            Some(_) => Err(RunFault::Refused {
                number: 401,
                place: 0,
            }),
            None => Ok(()),
        }
    }

    /// The first name that no program has, if a run did not begin for that.
    pub fn unknown(&self) -> UnknownName
        ensures { IfSome self.now.unknown (λ name. result ≡ name) }
    {
        let (start, length) = (0, 0);
        self.unknown.unwrap_or(UnknownName { start, length })
    }

    /// Whether the name of that number means something in the first program or in the next one.
    fn is_known(&self, index: usize) -> bool
        ensures { result ≡ (is_some (option_and_then (λ found. found)
            (slice_get self.now.watched.items index))
            || is_some (option_and_then (λ all. option_and_then (λ found. found)
            (slice_get all.items index)) self.now.next)) }
    {
        is_watched(&self.watched, index)
            || self
                .next
                .as_ref()
                .is_some_and(|next| is_watched(next, index))
    }

    /// The first name that no program has, if there is one.
    fn find_unknown(&self, list: &[u8]) -> Option<UnknownName>
        ensures { (text : Text) (next : Option Text) → AreLookedUp self.now list.now text next
            → IsUnknown list.now (Some (first_logic text next)) result }
    {
        // A list has fewer than 2^63 bytes, so `start` is the exact sum.
        let _most = count_bytes(list);
        let mut start = 0_usize;
        for index in 0..self.names.len() {
            let Some(name) = self.names.get(index) else {
                continue;
            };
            let length = name.len();
            if !self.is_known(index) {
                return Some(UnknownName { start, length });
            }
            start = start.saturating_add(length).saturating_add(1);
        }
        None
    }

    /// The next program, if one is left, takes the place of the first.
    fn change(&mut self)
        ensures { (list : List ℕ) (text : Text) (next : Option Text)
            → AreLookedUp self.old list text next
            → AreLookedUp self.new list (unwrap_or next text) None }
    {
        if let Some(next) = self.next.take() {
            self.watched = next;
        }
    }

    /// At a row that changes the program the next one takes the place of the first.
    pub fn turn(&mut self, seen: &RowSeen<'_>)
        ensures { (list : List ℕ) (plate : PlateData) (logic : Option Logic) (past : Past)
            → FitLogic self.old list (logic_after plate logic past)
            → FitLogic self.new list (logic_after plate logic (row_of seen.now ∷ past)) }
    {
        if let HeadKind::Change = seen.row.kind {
            self.change();
        }
    }

    /// The number that the variable of a name holds, by the name's number from 0; `None` if the program has no such name.
    fn number(&self, machine: &Machine<'_, SlotStore>, index: usize) -> Option<i64>
        ensures { (list : List ℕ) (text : Text) (next : Option Text) (store : Contents)
            → AreLookedUp self.now list text next → RepresentsText machine.now text store
            → result ≡ get_or (numbers_in list text store) index None }
    {
        match self.watched.get(index) {
            Some(watched) => match watched {
                Some(watched) => machine.number(watched.place),
                None => None,
            },
            None => None,
        }
    }

    /// The numbers that the first four names hold: 0 and 1 of FALSE and TRUE, milliseconds of a TIME. With no machine, which has
    /// no program, there are none.
    pub fn numbers(&self, machine: Option<&Machine<'_, SlotStore>>) -> [Option<i64>; 4]
        ensures { (list : List ℕ) (logic : Option Logic) → FitLogic self.now list logic
            → RunsLogic (option_copied machine.entry) logic
            → (i : ℕ) → i < 4 → get_or result i None ≡ get_or (numbers_of list logic) i None }
    {
        match machine {
            Some(machine) => [
                self.number(machine, 0),
                self.number(machine, 1),
                self.number(machine, 2),
                self.number(machine, 3),
            ],
            None => [None; 4],
        }
    }

    /// Puts the names that the program has, each with its value. `Memory` is the only fault.
    pub(crate) fn put_values(
        &self,
        line: &mut Vec<u8>,
        machine: &Machine<'_, SlotStore>,
    ) -> Result<(), Fault>
        ensures puts { (list : List ℕ) (text : Text) (next : Option Text) (store : Contents)
            → AreLookedUp self.now list text next → RepresentsText machine.now text store
            → OnOk result (line.new.items ≡ line.old.items ++ values_in list text store) }
        ensures memory { IsOkUnless result Fault.Memory }
    {
        for index in 0..self.names.len() {
            let Some(name) = self.names.get(index) else {
                continue;
            };
            let Some(watched) = self.watched.get(index) else {
                continue;
            };
            put_named(line, machine, name, watched)?;
        }
        Ok(())
    }

    /// Puts the line of a scan: its moment, and each name that the program has with its value. `Memory` is the only fault.
    pub(crate) fn put_line(
        &self,
        line: &mut Vec<u8>,
        ms: u64,
        machine: &Machine<'_, SlotStore>,
    ) -> Result<(), Fault>
        ensures puts { (list : List ℕ) (text : Text) (next : Option Text) (store : Contents)
            → AreLookedUp self.now list text next → RepresentsText machine.now text store
            → OnOk result (line.new.items ≡ line.old.items ++ values_line list text store ms) }
        ensures memory { IsOkUnless result Fault.Memory }
    {
        put_bytes(line, b"V ")?;
        put_number(line, ms)?;
        self.put_values(line, machine)?;
        put_bytes(line, b"\n")
    }
}
