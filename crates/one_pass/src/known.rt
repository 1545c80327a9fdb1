//! Whole layers, worked out once: what a layer does on a byte.
//!
//! A layer, as the list of its sets, has a number, found by hash only where a step led to it that was not known. What
//! it does on a byte is entered once for all bytes of a class, and serves those that each of its sets was asked for. All of
//! it follows from what the table of sets has answered, which never changes, so that it may be forgotten, or never kept, at
//! any time.
ghost use Rattle.std.specs.Prelude.{◌≡◌, ℕ, ◌+◌, ◌*◌, ◌<◌, ◌≤◌, [], ◌∷◌, ◌++◌, length, slice_get, Some, None, IfOk, IfSome, IsTrue};
ghost use Rattle.span_core.specs.Lists.{AreDistinct};
ghost use Rattle.output_graph.specs.Graph.{sets_of};
ghost use Rattle.output_graph.specs.Source.{Edges};
ghost use Rattle.set_table.specs.Tabled.{Tabled};
ghost use Rattle.output_graph.specs.Named.{handing, handing_to};
ghost use Rattle.one_pass.specs.Known.{AreAlike, AreLookUps, IsEntry, IsGlide, IsLookUp, IsStepOf, KeepsKnown, KeepsLayers, Knows, Stands, layer_at};
ghost use Rattle.one_pass.specs.KnownSteps.{known_step_of};
ghost use Rattle.one_pass.specs.Passes.{AreGiven};

use crate::entries::{Entries, Entry};
use crate::known_steps::KnownSteps;
use crate::places::stays_of;
use numbered_lists::NumberedLists;
use output_graph::{OutputGraph, Program};
use set_table::Table;
use span_core::{ByteSet, Edge, OutOfMemory};
use std::alloc::Global;
use way_exits::{Classes, has};

/// A layer with more sets is not kept: finding the targets of its edges one by one would cost more than a step.
const MOST_SETS: usize = 256;

/// How many words of four bytes are kept of one document at most, about.
pub const MOST_WORDS: usize = 4_194_304;

/// The words of a step beside those of its edges and sources.
const STEP_WORDS: usize = 12;

/// The words of the largest layer that is kept.
const MOST_LAYER_WORDS: usize = 520 + MOST_SETS;

/// Layers with numbers, by their sets in their order, and what each does on the bytes that were read in it. All of it
/// is true of the table, which never changes what it has answered; so it may be forgotten at any time, and want of
/// memory is no refusal.
#[derive(Drop)]
pub struct Known {
    alloc: Global,
    pub(crate) layers: NumberedLists,
    pub(crate) entries: Entries,
    pub(crate) steps: KnownSteps,
    pub(crate) stays: ByteSet,
    left: usize,
    anew: u64,
}

impl Known {
    /// Nothing is known, and about so many words of four bytes may be kept. What comes later is read without being kept, and no
    /// slower than a first time. Takes no memory.
    pub fn new(alloc: Global, words: usize) -> Known
        ensures { (t : Tabled) → Knows t result }
    {
        Known {
            alloc,
            layers: NumberedLists::new(alloc),
            entries: Entries::new(alloc, Classes::one()),
            steps: KnownSteps::new(alloc),
            stays: ByteSet::empty(),
            left: words,
            anew: 0,
        }
    }

    /// How many programs of layers are kept.
    pub fn programs(&self) -> usize
        ensures { result ≡ length self.now.steps }
    {
        self.steps.len()
    }

    /// Whether more of whole layers may be kept.
    pub(crate) fn has_room(&self) -> bool {
        self.left >= MOST_LAYER_WORDS
    }

    /// How many bytes were read set by set, since nothing was known of them.
    pub fn anew(&self) -> u64
        ensures { result ≡ self.now.anew }
    {
        self.anew
    }

    /// What is entered for a byte of a layer.
    #[inline(always)]
    pub(crate) fn entry(&self, layer: usize, byte: u8) -> Entry
        requires { layer < length self.now.layers }
        ensures { (t : Tabled) → Knows t self.now → IsEntry t self.now.layers self.now.steps byte (layer_at self.now.layers layer) result }
    {
        self.entries.at(layer, byte)
    }

    /// Keeps what the layer of a number does on a byte, which has been asked of each of its sets, and where the graph
    /// stands now.
    pub(crate) fn note(
        &mut self,
        table: &Table<'_>,
        graph: &OutputGraph,
        before: Option<usize>,
        byte: u8,
    ) -> Option<usize>
        requires known { Knows table.now self.old }
        requires given { AreGiven table.now graph.now }
        requires fresh { graph.now.stepped ≡ 0 }
        ensures known { Knows table.now self.new }
        ensures stands { Stands table.now graph.now self.new result }
    {
        self.anew = self.anew.saturating_add(1);
        if let Some(layer) = before {
            self.learn(table, layer, byte);
        }
        self.stand(table, graph)
    }

    /// The number of the graph's layer. If it has none, the bytes on which the layer stays are kept.
    pub(crate) fn stand(&mut self, table: &Table<'_>, graph: &OutputGraph) -> Option<usize>
        requires known { Knows table.now self.old }
        requires given { AreGiven table.now graph.now }
        requires fresh { graph.now.stepped ≡ 0 }
        ensures known { Knows table.now self.new }
        ensures stands { Stands table.now graph.now self.new result }
    {
        if let Some(layer) = self.locate(table, graph) {
            return Some(layer);
        }
        self.stays = stays_of(table, graph);
        None
    }

    /// The number of the graph's layer, if it is kept.
    fn locate(&mut self, table: &Table<'_>, graph: &OutputGraph) -> Option<usize>
        ensures keeps { KeepsKnown self.old self.new }
        ensures number { IfSome result (λ k. slice_get self.new.layers k ≡ Some (sets_of graph.now.layer)) }
    {
        if graph.layer_len() > MOST_SETS || self.left < MOST_LAYER_WORDS {
            return None;
        }
        self.begin(table);
        match sets_in(self.alloc, graph) {
            Ok(sets) => self.number(sets),
            Err(_) => None,
        }
    }

    /// Sorts bytes into classes, if no layer is kept yet.
    fn begin(&mut self, table: &Table<'_>)
        ensures keeps { KeepsKnown self.old self.new }
    {
        if self.layers.len() == 0 {
            self.entries = Entries::new(self.alloc, Classes::of_ways(self.alloc, table.ways()));
        }
    }

    /// The number of the layer of these sets, if it is kept.
    fn number(&mut self, sets: Vec<u32>) -> Option<usize>
        ensures keeps { KeepsKnown self.old self.new }
        ensures layers { KeepsLayers self.old self.new }
        ensures number { IfSome result (λ k. slice_get self.new.layers k ≡ Some sets.items) }
    {
        let size = self.entries.layer_words() + sets.len();
        if self.left < size {
            return None;
        }
        let known = self.layers.len();
        let number = match self.layers.number_of(sets) {
            Ok(number) => number,
            Err(_) => return None,
        };
        if number < known {
            return Some(number);
        }
        self.left -= size;
        self.entries.make_room(self.layers.len());
        Some(number)
    }

    /// Keeps what the layer of a number does on a byte, if each of its sets has been asked for it.
    fn learn(&mut self, table: &Table<'_>, layer: usize, byte: u8)
        requires { Knows table.now self.old }
        ensures { Knows table.now self.new }
    {
        if self.layers.len() <= layer {
            return;
        }
        match self.entries.like(layer, byte) {
            Some(other) => self.learn_alike(table, layer, byte, other),
            None => self.learn_first(table, layer, byte),
        }
    }

    /// Keeps that a layer does on a byte what it does on another, if each of its sets has been asked for it and has the same
    /// edges on both.
    fn learn_alike(&mut self, table: &Table<'_>, layer: usize, byte: u8, other: u8)
        requires known { Knows table.now self.old }
        requires within { layer < length self.old.layers }
        ensures { Knows table.now self.new }
    {
        if are_alike(table, self.layers.at(layer), byte, other) {
            let entry = self.entries.at(layer, other);
            self.enter(table, layer, byte, entry);
        }
    }

    /// As `learn`, where nothing is entered for the class of the byte.
    fn learn_first(&mut self, table: &Table<'_>, layer: usize, byte: u8)
        requires known { Knows table.now self.old }
        requires within { layer < length self.old.layers }
        ensures { Knows table.now self.new }
    {
        if let Some(to) = handed_on(self.alloc, table, self.layers.at(layer), byte) {
            self.learn_glide(table, layer, byte, to);
            return;
        }
        if !self.has_room_for(table, layer, byte) {
            return;
        }
        if let Some(program) = program_of(self.alloc, table, self.layers.at(layer), byte) {
            self.learn_step(table, layer, byte, &program);
        }
    }

    /// Keeps that the sets of a layer hand their cells on, on a byte, to these.
    fn learn_glide(&mut self, table: &Table<'_>, layer: usize, byte: u8, to: Vec<u32>)
        requires known { Knows table.now self.old }
        requires within { layer < length self.old.layers }
        requires look_ups { AreLookUps table.now byte (layer_at self.old.layers layer) (handing to.items) }
        requires distinct { AreDistinct to.items }
        ensures { Knows table.now self.new }
    {
        if are_same(&to, self.layers.at(layer)) {
            self.enter_glide(table, layer, byte, layer);
            return;
        }
        let Some(next) = self.number(to) else {
            return;
        };
        self.enter_glide(table, layer, byte, next);
    }

    /// Enters that the sets of a layer hand their cells on, on a byte, to those of another, or of itself.
    fn enter_glide(&mut self, table: &Table<'_>, layer: usize, byte: u8, next: usize)
        requires known { Knows table.now self.old }
        requires within { layer < length self.old.layers }
        requires glide { IsGlide table.now self.old.layers byte (layer_at self.old.layers layer) next }
        ensures { Knows table.now self.new }
    {
        if let Ok(number) = u32::try_from(next) {
            self.enter(table, layer, byte, Entry::Glide(number));
        }
    }

    /// Whether a program of the layer of a number on a byte may be kept, by the number of its edges: so none is made to be
    /// let go.
    fn has_room_for(&self, table: &Table<'_>, layer: usize, byte: u8) -> bool
        requires { layer < length self.now.layers }
    {
        let sets = self.layers.at(layer);
        step_words(edges_on(table, sets, byte), sets.len()) <= self.left
    }

    /// Keeps a program of a layer on a byte.
    fn learn_step(&mut self, table: &Table<'_>, layer: usize, byte: u8, program: &Program)
        requires known { Knows table.now self.old }
        requires within { layer < length self.old.layers }
        requires look_ups { AreLookUps table.now byte (layer_at self.old.layers layer) program.now.groups }
        ensures { Knows table.now self.new }
    {
        let size = step_words(program.edges(), program.sources());
        if self.left < size {
            return;
        }
        self.left -= size;
        let Ok(sets) = copied(self.alloc, program.targets()) else {
            return;
        };
        let Some(next) = self.number(sets) else {
            return;
        };
        self.add_step(table, layer, byte, program, next);
    }

    /// Keeps what a layer does on a byte, where there is memory.
    fn add_step(
        &mut self,
        table: &Table<'_>,
        layer: usize,
        byte: u8,
        program: &Program,
        next: usize,
    )
        requires known { Knows table.now self.old }
        requires within { layer < length self.old.layers }
        requires step { IsStepOf table.now self.old.layers byte (layer_at self.old.layers layer) (known_step_of program.now next) }
        ensures { Knows table.now self.new }
    {
        let place = self.steps.len();
        if place >= MOST_WORDS {
            return;
        }
        match self.steps.add(program, next) {
            Ok(()) => self.enter(table, layer, byte, Entry::Run(place as u32)),
            Err(_) => {}
        }
    }

    /// Enters what is known of a byte of a layer, where there is room for it.
    fn enter(&mut self, table: &Table<'_>, layer: usize, byte: u8, entry: Entry)
        requires known { Knows table.now self.old }
        requires within { layer < length self.old.layers }
        requires entry { IsEntry table.now self.old.layers self.old.steps byte (layer_at self.old.layers layer) entry }
        ensures { Knows table.now self.new }
    {
        self.entries.enter(layer, byte, entry);
    }
}

/// How many words a program of so many edges and sources takes, about.
fn step_words(edges: usize, sources: usize) -> usize {
    STEP_WORDS + 8 * edges.min(MOST_WORDS) + 4 * sources.min(MOST_WORDS)
}

/// How many edges these sets have on a byte, of those that were asked for it.
fn edges_on(table: &Table<'_>, sets: &[u32], byte: u8) -> usize {
    let mut edges = 0usize;
    for set in sets {
        if let Some(row) = table.asked_row(*set, byte) {
            edges = edges.saturating_add(row.len());
        }
    }
    edges
}

/// A copy of these numbers.
pub(crate) fn copied(alloc: Global, sets: &[u32]) -> Result<Vec<u32>, OutOfMemory>
    ensures { IfOk result (λ copy. copy.items ≡ sets.now) }
{
    let mut copy = Vec::new(alloc);
    copy.extend_from_slice(sets)?;
    Ok(copy)
}

/// The sets of the graph's layer, in their order.
fn sets_in(alloc: Global, graph: &OutputGraph) -> Result<Vec<u32>, OutOfMemory>
    ensures { IfOk result (λ sets. sets.items ≡ sets_of graph.now.layer) }
{
    let mut sets = Vec::new(alloc);
    for k in 0..graph.layer_len() {
        sets.push(graph.set_at(k))?;
    }
    Ok(sets)
}

/// The sets to which these sets hand their cells on, on a byte: each was asked for it and has one edge, without marks, and no
/// two lead to one set.
fn handed_on(alloc: Global, table: &Table<'_>, sets: &[u32], byte: u8) -> Option<Vec<u32>>
    ensures { IfSome result (λ to. AreLookUps table.now byte sets.now (handing to.items) × AreDistinct to.items) }
{
    let mut to = Vec::new(alloc);
    for set in sets {
        let next = handed_to(table, *set, byte)?;
        if has(&to, next) {
            return None;
        }
        if let Err(_) = to.push(next) {
            return None;
        }
    }
    Some(to)
}

/// The set to which a set hands its cell on, on a byte: it was asked for it and has one edge, without marks.
fn handed_to(table: &Table<'_>, set: u32, byte: u8) -> Option<u32>
    ensures { IfSome result (λ to. IsLookUp table.now byte set (handing_to to)) }
{
    let edges = table.asked_row(set, byte)?;
    if edges.len() != 1 {
        return None;
    }
    let edge = edges[0];
    if !edge.marks.is_none() {
        return None;
    }
    Some(edge.to)
}

/// Whether these are the same sets, in the same order.
fn are_same(sets: &[u32], others: &[u32]) -> bool
    ensures { IsTrue result → sets.now ≡ others.now }
{
    sets == others
}

/// Whether each of these sets was asked for the byte, and has the same edges on it as on the other.
fn are_alike(table: &Table<'_>, sets: &[u32], byte: u8, other: u8) -> bool
    ensures { IsTrue result → AreAlike table.now byte other sets.now }
{
    for set in sets {
        if !is_alike(table, *set, byte, other) {
            return false;
        }
    }
    true
}

/// Whether a set was asked for the byte, and has the same edges on it as on the other.
fn is_alike(table: &Table<'_>, set: u32, byte: u8, other: u8) -> bool
    ensures { IsTrue result → AreAlike table.now byte other (set ∷ []) }
{
    let Some(edges) = table.asked_row(set, byte) else {
        return false;
    };
    match table.asked_row(set, other) {
        Some(others) => edges == others,
        None => false,
    }
}

/// The program of these sets on a byte, if each of them was asked for it.
fn program_of(alloc: Global, table: &Table<'_>, sets: &[u32], byte: u8) -> Option<Program>
    ensures { IfSome result (λ p. AreLookUps table.now byte sets.now p.groups) }
{
    let mut program = Program::new(alloc);
    for set in sets {
        program = with_look_up(program, table, *set, byte)?;
    }
    Some(program)
}

/// The program with the edges of one set more, if it was asked for the byte.
fn with_look_up(program: Program, table: &Table<'_>, set: u32, byte: u8) -> Option<Program>
    ensures { IfSome result (λ p. (group : Edges) × IsLookUp table.now byte set group × (p.groups ≡ program.groups ++ group ∷ [])) }
{
    let edges = table.asked_row(set, byte)?;
    match program.with_source(edges) {
        Ok(program) => Some(program),
        Err(_) => None,
    }
}
