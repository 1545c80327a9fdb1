//! What a whole layer does on a byte, worked out once.
//!
//! A program lists the edges of each source and, worked out from them, what they do to cells: so that running it looks up
//! no set and touches no cell that is handed on. It goes where stepping the sources one after the other goes.
ghost use Rattle.std.specs.Prelude.{◌≡◌, ◌≤◌, ◌<◌, ◌+◌, [], ◌∷◌, ◌++◌, flat_map, length, slice_get, IfOk, OnOk};
ghost use Rattle.output_graph.specs.Source.{Descend};
ghost use Rattle.output_graph.specs.Sound.{edges_of};
ghost use Rattle.output_graph.specs.Plans.{HasEdge, HasEdges, IsPlan, hands_on, put, release_of};
ghost use Rattle.output_graph.specs.Programs.{cut, edges_in, place_in, steps_of, with_target};

use span_core::{Edge, Marks, OutOfMemory};
use std::alloc::Global;
use std::marker::Model;

/// An edge, with the place of its target in the next layer.
#[derive(Clone, Copy, Drop)]
pub(crate) struct Move {
    pub(crate) marks: Marks,
    pub(crate) to: u32,
    pub(crate) place: usize,
}

/// Where the cell of a place is while a program runs.
#[derive(Clone, Copy, Drop)]
pub(crate) enum Register {
    /// The cell of this source.
    Kept(u32),
    /// The cell that the program makes when it has made so many.
    Made(u32),
}

/// A cell to make: its marks, the source that it continues, and what its target has so far.
#[derive(Clone, Copy, Drop)]
pub(crate) struct Link {
    pub(crate) marks: Marks,
    pub(crate) from: u32,
    pub(crate) also: Option<Register>,
}

/// What is done to cells.
#[derive(Clone, Copy, Drop)]
pub(crate) enum Action {
    /// Makes a cell.
    Make(Link),
    /// Gives up the hold of this source.
    Release(u32),
}

/// The moves of each source, and what they do to cells: the actions in their order, and where the cell of each target is
/// behind them. A source that hands its cell on has no action.
#[derive(Drop)]
pub(crate) struct Plan {
    pub(crate) counts: Vec<usize>,
    pub(crate) moves: Vec<Move>,
    pub(crate) targets: Vec<u32>,
    pub(crate) actions: Vec<Action>,
    pub(crate) held: Vec<Register>,
    pub(crate) made: u32,
}

/// The edges of each source of a layer, in the order of the sources. What they do to cells is found once, when the program
/// is made, so that running it searches nothing.
#[derive(Drop)]
pub struct Program {
    pub(crate) plan: Plan,
}

impl Model for Program {
    ghost use Rattle.output_graph.specs.Programs.{Steps, cut, edges_in, steps_of};
    ghost use Rattle.output_graph.specs.Plans.{IsPlan};

    ghost Value = { Steps };

    ghost view = { λ p. steps_of (cut p.plan.counts.items (edges_in p.plan.moves.items)) p.plan.targets.items };

    ghost invariant = { λ p. IsPlan p.plan };
}

impl Program {
    /// The program of no source. Takes no memory.
    pub fn new(alloc: Global) -> Program
        ensures { result ≡ steps_of [] [] }
    {
        Program {
            plan: Plan {
                counts: Vec::new(alloc),
                moves: Vec::new(alloc),
                targets: Vec::new(alloc),
                actions: Vec::new(alloc),
                held: Vec::new(alloc),
                made: 0,
            },
        }
    }

    /// The program of one source more, the last.
    pub fn with_source(self, edges: &[Edge]) -> Result<Program, OutOfMemory>
        requires { Descend (edges_of edges.now) }
        ensures { IfOk result (λ p. p.groups ≡ self.groups ++ edges_of edges.now ∷ []) }
    {
        let Program { mut plan } = self;
        add_source(&mut plan, edges)?;
        Ok(Program { plan })
    }

    /// The number of sources.
    pub fn sources(&self) -> usize
        ensures { result ≡ length self.now.groups }
    {
        self.plan.counts.len()
    }

    /// The number of edges of all sources.
    pub fn edges(&self) -> usize
        ensures { result ≡ length (flat_map (λ es. es) self.now.groups) }
    {
        self.plan.moves.len()
    }

    /// The sets of the next layer, in their order.
    pub fn targets(&self) -> &[u32]
        ensures { result.now ≡ self.now.targets }
    {
        self.plan.targets.as_slice()
    }
}

/// One source more, the last.
fn add_source(plan: &mut Plan, edges: &[Edge]) -> Result<(), OutOfMemory>
    requires plan { IsPlan plan.old }
    requires descend { Descend (edges_of edges.now) }
    ensures plan { OnOk result (IsPlan plan.new) }
    ensures groups { OnOk result (cut plan.new.counts.items (edges_in plan.new.moves.items) ≡ cut plan.old.counts.items
        (edges_in plan.old.moves.items) ++ edges_of edges.now ∷ []) }
{
    let source = small(plan.counts.len())?;
    let kept = add_edges(plan, source, edges)?;
    add_release(&mut plan.actions, source, kept)?;
    plan.counts.push(edges.len())?;
    Ok(())
}

/// The end of a source, whose hold is given up unless its cell was handed on.
fn add_release(actions: &mut Vec<Action>, source: u32, kept: bool) -> Result<(), OutOfMemory>
    ensures { OnOk result (actions.new.items ≡ actions.old.items ++ release_of kept source) }
{
    if kept {
        return Ok(());
    }
    actions.push(Action::Release(source))?;
    Ok(())
}

/// The edges of a source, and whether its cell is handed on.
fn add_edges(plan: &mut Plan, source: u32, edges: &[Edge]) -> Result<bool, OutOfMemory>
    requires { plan.old.made ≤ length plan.old.actions.items }
    ensures { IfOk result (λ kept. HasEdges source plan.old edges.now plan.new kept) }
{
    let mut kept = false;
    for edge in edges {
        if add_edge(plan, source, *edge)? {
            kept = true;
        }
    }
    Ok(kept)
}

/// An edge of a source, and whether the source's cell is handed on.
fn add_edge(plan: &mut Plan, source: u32, edge: Edge) -> Result<bool, OutOfMemory>
    requires { plan.old.made ≤ length plan.old.actions.items }
    ensures { IfOk result (λ kept. HasEdge source plan.old edge plan.new kept) }
{
    let place = add_target(&mut plan.targets, edge.to)?;
    let step = Move {
        marks: edge.marks,
        to: edge.to,
        place,
    };
    let handed_on = is_handed_on(plan.held.as_slice(), &step);
    plan.moves.push(step)?;
    if handed_on {
        let _had = put_register(&mut plan.held, place, Register::Kept(source))?;
        return Ok(true);
    }
    let more = small(plan.made as usize + 1)?;
    let made = Register::Made(plan.made);
    let also = put_register(&mut plan.held, place, made)?;
    plan.actions.push(Action::Make(Link {
        marks: edge.marks,
        from: source,
        also,
    }))?;
    plan.made = more;
    Ok(false)
}

/// Whether a move hands the source's own cell on: it takes no marks, and its target has no cell.
fn is_handed_on(held: &[Register], step: &Move) -> bool
    ensures { result ≡ hands_on held.now step.now }
{
    step.marks.is_none() && step.place == held.len()
}

/// Gives a place this register, and tells which it had.
pub(crate) fn put_register(
    held: &mut Vec<Register>,
    place: usize,
    register: Register,
) -> Result<Option<Register>, OutOfMemory>
    ensures had { IfOk result (λ had. had ≡ slice_get held.old.items place) }
    ensures held { OnOk result (held.new.items ≡ put held.old.items place register) }
{
    if place < held.len() {
        let had = held[place];
        held[place] = register;
        return Ok(Some(had));
    }
    held.push(register)?;
    Ok(None)
}

/// The place of a target, which comes last where it is not there.
fn add_target(targets: &mut Vec<u32>, to: u32) -> Result<usize, OutOfMemory>
    ensures place { IfOk result (λ k. k ≡ place_in targets.old.items to) }
    ensures targets { OnOk result (targets.new.items ≡ with_target targets.old.items to) }
{
    let place = place_of(targets.as_slice(), to);
    if place == targets.len() {
        targets.push(to)?;
    }
    Ok(place)
}

/// The place of a set, or how many there are.
fn place_of(sets: &[u32], set: u32) -> usize
    ensures { result ≡ place_in sets.now set }
{
    for k in 0..sets.len() {
        if sets[k] == set {
            return k;
        }
    }
    sets.len()
}

/// A number, which must be less than 2^32.
pub(crate) fn small(number: usize) -> Result<u32, OutOfMemory>
    ensures { IfOk result (λ n. n ≡ number) }
{
    match u32::try_from(number) {
        Ok(number) => Ok(number),
        Err(_) => Err(OutOfMemory),
    }
}
