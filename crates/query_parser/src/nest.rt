//! What has been read of a query before a place of its text.
//!
//! A frame for each open parenthesis keeps the unions and joins that stand whole so far, and what a projection before
//! it keeps. The last thing read decides what may come next.
ghost use Rattle.std.specs.Prelude.{◌≡◌, ◌++◌, [], ◌∷◌, ◌<◌, OnOk, IfOk};
ghost use Rattle.std.specs.Option.{option_map};
ghost use Rattle.query_parser.specs.declared.TheConstants.{MOST_MINUSES};
ghost use Rattle.spanner_model.specs.ExprView.{expr_of, exprs_of};
ghost use Rattle.query_parser.specs.Reads.{is_whole};
ghost use Rattle.query_parser.specs.Nest.{reading_of, outermost, empty_frame, whole_conj, less, whole_expr, whole, keeping, closed, next_unit, next_conj, next_side, opened, wants_unit};
ghost use Rattle.query_parser.specs.View.{frame_of, last_of, nest_of};

use crate::named::Named;
use span_core::{Name, OutOfMemory, VarSet};
use spanner_model::{Expr, Exprs};
use std::alloc::Global;
use std::mem;

/// What an open parenthesis keeps, where it is that of a projection; the conjunctions that stand whole
/// since then, what the last one is to be taken from, and the units before the last one.
#[derive(Drop)]
pub(crate) struct Frame {
    pub(crate) names: Option<VarSet>,
    pub(crate) conjs: Exprs,
    pub(crate) left: Option<Expr>,
    pub(crate) units: Exprs,
}

/// The last thing read.
#[derive(Drop)]
pub(crate) enum Last {
    /// Nothing since the start, or since the end of a let.
    Start,
    Let,
    /// The name of a let.
    LetName,
    /// Something that a unit has to follow.
    Before,
    Unit(Expr),
    Project,
    KeepNone,
    /// A name that a projection keeps.
    Kept,
    /// A comma after such a name.
    Comma,
}

#[derive(Drop)]
pub(crate) struct Nest {
    pub(crate) named: Named,
    /// The name of the let that is being read.
    pub(crate) current: Option<Name>,
    /// The frames that are open, the innermost apart from the others.
    pub(crate) below: Vec<Frame>,
    pub(crate) top: Frame,
    pub(crate) last: Last,
    /// The names that the projection keeps whose names are being read.
    pub(crate) names: VarSet,
    /// Whether some projection keeps too many names.
    pub(crate) many: bool,
    /// The signs `minus` so far.
    pub(crate) minuses: usize,
}

/// The conjunction of these units and a last one.
fn whole_conj(units: Exprs, last: Expr) -> Result<Expr, OutOfMemory>
    ensures { IfOk result (λ e. expr_of e ≡ whole_conj (exprs_of units) (expr_of last)) }
{
    if units.len() > 0 {
        let mut units = units;
        units.add(last)?;
        return Ok(Expr::Join(units));
    }
    Ok(last)
}

/// A conjunction, taken from what stands before it where that is there.
fn less(alloc: Global, left: Option<Expr>, conj: Expr) -> Result<Expr, OutOfMemory>
    ensures { IfOk result (λ e. expr_of e ≡ less (option_map expr_of left) (expr_of conj)) }
{
    let Some(left) = left else {
        return Ok(conj);
    };
    match (Box::new(alloc, left), Box::new(alloc, conj)) {
        (Ok(left), Ok(conj)) => Ok(Expr::Minus(left, conj)),
        _ => Err(OutOfMemory),
    }
}

/// The expression of these conjunctions and a last one.
fn whole_expr(conjs: Exprs, last: Expr) -> Result<Expr, OutOfMemory>
    ensures { IfOk result (λ e. expr_of e ≡ whole_expr (exprs_of conjs) (expr_of last)) }
{
    if conjs.len() > 0 {
        let mut conjs = conjs;
        conjs.add(last)?;
        return Ok(Expr::Union(conjs));
    }
    Ok(last)
}

/// What a projection, or a group, has of an expression.
fn keeping(alloc: Global, names: Option<VarSet>, expr: Expr) -> Result<Expr, OutOfMemory>
    ensures { IfOk result (λ e. expr_of e ≡ keeping names (expr_of expr)) }
{
    match names {
        None => Ok(expr),
        Some(names) => match Box::new(alloc, expr) {
            Ok(sub) => Ok(Expr::Project(names, sub)),
            Err(_) => Err(OutOfMemory),
        },
    }
}

impl Frame {
    pub(crate) fn new(alloc: Global, names: Option<VarSet>) -> Frame
        ensures { frame_of result ≡ empty_frame names }
    {
        Frame {
            names,
            conjs: Exprs::new(alloc),
            left: None,
            units: Exprs::new(alloc),
        }
    }

    /// The expression in the frame, where this is its last unit.
    pub(crate) fn whole(self, alloc: Global, last: Expr) -> Result<Expr, OutOfMemory>
        ensures { IfOk result (λ e. expr_of e ≡ whole (frame_of self) (expr_of last)) }
    {
        let conj = whole_conj(self.units, last)?;
        let part = less(alloc, self.left, conj)?;
        whole_expr(self.conjs, part)
    }

    /// What the frame is in the one around it.
    pub(crate) fn closed(self, alloc: Global, last: Expr) -> Result<Expr, OutOfMemory>
        ensures { IfOk result (λ e. expr_of e ≡ closed (frame_of self) (expr_of last)) }
    {
        let Frame {
            names,
            conjs,
            left,
            units,
        } = self;
        let conj = whole_conj(units, last)?;
        let part = less(alloc, left, conj)?;
        let expr = whole_expr(conjs, part)?;
        keeping(alloc, names, expr)
    }
}

impl Nest {
    pub(crate) fn new(alloc: Global) -> Nest
        ensures { nest_of result ≡ outermost }
    {
        Nest {
            named: Named::new(alloc),
            current: None,
            below: Vec::new(alloc),
            top: Frame::new(alloc, None),
            last: Last::Start,
            names: VarSet::empty(),
            many: false,
            minuses: 0,
        }
    }

    /// Whether a unit is due.
    pub(crate) fn wants_unit(&self) -> bool
        ensures { result ≡ wants_unit (last_of self.now.names self.now.last) }
    {
        matches!(self.last, Last::Start | Last::Before)
    }

    /// Whether a query may end here.
    pub(crate) fn is_whole(&self) -> bool
        ensures { result ≡ is_whole (reading_of (nest_of self.now)) }
    {
        matches!(self.last, Last::Unit(_)) && self.below.is_empty() && self.current.is_none()
    }

    /// A `join` after this unit.
    pub(crate) fn next_unit(&mut self, unit: Expr) -> Result<(), OutOfMemory>
        ensures { OnOk result (nest_of self.new ≡ next_unit (expr_of unit) (nest_of self.old)) }
    {
        self.last = Last::Before;
        self.top.units.add(unit)
    }

    /// A `union` after this unit.
    pub(crate) fn next_conj(&mut self, alloc: Global, unit: Expr) -> Result<(), OutOfMemory>
        ensures { OnOk result (nest_of self.new ≡ next_conj (expr_of unit) (nest_of self.old)) }
    {
        self.last = Last::Before;
        let units = mem::replace(&mut self.top.units, Exprs::new(alloc));
        let left = mem::replace(&mut self.top.left, None);
        let conj = whole_conj(units, unit)?;
        let part = less(alloc, left, conj)?;
        self.top.conjs.add(part)
    }

    /// A `minus` after this unit.
    pub(crate) fn next_side(&mut self, alloc: Global, unit: Expr) -> Result<(), OutOfMemory>
        requires { self.old.minuses < MOST_MINUSES }
        ensures { OnOk result (nest_of self.new ≡ next_side (expr_of unit) (nest_of self.old)) }
    {
        self.last = Last::Before;
        self.minuses += 1;
        let names = mem::replace(&mut self.top.names, None);
        let top = mem::replace(&mut self.top, Frame::new(alloc, names));
        self.top.left = Some(top.whole(alloc, unit)?);
        Ok(())
    }

    /// A parenthesis, which keeps these names where it is that of a projection.
    pub(crate) fn open(&mut self, alloc: Global, names: Option<VarSet>) -> Result<(), OutOfMemory>
        ensures { OnOk result (nest_of self.new ≡ opened names (nest_of self.old)) }
    {
        self.last = Last::Before;
        let outer = mem::replace(&mut self.top, Frame::new(alloc, names));
        match self.below.push(outer) {
            Ok(()) => Ok(()),
            Err(_) => Err(OutOfMemory),
        }
    }
}
