//! The automata of expressions, by recursion.
//!
//! Unions grow in place behind their first part, joins are trimmed as they are made. What is held while further parts
//! are compiled is counted, and so is all that is made, against two guards. An automaton is a kilobyte and more, with the
//! names of its variables: it is made in a method of its own, apart from the recursion, which keeps pointers alone, so
//! that the stack that an expression takes is small however deep it nests.
ghost use Rattle.std.specs.Prelude.{◌≡◌, ℕ, ◌+◌, ◌*◌, ◌<◌, ◌≤◌, ◌++◌, [], ◌∷◌, length, slice_get, Some, IfOk, IfErr, OnOk};
ghost use Rattle.span_core.specs.declared.TheConstants.{MOST_VARIABLES};
ghost use Rattle.spanner_model.specs.Captures.{VarName};
ghost use Rattle.spanner_model.specs.Expression.{atom as atom_expr, join_all, union_all};
ghost use Rattle.spanner_model.specs.ExprView.{expr_of, exprs_of, query_of};
ghost use Rattle.spanner_model.specs.Sequential.{HasVar, IsSequential};
ghost use Rattle.spanner_model.specs.Sound.{IsSound};
ghost use Rattle.span_core.specs.Lists.{AtMost, Has};
ghost use Rattle.spanner_model.specs.View.{tree_of, atom_of};
ghost use Rattle.spanner_model.specs.WellBuilt.{IsWellBuilt};
ghost use Rattle.marked_automaton.specs.Automaton.{IsMarked, size};
ghost use Rattle.marked_automaton.specs.Faults.{IsSizeFaultWithin};
ghost use Rattle.marked_automaton.specs.Marks.{left_of, remarked};
ghost use Rattle.marked_automaton.specs.Reduct.{Reduces, ReducesMarked};
ghost use Rattle.algebra.specs.JoinedNames.{all_names};
ghost use Rattle.query_automaton.specs.BegunQuery.{CanCompile, HasCauseBeside, HasCauseIn, IsCompiledIn, TakesIn};
ghost use Rattle.query_automaton.specs.Compiling.{AreCompiled};
ghost use Rattle.query_automaton.specs.Held.{HasCause, IsHoldFault, IsWithin};
ghost use Rattle.query_automaton.specs.Steps.{join_steps, minus_steps, steps_of_lets, union_steps};
ghost use Rattle.query_automaton.specs.Told.{IsTold};
ghost use Rattle.query_automaton.specs.declared.effort.TheConstants.{MOST_STEPS};
ghost use Rattle.query_automaton.specs.QueryAutomaton.{of_join, of_minus, of_union};

use crate::effort::{hold, spend};
use crate::fault::CompileFault;
use crate::shared::Shared;
use algebra::{Effort, join_with_cause, project, unite};
use algebra_minus::minus_with_cause;
use marked_automaton::{Automaton, MOST_STATES, SizeFault};
use place_automaton::automaton_of;
use span_core::{MOST_VARIABLES, OutOfMemory, VarSet};
use spanner_model::{Atom, Expr, Exprs, Query};
use std::alloc::Global;
use std::marker::Model;

/// What the expressions of a query are compiled with: the query, the automata of its first `let`s, and how much is
/// held. It is seen as the query with these automata, and with what is held.
#[derive(Drop)]
pub struct Compiler<'q> {
    alloc: Global,
    query: &'q Query,
    lets: Vec<Shared>,
    /// The states, ways and ends that are held: those of the `let`s, and of the parts that wait.
    held: u64,
}

impl<'q> Model for Compiler<'q> {
    ghost use Rattle.query_automaton.specs.BegunQuery.{BegunQuery, begun_code};

    ghost Value = { BegunQuery };

    ghost coded = { begun_code };

    ghost view = { λ c. record {
      query = c.query.now;
      lets = c.lets.items;
      held = c.held;
    } };
}

impl<'q> Compiler<'q> {
    /// Nothing is compiled yet.
    pub fn new(alloc: Global, query: &'q Query) -> Compiler<'q>
        ensures query { result.query ≡ query.now }
        ensures lets { result.lets ≡ [] }
        ensures held { result.held ≡ 0 }
    {
        Compiler {
            alloc,
            query,
            lets: Vec::new(alloc),
            held: 0,
        }
    }

    /// Compiles the `let`s, in their order; their automata count as held.
    pub fn compile_lets(&mut self, effort: &mut Effort) -> Result<(), CompileFault>
        requires sound { IsSound (query_of self.old.query) }
        requires none { self.old.lets ≡ [] }
        requires nothing { self.old.held ≡ 0 }
        requires all { effort.old ≡ MOST_STEPS }
        ensures query { self.new.query ≡ self.old.query }
        ensures long { OnOk result (length self.new.lets ≡ length (query_of self.old.query).lets) }
        ensures made { OnOk result (AreCompiled (query_of self.old.query) self.new.lets) }
        ensures held { OnOk result ((most : ℕ) → IsWithin (query_of self.old.query) most →
            self.new.held ≤ length (query_of self.old.query).lets * most) }
        ensures steps { OnOk result ((most : ℕ) → IsWithin (query_of self.old.query) most →
            MOST_STEPS ≤ effort.new + steps_of_lets most (query_of self.old.query).lets) }
        ensures fault { IfErr result (HasCause (query_of self.old.query)) }
    {
        let query = self.query;
        for k in 0..query.lets.len() {
            let automaton = self.expression(&query.lets.at(k).1, effort)?;
            self.keep(automaton)?;
        }
        Ok(())
    }

    /// Keeps the automaton of one `let` more, which counts as held.
    fn keep(&mut self, automaton: Shared) -> Result<(), CompileFault>
        ensures query { self.new.query ≡ self.old.query }
        ensures lets { OnOk result (self.new.lets ≡ self.old.lets ++ automaton ∷ []) }
        ensures marked { IsMarked automaton }
        ensures held { OnOk result (self.new.held ≤ self.old.held + size automaton.graph) }
        ensures fault { IfErr result (IsHoldFault (self.old.held + size automaton.graph)) }
    {
        self.held = hold(self.held, automaton.own_size())?;
        self.lets.push(automaton)?;
        Ok(())
    }

    /// The automaton of an expression of the query.
    #[cycle(compiling)]
    pub fn expression(&mut self, expr: &Expr, effort: &mut Effort) -> Result<Shared, CompileFault>
        requires { CanCompile self.old (expr_of expr.now) }
        ensures same { self.new ≡ self.old }
        ensures made { IfOk result (IsCompiledIn self.old (expr_of expr.now)) }
        ensures steps { OnOk result (TakesIn self.old (expr_of expr.now) effort.old effort.new) }
        ensures fault { IfErr result (HasCauseIn self.old effort.old (expr_of expr.now)) }
    {
        match expr {
            Expr::Atom(atom) => self.atom(atom, effort),
            Expr::Named(k) => Ok(self.named(*k)?),
            Expr::Union(parts) => self.union(parts, effort),
            Expr::Join(parts) => self.join(parts, effort),
            Expr::Project(names, sub) => {
                let inner = self.expression(sub, effort)?;
                Ok(self.projected(inner, names, effort)?)
            }
            Expr::Minus(left, right) => {
                let first = self.expression(left, effort)?;
                let second = self.beside(&first, right, effort)?;
                Ok(self.differing(first.as_automaton(), second.as_automaton(), effort)?)
            }
        }
    }

    /// The automaton of an expression that is compiled while another waits, which counts as held.
    #[cycle(compiling)]
    fn beside(
        &mut self,
        waiting: &Shared,
        expr: &Expr,
        effort: &mut Effort,
    ) -> Result<Shared, CompileFault>
        requires { CanCompile self.old (expr_of expr.now) }
        ensures same { self.new ≡ self.old }
        ensures made { IfOk result (IsCompiledIn self.old (expr_of expr.now)) }
        ensures steps { OnOk result (TakesIn self.old (expr_of expr.now) effort.old effort.new) }
        ensures marked { IsMarked waiting.now }
        ensures fault { IfErr result (HasCauseBeside self.old waiting.now effort.old (expr_of expr.now)) }
    {
        let held = self.held;
        self.held = hold(held, waiting.own_size())?;
        let made = self.expression(expr, effort);
        self.held = held;
        made
    }

    /// The automaton of a union, each part put behind those before it.
    #[cycle(compiling)]
    fn union(&mut self, parts: &Exprs, effort: &mut Effort) -> Result<Shared, CompileFault>
        requires { CanCompile self.old (union_all (exprs_of parts.now)) }
        ensures same { self.new ≡ self.old }
        ensures made { IfOk result (IsCompiledIn self.old (union_all (exprs_of parts.now))) }
        ensures steps { OnOk result (TakesIn self.old (union_all (exprs_of parts.now)) effort.old effort.new) }
        ensures fault { IfErr result (HasCauseIn self.old effort.old (union_all (exprs_of parts.now))) }
    {
        let mut all = self.expression(parts.at(0), effort)?;
        spend(effort, all.as_automaton())?;
        for k in 1..parts.len() {
            let part = self.beside(&all, parts.at(k), effort)?;
            all = self.united(all, part.as_automaton(), effort)?;
        }
        Ok(all)
    }

    /// The automaton of a join, its parts taken from left to right.
    #[cycle(compiling)]
    fn join(&mut self, parts: &Exprs, effort: &mut Effort) -> Result<Shared, CompileFault>
        requires { CanCompile self.old (join_all (exprs_of parts.now)) }
        ensures same { self.new ≡ self.old }
        ensures made { IfOk result (IsCompiledIn self.old (join_all (exprs_of parts.now))) }
        ensures steps { OnOk result (TakesIn self.old (join_all (exprs_of parts.now)) effort.old effort.new) }
        ensures fault { IfErr result (HasCauseIn self.old effort.old (join_all (exprs_of parts.now))) }
    {
        let mut all = self.expression(parts.at(0), effort)?;
        for k in 1..parts.len() {
            let part = self.beside(&all, parts.at(k), effort)?;
            all = self.joined(all.as_automaton(), part.as_automaton(), effort)?;
        }
        Ok(all)
    }

    /// The automaton of an atom, with what leads to no end left out.
    #[inline(never)]
    fn atom(&mut self, atom: &Atom, effort: &mut Effort) -> Result<Shared, CompileFault>
        requires built { IsWellBuilt (tree_of atom.now.formula) }
        requires sequential { IsSequential (tree_of atom.now.formula) }
        requires few { AtMost MOST_VARIABLES (HasVar (tree_of atom.now.formula)) }
        ensures same { self.new ≡ self.old }
        ensures made { IfOk result (IsCompiledIn self.old (atom_expr (atom_of atom.now))) }
        ensures steps { OnOk result (TakesIn self.old (atom_expr (atom_of atom.now)) effort.old effort.new) }
        ensures fault { IfErr result (HasCauseIn self.old effort.old (atom_expr (atom_of atom.now))) }
    {
        let whole = automaton_of(self.alloc, atom)?;
        spend(effort, &whole)?;
        Ok(Shared::new(self.alloc, whole.trim(self.alloc)?)?)
    }

    /// The automaton of a `let`, with one owner more.
    fn named(&self, k: u32) -> Result<Shared, OutOfMemory>
        requires { k < length self.now.lets }
        ensures { IfOk result (λ a. slice_get self.now.lets k ≡ Some a) }
    {
        Ok(self.lets[k as usize].share()?)
    }

    /// What is left of an automaton on the kept variables. Where these are all that it has, it is the
    /// automaton itself, and nothing is copied.
    #[inline(never)]
    fn projected(
        &mut self,
        inner: Shared,
        names: &VarSet,
        effort: &mut Effort,
    ) -> Result<Shared, CompileFault>
        requires { (x : VarName) → Has names.now x → Has inner.names x }
        ensures same { self.new ≡ self.old }
        ensures names { IfOk result (λ p. p.names ≡ names.now) }
        ensures reduct { IfOk result (λ p. Reduces p.graph (remarked (left_of inner.names names.now) inner.graph)) }
        ensures marked { IsMarked inner }
        ensures steps { OnOk result (effort.old ≤ effort.new + 64 * size inner.graph) }
        ensures fault { IfErr result (IsTold (λ fault. fault ≡ SizeFault.OutOfMemory) 0 effort.old (64 * size inner.graph)) }
    {
        let whole = inner.as_automaton();
        prove!(whole.states() <= MOST_STATES);
        if names.len() == whole.vars().len() {
            return Ok(inner);
        }
        spend(effort, whole)?;
        Ok(Shared::new(self.alloc, project(self.alloc, whole, names)?)?)
    }

    /// The union of the parts so far with one part more, made in place; what a `let` has is copied.
    #[inline(never)]
    fn united(
        &mut self,
        all: Shared,
        part: &Automaton,
        effort: &mut Effort,
    ) -> Result<Shared, CompileFault>
        requires { length (all_names all.names part.now.names) ≤ MOST_VARIABLES }
        ensures same { self.new ≡ self.old }
        ensures marked { IsMarked all × IsMarked part.now }
        ensures made { IfOk result (λ both. ReducesMarked both (of_union all part.now)) }
        ensures steps { OnOk result (effort.old ≤ effort.new + union_steps all part.now) }
        ensures fault { IfErr result (IsTold
            (IsSizeFaultWithin (of_union all part.now).graph.states (length (of_union all part.now).graph.ways))
            (length (of_union all part.now).graph.stops) effort.old (union_steps all part.now)) }
    {
        let own = all.as_automaton();
        prove!(own.states() <= MOST_STATES);
        spend(effort, part)?;
        let before = own.vars().len();
        let both = unite(self.alloc, all.take(self.alloc)?, part)?;
        // Over more variables each way is marked anew.
        if both.vars().len() > before {
            spend(effort, &both)?;
        }
        Ok(Shared::new(self.alloc, both)?)
    }

    /// The join of the parts so far with one part more, with what leads to no end left out.
    #[inline(never)]
    fn joined(
        &mut self,
        all: &Automaton,
        part: &Automaton,
        effort: &mut Effort,
    ) -> Result<Shared, CompileFault>
        requires { length (all_names all.now.names part.now.names) ≤ MOST_VARIABLES }
        ensures same { self.new ≡ self.old }
        ensures marked { IsMarked all.now × IsMarked part.now }
        ensures made { IfOk result (λ both. ReducesMarked both (of_join all.now part.now)) }
        ensures steps { OnOk result (effort.old ≤ effort.new + join_steps all.now part.now) }
        ensures fault { IfErr result (IsTold
            (IsSizeFaultWithin (of_join all.now part.now).graph.states (length (of_join all.now part.now).graph.ways))
            (length (of_join all.now part.now).graph.stops) effort.old (join_steps all.now part.now)) }
    {
        // The ways that it tries `join_with_cause` counts.
        effort.spend(u64::from(all.states()) + u64::from(part.states()));
        let pairs = join_with_cause(self.alloc, all, part, effort)?;
        spend(effort, &pairs)?;
        Ok(Shared::new(self.alloc, pairs.trim(self.alloc)?)?)
    }

    /// The difference of two parts, with what leads to no end left out.
    #[inline(never)]
    fn differing(
        &mut self,
        left: &Automaton,
        right: &Automaton,
        effort: &mut Effort,
    ) -> Result<Shared, CompileFault>
        requires { left.now.names ≡ right.now.names }
        ensures same { self.new ≡ self.old }
        ensures marked { IsMarked left.now × IsMarked right.now }
        ensures made { IfOk result (λ alone. ReducesMarked alone (of_minus left.now right.now)) }
        ensures steps { OnOk result (effort.old ≤ effort.new + minus_steps left.now right.now) }
        ensures fault { IfErr result (IsTold
            (IsSizeFaultWithin (of_minus left.now right.now).graph.states
            (length (of_minus left.now right.now).graph.ways)) 0 effort.old (minus_steps left.now right.now)) }
    {
        // What is tried `minus_with_cause` counts.
        effort.spend(u64::from(left.states()) + u64::from(right.states()));
        let alone = minus_with_cause(self.alloc, left, right, effort)?;
        spend(effort, &alone)?;
        Ok(Shared::new(self.alloc, alone.trim(self.alloc)?)?)
    }
}
