//! Queries compiled to automata.
//!
//! A compiled query keeps the query that it was made from, with the invariant that it is sound and that the automaton
//! reduces its own: so what reads by the automaton asks nothing of its caller.
ghost use Rattle.std.specs.Prelude.{◌≡◌, ℕ, ◌<◌, IfOk, IfErr, OnOk};
ghost use Rattle.spanner_model.specs.ExprView.{query_of};
ghost use Rattle.spanner_model.specs.Sound.{IsSound};
ghost use Rattle.marked_automaton.specs.Reduct.{IsUseful, ReducesMarked};
ghost use Rattle.query_automaton.specs.CompiledQuery.{IsCompiled};
ghost use Rattle.query_automaton.specs.Held.{HasCause};
ghost use Rattle.query_automaton.specs.Laws.{AcceptsAnswersOf};
ghost use Rattle.query_automaton.specs.Parts.{AtomsAreSmall, HasLargePart};
ghost use Rattle.query_automaton.specs.QueryAutomaton.{of_query};

use crate::effort::MOST_STEPS;
use crate::expressions::Compiler;
use crate::fault::CompileFault;
use algebra::Effort;
use marked_automaton::{Automaton, SizeFault};
use span_core::VarSet;
use spanner_model::Query;
use std::alloc::Global;
use std::marker::Model;

/// A sound query, and its automaton.
#[derive(Drop)]
pub struct Compiled<'q> {
    /// The query that it was made from, whose atoms a filter reads.
    query: &'q Query,
    automaton: Automaton,
}

impl<'q> Model for Compiled<'q> {
    ghost use Rattle.query_automaton.specs.CompiledQuery.{CompiledQuery, compiled_code};

    ghost Value = { CompiledQuery };

    ghost coded = { compiled_code };

    ghost use Rattle.spanner_model.specs.ExprView.{query_of};
    ghost use Rattle.query_automaton.specs.CompiledQuery.{IsCompiled};

    ghost view = { λ c. record {
      query = c.query.now;
      automaton = c.automaton;
    } };

    ghost invariant = { λ c. IsCompiled (query_of c.query.now) c.automaton };
}

/// The automaton of a sound query.
///
/// It compiles each `let` in its turn, used or not, and then the body. A `let`'s automaton is shared by the
/// expressions that name it. Unions and joins are made of their parts from left to right, and what leads to
/// no end is left out.
///
/// `States` and `Ways` come only where the automaton of some part of the query, with nothing left out, has
/// more states than `MOST_STATES`, or more ways than `MOST_WAYS`: the count that they tell is more than
/// that, and no more than the part's number. An atom's numbers are those that its formula is counted by. A query with an atom that is too large is always refused. The
/// automaton accepts the word of a row exactly where the row is an answer, and no other word; each of its
/// states lies between a start and an end.
pub fn compile<'q>(alloc: Global, query: &'q Query) -> Result<Compiled<'q>, SizeFault>
    requires { IsSound (query_of query.now) }
    ensures made { IfOk result (λ c. ReducesMarked c.automaton (of_query (query_of query.now))) }
    ensures words { IfOk result (λ c. AcceptsAnswersOf (query_of query.now) c.automaton) }
    ensures useful { IfOk result (λ c. (p : ℕ) → p < c.automaton.graph.states → IsUseful c.automaton.graph p) }
    ensures query { IfOk result (λ c. c.query ≡ query.now) }
    ensures small { OnOk result (AtomsAreSmall (query_of query.now)) }
    ensures fault { IfErr result (HasLargePart (query_of query.now)) }
{
    match compile_with_cause(alloc, query) {
        Ok(compiled) => Ok(compiled),
        Err(CompileFault::Size(fault)) => Err(fault),
        Err(CompileFault::Held { .. } | CompileFault::Ends { .. } | CompileFault::Spent) => {
            Err(SizeFault::OutOfMemory)
        }
    }
}

/// What `compile` makes. `CompileFault::Held` comes only where more than `MOST_HELD` states, ways and ends would be held:
/// the count that it tells is more than that. It is no more than the numbers of the largest part of the query, as often as
/// there are `let`s and parts that wait at one time. `CompileFault::Ends` comes only where
/// the automaton of an atom or of a join has too many ends. `CompileFault::Spent` comes only where `MOST_STEPS` steps are
/// taken: they are no more than the numbers of the largest part allow.
pub fn compile_with_cause<'q>(alloc: Global, query: &'q Query) -> Result<Compiled<'q>, CompileFault>
    requires { IsSound (query_of query.now) }
    ensures made { IfOk result (λ c. ReducesMarked c.automaton (of_query (query_of query.now))) }
    ensures words { IfOk result (λ c. AcceptsAnswersOf (query_of query.now) c.automaton) }
    ensures useful { IfOk result (λ c. (p : ℕ) → p < c.automaton.graph.states → IsUseful c.automaton.graph p) }
    ensures query { IfOk result (λ c. c.query ≡ query.now) }
    ensures small { OnOk result (AtomsAreSmall (query_of query.now)) }
    ensures fault { IfErr result (HasCause (query_of query.now)) }
{
    let mut effort = Effort::new(MOST_STEPS);
    let mut compiler = Compiler::new(alloc, query);
    compiler.compile_lets(&mut effort)?;
    let body = compiler.expression(&query.body, &mut effort)?;
    drop(compiler);
    let automaton = body.take(alloc)?.trim(alloc)?;
    Ok(Compiled { query, automaton })
}

impl<'q> Compiled<'q> {
    /// The query that it was made from.
    pub fn query(&self) -> &'q Query
        ensures query { result.now ≡ self.now.query }
        ensures sound { IsSound (query_of self.now.query) }
    {
        self.query
    }

    /// The automaton.
    pub fn automaton(&self) -> &Automaton
        ensures automaton { result.now ≡ self.now.automaton }
        ensures compiled { IsCompiled (query_of self.now.query) self.now.automaton }
    {
        &self.automaton
    }

    /// The automaton itself; the query is let go. It takes no memory.
    pub fn into_automaton(self) -> Automaton
        ensures automaton { result ≡ self.entry.automaton }
        ensures compiled { IsCompiled (query_of self.entry.query) result }
    {
        self.automaton
    }

    /// The variables of the query's result.
    pub fn vars(&self) -> &VarSet
        ensures { result.now ≡ self.now.automaton.names }
    {
        self.automaton.vars()
    }
}
