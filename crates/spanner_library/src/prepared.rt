//! Queries that own what they were compiled to.
ghost use Rattle.std.specs.Prelude.{◌≡◌, ℕ, ◌+◌, ◌^◌, ◌≤◌, ◌⊎◌, Bool, length, IfErr, IfOk, IsErrOf, OnOk};
ghost use Rattle.std.specs.Option.{IfSome, option_copied};
ghost use Rattle.spanner_model.specs.Answers.{AreResultNames};
ghost use Rattle.query_automaton.specs.CompiledQuery.{IsCompiled};
ghost use Rattle.query_automaton.specs.Parts.{AtomsAreSmall};
ghost use Rattle.spanner_engine.specs.Begun.{AreRead, IsBeginFault, IsPast, IsReadWithin, KeepsOther, begin_steps, counted, row_kept};
ghost use Rattle.spanner_engine.specs.Caching.{IsCacheOf, rebuild};
ghost use Rattle.spanner_engine.specs.Filtering.{AreAtomsWithin};
ghost use Rattle.spanner_engine.specs.Fitting.{AreLast};
ghost use Rattle.spanner_engine.specs.Left.{AreLeft};
ghost use Rattle.spanner_engine.specs.declared.beginning.BeginFault.TheVariants.{CursorOther, CursorPlace};
ghost use Rattle.spanner_model.specs.Passing.{AreKnown, known};
ghost use Rattle.query_parser.specs.Binding.{IsOnlyTested};
ghost use Rattle.spanner_library.specs.Library.{IsRefused, automaton_of, tree};

use crate::Rows;
use marked_automaton::{Automaton, SizeFault};
use query_parser::{QueryFault, bind, read_tested};
use span_core::{Kept, Steps, VarSet};
use span_tests::{Judge, Tests};
use spanner_engine::{BeginFault, Cache, Options, begin_by, begin_with, compile};
use spanner_model::Tested;
use std::alloc::Global;
use std::marker::Model;
use std::sync::ledger::Ledger;

/// A query with its tests, compiled.
#[derive(Drop)]
pub struct Prepared<J: Judge> {
    tested: Tested,
    tests: Tests<J>,
    automaton: Automaton,
}

impl<J: Judge> Model for Prepared<J> {
    ghost use Rattle.spanner_library.specs.Library.{PreparedQuery, prepared_code};

    ghost Value = { PreparedQuery };

    ghost coded = { prepared_code };

    ghost use Rattle.spanner_model.specs.ExprView.{query_of};
    ghost use Rattle.query_automaton.specs.CompiledQuery.{IsCompiled};
    ghost use Rattle.spanner_model.specs.Passing.{AreKnown, known};

    ghost view = { λ p. record {
      tested = p.tested;
      tests = p.tests;
      names = p.automaton.names;
      graph = p.automaton.graph;
    } };

    ghost invariant = { λ p. IsCompiled (query_of p.tested.query) p.automaton × AreKnown (known p.tests J.judges) p.tested.asked };
}

/// Why a text is not prepared.
#[derive(Clone, Copy, Debug)]
pub enum PrepareFault {
    /// The fault of the text, or want of memory.
    Text(QueryFault),
    /// An automaton of the query is too large, or want of memory.
    Size(SizeFault),
}

impl<J: Judge> Prepared<J> {
    /// Reads a query's text, whose tests are of those that are given, and compiles it.
    pub fn read(alloc: Global, tests: Tests<J>, text: &[u8]) -> Result<Prepared<J>, PrepareFault>
        ensures query { IfOk result (λ p. IsOnlyTested (known tests J.judges) text.now (tree p)) }
        ensures names { IfOk result (λ p. AreResultNames (tree p).query p.names) }
        ensures small { IfOk result (λ p. AtomsAreSmall (tree p).query) }
        ensures tests { IfOk result (λ p. p.tests ≡ tests) }
        ensures refused { IfErr result (IsRefused (known tests J.judges) text.now) }
    {
        let tested = match read_tested(alloc, text) {
            Ok(tested) => tested,
            Err(fault) => return Err(PrepareFault::Text(fault)),
        };
        if let Err(fault) = bind(&tested, &tests) {
            return Err(PrepareFault::Text(fault));
        }
        let automaton = match compile(alloc, &tested.query) {
            Ok(compiled) => compiled.into_automaton(),
            Err(fault) => return Err(PrepareFault::Size(fault)),
        };
        Ok(Prepared {
            tested,
            tests,
            automaton,
        })
    }

    /// The variables of its rows.
    pub fn vars(&self) -> &VarSet
        ensures value { result.now ≡ self.now.names }
        ensures names { AreResultNames (tree self.now).query self.now.names }
        ensures compiled { IsCompiled (tree self.now).query (automaton_of self.now) }
        ensures tests_known { AreKnown (known self.now.tests J.judges) (tree self.now).asked }
    {
        self.automaton.vars()
    }

    /// The query with its tests.
    pub(crate) fn tested(&self) -> &Tested
        ensures { result.now ≡ self.now.tested }
    {
        &self.tested
    }

    /// The tests that are known.
    pub(crate) fn tests(&self) -> &Tests<J>
        ensures { result.now ≡ self.now.tests }
    {
        &self.tests
    }

    /// Reads a document, and stands before the first of the answers that stand after the row that `after` keeps, or of all. It is
    /// `begin` of `spanner_engine`, with its refusals and steps.
    pub fn open<L: Ledger>(
        &self,
        alloc: Global,
        document: &[u8],
        after: Option<&Kept>,
        options: Options,
        steps: &mut Steps<L>,
    ) -> Result<Rows, BeginFault>
        requires few { length document.now ≤ 2 ^ 28 }
        requires row { IfSome (option_copied after) (λ kept. length kept.row ≡ length self.now.names) }
        requires limit { options.limit ≤ 100000000 }
        ensures left { IfOk result (λ r. AreLeft (tree self.now).query document.now self.now.names
            (row_kept (option_copied after.entry)) r.rest) }
        ensures last { IfOk result (λ r. AreLast (tree self.now).query document.now self.now.names r.rest) }
        ensures variables { IfOk result (λ r. r.variables ≡ length self.now.names) }
        ensures other { (kept : ℕ) → KeepsOther (length document.now) (option_copied after.entry) kept →
            IsErrOf result (CursorOther kept (length document.now)) }
        ensures place { IsPast (length document.now) (option_copied after.entry) → IsErrOf result CursorPlace }
        ensures still { (kept found : ℕ) → IsErrOf result CursorPlace ⊎ IsErrOf result (CursorOther kept found) → steps.new ≡ steps.old }
        ensures fault { IfErr result (IsBeginFault (tree self.now).query document.now options.filter
            (option_copied after.entry) options.limit) }
        ensures weighs { OnOk result (IsReadWithin self.now.graph (tree self.now).query document.now options.filter options.limit) }
        ensures atoms { OnOk result (AreAtomsWithin (tree self.now).query document.now options.filter options.limit) }
        ensures steps { (K : ℕ → Bool) → AreRead options.filter (tree self.now).query document.now K →
            steps.new ≤ steps.old + begin_steps options.filter (tree self.now).query document.now K (row_kept (option_copied after.entry)) }
    {
        match begin_by(
            alloc,
            &self.tested.query,
            &self.automaton,
            document,
            after,
            options,
            steps,
        ) {
            Ok(answers) => Ok(Rows::over(answers)),
            Err(fault) => Err(fault),
        }
    }

    /// As `open`, with what a cache keeps of the documents before, and keeping in it what is found out now. A cache is `Cache::new`
    /// at first, and belongs to one query from then on.
    ///
    /// The rows and refusals are those of `open`: if a document is refused over what is kept, it is read once more without it. So
    /// it may take the steps of reading it twice.
    pub fn open_with<L: Ledger>(
        &self,
        cache: &mut Cache,
        document: &[u8],
        after: Option<&Kept>,
        options: Options,
        steps: &mut Steps<L>,
    ) -> Result<Rows, BeginFault>
        requires cache { IsCacheOf self.now.graph cache.old }
        requires few { length document.now ≤ 2 ^ 28 }
        requires row { IfSome (option_copied after) (λ kept. length kept.row ≡ length self.now.names) }
        requires limit { options.limit ≤ 100000000 }
        ensures cache { IsCacheOf self.now.graph cache.new }
        ensures left { IfOk result (λ r. AreLeft (tree self.now).query document.now self.now.names
            (row_kept (option_copied after.entry)) r.rest) }
        ensures last { IfOk result (λ r. AreLast (tree self.now).query document.now self.now.names r.rest) }
        ensures variables { IfOk result (λ r. r.variables ≡ length self.now.names) }
        ensures other { (kept : ℕ) → KeepsOther (length document.now) (option_copied after.entry) kept →
            IsErrOf result (CursorOther kept (length document.now)) }
        ensures place { IsPast (length document.now) (option_copied after.entry) → IsErrOf result CursorPlace }
        ensures still { (kept found : ℕ) → IsErrOf result CursorPlace ⊎ IsErrOf result (CursorOther kept found) → steps.new ≡ steps.old }
        ensures fault { IfErr result (IsBeginFault (tree self.now).query document.now options.filter
            (option_copied after.entry) options.limit) }
        ensures weighs { OnOk result (IsReadWithin self.now.graph (tree self.now).query document.now options.filter options.limit) }
        ensures atoms { OnOk result (AreAtomsWithin (tree self.now).query document.now options.filter options.limit) }
        ensures steps { (K : ℕ → Bool) → AreRead options.filter (tree self.now).query document.now K →
            steps.new ≤ steps.old + rebuild cache.old.kept (counted (tree self.now).query) document.now K
            + begin_steps options.filter (tree self.now).query document.now K (row_kept (option_copied after.entry)) }
    {
        match begin_with(
            &self.tested.query,
            &self.automaton,
            cache,
            document,
            after,
            options,
            steps,
        ) {
            Ok(answers) => Ok(Rows::over(answers)),
            Err(fault) => Err(fault),
        }
    }
}
