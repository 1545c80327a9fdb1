//! Compiled queries that are shared.
ghost use Rattle.std.specs.Prelude.{◌≡◌, ◌⊎◌, [], IfOk, IfErr, OnOk, codes};
ghost use Rattle.spanner_model.specs.Answers.{AreResultNames};
ghost use Rattle.spanner_model.specs.Tested.{TestedTree};
ghost use Rattle.query_automaton.specs.Parts.{HasLargePart};
ghost use Rattle.query_parser.specs.Binding.{HasFaultUnder, IsOnlyTested};
ghost use Rattle.note_texts.specs.Notes.{note_text};
ghost use Rattle.spanner_library.specs.Library.{IsRefused, tree};
ghost use Rattle.rematch_c.specs.Refusals.{IsTextRefusal, program};
ghost use Rattle.rematch_c.specs.Texts.{IsText};

use crate::ShortText;
use known_tests::{ProgramJudge, program_tests};
use marked_automaton::SizeFault;
use note_texts::{Note, push_note};
use query_parser::QueryFault;
use rm_outside::Status;
use span_core::OutOfMemory;
use spanner_library::{PrepareFault, Prepared};
use std::alloc::Global;
use std::marker::Model;
use std::sync::Arc;

/// A compiled query, which several hold.
#[derive(Drop)]
pub struct SharedQuery {
    prepared: Arc<Prepared<ProgramJudge>, Global>,
}

impl Model for SharedQuery {
    ghost use Rattle.std.specs.Arc.{arc_value};
    ghost use Rattle.spanner_library.specs.Library.{PreparedQuery, prepared_code};

    ghost Value = { PreparedQuery };

    ghost coded = { prepared_code };

    ghost view = { λ q. arc_value q.prepared };
}

impl SharedQuery {
    /// The compiled query.
    pub(crate) fn prepared(&self) -> &Prepared<ProgramJudge>
        ensures { result.now ≡ self.now }
    {
        &self.prepared
    }

    /// The same query once more.
    pub(crate) fn another(&self) -> Result<SharedQuery, OutOfMemory>
        ensures { IfOk result (λ q. q ≡ self.now) }
    {
        match Arc::try_clone(&self.prepared) {
            Ok(prepared) => Ok(SharedQuery { prepared }),
            Err(_) => Err(OutOfMemory),
        }
    }
}

/// Compiles the text of a query, with the program's tests.
pub(crate) fn read(alloc: Global, text: &[u8], note: &mut ShortText) -> Result<SharedQuery, Status>
    ensures query { IfOk result (λ q. IsOnlyTested program text.now (tree q)) }
    ensures names { IfOk result (λ q. AreResultNames (tree q).query q.names) }
    ensures silent { OnOk result (IsText note.new []) }
    ensures refused { IfErr result (λ status. IsTextRefusal text.now status note.new) }
{
    let tests = match program_tests(alloc) {
        Ok(tests) => tests,
        Err(OutOfMemory) => return Err(out_of_memory(note)),
    };
    let prepared = match Prepared::read(alloc, tests, text) {
        Ok(prepared) => prepared,
        Err(fault) => return Err(refused(alloc, text, &fault, note)),
    };
    prepared.vars();
    match Arc::new(alloc, prepared) {
        Ok(prepared) => {
            note.clear();
            Ok(SharedQuery { prepared })
        }
        Err(_) => Err(out_of_memory(note)),
    }
}

/// Memory is wanting, which the note says.
pub(crate) fn out_of_memory(note: &mut ShortText) -> Status
    ensures status { result ≡ Status.Memory }
    ensures note { IsText note.new (codes "out of memory") }
{
    note.say(b"out of memory");
    Status::Memory
}

/// The text is refused, as the note says.
fn refused(alloc: Global, _text: &[u8], fault: &PrepareFault, note: &mut ShortText) -> Status
    requires refused { IsRefused program _text.now fault.now }
    ensures { IsTextRefusal _text.now result note.new }
{
    match fault {
        PrepareFault::Text(fault) => text_refused(alloc, _text, fault, note),
        PrepareFault::Size(fault) => size_refused(alloc, _text, fault, note),
    }
}

/// The text has this fault.
fn text_refused(alloc: Global, _text: &[u8], fault: &QueryFault, note: &mut ShortText) -> Status
    requires refused { (fault.now ≡ QueryFault.OutOfMemory) ⊎ HasFaultUnder program _text.now fault.now }
    ensures { IsTextRefusal _text.now result note.new }
{
    if matches!(fault, QueryFault::OutOfMemory) {
        return out_of_memory(note);
    }
    match note_said(alloc, &Note::Query(fault), note) {
        Ok(()) => Status::Query,
        Err(OutOfMemory) => out_of_memory(note),
    }
}

/// An automaton of the query is too large.
fn size_refused(alloc: Global, _text: &[u8], fault: &SizeFault, note: &mut ShortText) -> Status
    requires refused { (t : TestedTree) × IsOnlyTested program _text.now t × HasLargePart t.query fault.now }
    ensures { IsTextRefusal _text.now result note.new }
{
    if matches!(fault, SizeFault::OutOfMemory) {
        return out_of_memory(note);
    }
    match note_said(alloc, &Note::Size(fault), note) {
        Ok(()) => Status::Size,
        Err(OutOfMemory) => out_of_memory(note),
    }
}

/// Says a note.
pub(crate) fn note_said(
    alloc: Global,
    told: &Note<'_>,
    note: &mut ShortText,
) -> Result<(), OutOfMemory>
    ensures { OnOk result (IsText note.new (note_text told.now)) }
{
    let mut said = Vec::new(alloc);
    push_note(told, &mut said)?;
    note.say(&said);
    Ok(())
}
