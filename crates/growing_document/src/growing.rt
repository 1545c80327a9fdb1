//! Documents, and what is held of reading them: the reading is laid down between two calls, so that it stands beside its automaton.
//!
//! The methods hand their fields on to functions, so that what is held may be taken out and put back while the automaton is lent.
ghost use Rattle.std.specs.Prelude.{◌≡◌, ℕ, ◌+◌, ◌*◌, ◌^◌, ◌<◌, ◌≤◌, ◌++◌, [], true, false, None, Some, length, IfOk, IfErr, IsErrOf, OnOk, OnErr};
ghost use Rattle.marked_automaton.specs.Automaton.{size};
ghost use Rattle.growing_document.specs.declared.fault.GrowFault.TheVariants.{OutOfMemory as WantOfMemory, Spent, TooLong};
ghost use Rattle.growing_document.specs.Faults.{IsAppendFault, IsRowsFault, IsWeightFault, left_by};
ghost use Rattle.growing_document.specs.Grown.{AcceptsRows, AreRowsRead, IsAppended, HasAskedRows, IsGrown, at_start, charge, credit, rows_steps};
ghost use Rattle.growing_document.specs.Inside.{IsHeldReading, seen};
ghost use Rattle.growing_document.specs.Numbers.{end_look_ups};

use crate::GrowFault;
use crate::fault::grown_fault;
use enumerator::Enumerator;
use marked_automaton::Automaton;
use one_pass::{Laid, Reading};
use span_core::Steps;
use std::alloc::Global;
use std::marker::Model;
use std::mem;
use std::sync::ledger::Ledger;

/// How many bytes a document may have.
const MOST_BYTES: u64 = 268_435_456;

/// How many words of four bytes are kept of whole layers, about. Many documents may grow at once, so it is far less than one document
/// that is read at once may keep.
const KNOWN_WORDS: usize = 65_536;

/// A document that grows at its end, read as far as it goes.
///
/// It is seen as the automaton that it is read by, the limit of weight, the document, whether it is read no more, how many sets
/// are reached behind its last byte, how many cells are live, and the look-ups that are held.
#[derive(Drop)]
pub struct Growing {
    alloc: Global,
    automaton: Automaton,
    limit: u64,
    document: Vec<u8>,
    reading: Option<Laid>,
}

impl Model for Growing {
    ghost use Rattle.growing_document.specs.Grown.{Grown, grown_code};

    ghost Value = { Grown };

    ghost coded = { grown_code };

    ghost use Rattle.growing_document.specs.Inside.{IsHeldReading, seen};

    ghost view = { λ g. seen g.automaton g.limit g.document.items g.reading };

    ghost invariant = { λ g. IsHeldReading g.automaton g.limit g.document.items g.reading };
}

impl Growing {
    /// Stands at the empty document. The automaton accepts no words but those of rows; on refusal it is given up. 2 steps.
    pub fn new<L: Ledger>(
        alloc: Global,
        automaton: Automaton,
        limit: u64,
        steps: &mut Steps<L>,
    ) -> Result<Growing, GrowFault>
        requires limit { limit ≤ 100000000 }
        requires rows { AcceptsRows automaton }
        ensures begun { IfOk result (λ g. g ≡ at_start automaton limit) }
        ensures steps { OnOk result (steps.new ≡ steps.old + 2) }
        ensures fault { IfErr result (IsWeightFault automaton.graph limit [] []) }
    {
        let begun = match Reading::begin(alloc, &automaton, limit, KNOWN_WORDS, steps) {
            Ok(begun) => begun,
            Err(fault) => return Err(grown_fault(fault)),
        };
        let reading = begun.lay_down();
        let document = Vec::new(alloc);
        Ok(Growing {
            alloc,
            automaton,
            limit,
            document,
            reading: Some(reading),
        })
    }

    /// Puts a piece behind the document, and reads it. `Spent` comes exactly where an append was refused before by `Full` or
    /// want of memory; it is tried first. `TooLong` comes exactly where the document would have more than 2^28 bytes, and tells how
    /// many; nothing changes. `Full` comes only where what reading the document with the piece meets, with the end look-ups that are held,
    /// weighs more than the limit.
    ///
    /// What it takes is told by two numbers: `charge` rises by what it may take, and `credit` by what it leaves in hand.
    pub fn append<L: Ledger>(&mut self, piece: &[u8], steps: &mut Steps<L>) -> Result<(), GrowFault>
        ensures appended { OnOk result (IsAppended self.old piece.now self.new) }
        ensures steps { OnOk result (steps.new + credit self.new + charge self.old ≤ steps.old + credit self.old + charge self.new) }
        ensures spent { self.old.spent ≡ true → IsErrOf result Spent }
        ensures long { self.old.spent ≡ false → 2 ^ 28 < length self.old.document + length piece.now →
            IsErrOf result (TooLong (length self.old.document + length piece.now)) }
        ensures fault { IfErr result (IsAppendFault self.old piece.now) }
        ensures left { IfErr result (λ e. self.new ≡ left_by self.old e) }
    {
        append_to(
            &self.automaton,
            self.limit,
            &mut self.document,
            &mut self.reading,
            piece,
            steps,
        )
    }

    /// Does what `append` does, with a piece that becomes the document where that is empty, so that its bytes are not copied.
    pub fn append_vec<L: Ledger>(
        &mut self,
        piece: Vec<u8>,
        steps: &mut Steps<L>,
    ) -> Result<(), GrowFault>
        ensures appended { OnOk result (IsAppended self.old piece.items self.new) }
        ensures steps { OnOk result (steps.new + credit self.new + charge self.old ≤ steps.old + credit self.old + charge self.new) }
        ensures spent { self.old.spent ≡ true → IsErrOf result Spent }
        ensures long { self.old.spent ≡ false → 2 ^ 28 < length self.old.document + length piece.items →
            IsErrOf result (TooLong (length self.old.document + length piece.items)) }
        ensures fault { IfErr result (IsAppendFault self.old piece.items) }
        ensures left { IfErr result (λ e. self.new ≡ left_by self.old e) }
    {
        append_vec_to(
            &self.automaton,
            self.limit,
            &mut self.document,
            &mut self.reading,
            piece,
            steps,
        )
    }

    /// The document: the pieces of all appends that answered Ok.
    pub fn document(&self) -> &[u8]
        ensures { result.now ≡ self.now.document }
    {
        self.document.as_slice()
    }

    /// The automaton that reads it.
    pub fn automaton(&self) -> &Automaton
        ensures { result.now ≡ self.now.automaton }
    {
        &self.automaton
    }

    /// How many cells are live; none where nothing is read any more.
    pub fn live(&self) -> u64
        ensures value { result ≡ self.now.live }
        ensures grown { IsGrown self.now }
    {
        live_of(&self.automaton, self.limit, &self.document, &self.reading)
    }

    /// The rows of the whole document so far, in block order. The document and its graph stay as they are. `Full` comes only where
    /// what reading it meets, with the end look-ups that are held and those of the sets behind its last byte, weighs more than the limit.
    ///
    /// It takes no more steps than `rows_steps`, in which the length of the document does not stand, and the size of the automaton for
    /// each end look-up that it makes first.
    pub fn rows<L: Ledger>(&mut self, steps: &mut Steps<L>) -> Result<Enumerator, GrowFault>
        ensures rows { IfOk result (λ e. AreRowsRead self.old.automaton self.old.document e.whole) }
        ensures first { IfOk result (λ e. e.rest ≡ e.whole) }
        ensures variables { IfOk result (λ e. e.variables ≡ length self.old.automaton.names) }
        ensures asked { HasAskedRows self.old self.new }
        ensures steps { self.old.spent ≡ false →
            steps.new + length (end_look_ups self.old.look_ups) * size self.old.automaton.graph ≤ steps.old + rows_steps
            self.old + length (end_look_ups self.new.look_ups) * size self.old.automaton.graph }
        ensures spent { self.old.spent ≡ true → IsErrOf result Spent }
        ensures fault { IfErr result (IsRowsFault self.old) }
    {
        rows_of(
            self.alloc,
            &self.automaton,
            self.limit,
            &self.document,
            &mut self.reading,
            steps,
        )
    }
}

/// Reads a piece, and puts it behind the document.
fn append_to<L: Ledger>(
    automaton: &Automaton,
    limit: u64,
    document: &mut Vec<u8>,
    reading: &mut Option<Laid>,
    piece: &[u8],
    steps: &mut Steps<L>,
) -> Result<(), GrowFault>
    requires { IsHeldReading automaton.now limit document.old.items reading.old }
    ensures inside { IsHeldReading automaton.now limit document.new.items reading.new }
    ensures appended { OnOk result
        (IsAppended (seen automaton.now limit document.old.items reading.old) piece.now
        (seen automaton.now limit document.new.items reading.new)) }
    ensures steps { OnOk result (steps.new + credit (seen automaton.now limit document.new.items reading.new) + charge
        (seen automaton.now limit document.old.items reading.old) ≤ steps.old + credit
        (seen automaton.now limit document.old.items reading.old) + charge (seen automaton.now limit document.new.items reading.new)) }
    ensures spent { (seen automaton.now limit document.old.items reading.old).spent ≡ true → IsErrOf result Spent }
    ensures long { (seen automaton.now limit document.old.items reading.old).spent ≡ false →
        2 ^ 28 < length document.old.items + length piece.now → IsErrOf result (TooLong (length document.old.items + length piece.now)) }
    ensures fault { IfErr result (IsAppendFault (seen automaton.now limit document.old.items reading.old) piece.now) }
    ensures left { IfErr result (λ e. seen automaton.now limit document.new.items reading.new ≡
        left_by (seen automaton.now limit document.old.items reading.old) e) }
{
    let after = match read_piece(automaton, limit, document, reading, piece, steps) {
        Ok(after) => after,
        Err(fault) => return Err(fault),
    };
    if let Err(_full) = document.extend_from_slice(piece) {
        give_up(after);
        return Err(GrowFault::OutOfMemory);
    }
    put_back(reading, after);
    Ok(())
}

/// The same, with a piece that becomes the document where that is empty.
fn append_vec_to<L: Ledger>(
    automaton: &Automaton,
    limit: u64,
    document: &mut Vec<u8>,
    reading: &mut Option<Laid>,
    piece: Vec<u8>,
    steps: &mut Steps<L>,
) -> Result<(), GrowFault>
    requires { IsHeldReading automaton.now limit document.old.items reading.old }
    ensures inside { IsHeldReading automaton.now limit document.new.items reading.new }
    ensures appended { OnOk result
        (IsAppended (seen automaton.now limit document.old.items reading.old) piece.items
        (seen automaton.now limit document.new.items reading.new)) }
    ensures steps { OnOk result (steps.new + credit (seen automaton.now limit document.new.items reading.new) + charge
        (seen automaton.now limit document.old.items reading.old) ≤ steps.old + credit
        (seen automaton.now limit document.old.items reading.old) + charge (seen automaton.now limit document.new.items reading.new)) }
    ensures spent { (seen automaton.now limit document.old.items reading.old).spent ≡ true → IsErrOf result Spent }
    ensures long { (seen automaton.now limit document.old.items reading.old).spent ≡ false →
        2 ^ 28 < length document.old.items + length piece.items →
        IsErrOf result (TooLong (length document.old.items + length piece.items)) }
    ensures fault { IfErr result (IsAppendFault (seen automaton.now limit document.old.items reading.old) piece.items) }
    ensures left { IfErr result (λ e. seen automaton.now limit document.new.items reading.new ≡
        left_by (seen automaton.now limit document.old.items reading.old) e) }
{
    let after = match read_piece(automaton, limit, document, reading, &piece, steps) {
        Ok(after) => after,
        Err(fault) => return Err(fault),
    };
    if let Err(fault) = keep(document, piece) {
        give_up(after);
        return Err(fault);
    }
    put_back(reading, after);
    Ok(())
}

/// Puts a piece behind the document; it becomes the document where that is empty.
fn keep(document: &mut Vec<u8>, piece: Vec<u8>) -> Result<(), GrowFault>
    ensures kept { OnOk result (document.new.items ≡ document.old.items ++ piece.items) }
    ensures same { OnErr result (document.new.items ≡ document.old.items) }
    ensures fault { IfErr result (λ e. e ≡ WantOfMemory) }
{
    if document.is_empty() {
        *document = piece;
        return Ok(());
    }
    match document.extend_from_slice(&piece) {
        Ok(()) => Ok(()),
        Err(_) => Err(GrowFault::OutOfMemory),
    }
}

/// Holds a reading again.
fn put_back(reading: &mut Option<Laid>, after: Laid)
    ensures { reading.new ≡ Some after }
{
    *reading = Some(after);
}

/// Drops a reading, here alone: what a caller has to prove grows with each of its many fields.
fn give_up(_reading: Laid) {}

/// Reads a piece behind the document, and gives the reading, which is taken away until the piece stands there.
fn read_piece<L: Ledger>(
    automaton: &Automaton,
    limit: u64,
    document: &Vec<u8>,
    reading: &mut Option<Laid>,
    piece: &[u8],
    steps: &mut Steps<L>,
) -> Result<Laid, GrowFault>
    requires { IsHeldReading automaton.now limit document.now.items reading.old }
    ensures inside { IsHeldReading automaton.now limit document.now.items reading.new }
    ensures come { IfOk result (λ r. IsHeldReading automaton.now limit (document.now.items ++ piece.now) (Some r)) }
    ensures appended { IfOk result (λ r. IsAppended (seen automaton.now limit document.now.items reading.old) piece.now
        (seen automaton.now limit (document.now.items ++ piece.now) (Some r))) }
    ensures steps { IfOk result (λ r. steps.new + credit (seen automaton.now limit (document.now.items ++ piece.now) (Some r)) + charge
        (seen automaton.now limit document.now.items reading.old) ≤ steps.old + credit
        (seen automaton.now limit document.now.items reading.old) + charge
        (seen automaton.now limit (document.now.items ++ piece.now) (Some r))) }
    ensures taken { OnOk result (reading.new ≡ None) }
    ensures spent { (seen automaton.now limit document.now.items reading.old).spent ≡ true → IsErrOf result Spent }
    ensures long { (seen automaton.now limit document.now.items reading.old).spent ≡ false →
        2 ^ 28 < length document.now.items + length piece.now → IsErrOf result (TooLong (length document.now.items + length piece.now)) }
    ensures fault { IfErr result (IsAppendFault (seen automaton.now limit document.now.items reading.old) piece.now) }
    ensures left { IfErr result (λ e. seen automaton.now limit document.now.items reading.new ≡
        left_by (seen automaton.now limit document.now.items reading.old) e) }
{
    automaton.is_marked();
    if reading.is_none() {
        return Err(GrowFault::Spent);
    }
    let seen = document.len() as u64 + piece.len() as u64;
    if seen > MOST_BYTES {
        return Err(GrowFault::TooLong { seen });
    }
    let Some(before) = mem::replace(reading, None) else {
        return Err(GrowFault::Spent);
    };
    let old = before.take_up(automaton);
    match old.read(piece, steps) {
        Ok(new) => Ok(new.lay_down()),
        Err(fault) => Err(grown_fault(fault)),
    }
}

/// How many cells are live.
fn live_of(automaton: &Automaton, limit: u64, document: &Vec<u8>, reading: &Option<Laid>) -> u64
    requires { IsHeldReading automaton.now limit document.now.items reading.now }
    ensures value { result ≡ (seen automaton.now limit document.now.items reading.now).live }
    ensures grown { IsGrown (seen automaton.now limit document.now.items reading.now) }
{
    automaton.is_marked();
    let _seen = (limit, document.len());
    match reading {
        Some(reading) => reading.live(),
        None => 0,
    }
}

/// The rows of the document, from an ended copy.
fn rows_of<L: Ledger>(
    alloc: Global,
    automaton: &Automaton,
    limit: u64,
    document: &Vec<u8>,
    reading: &mut Option<Laid>,
    steps: &mut Steps<L>,
) -> Result<Enumerator, GrowFault>
    requires { IsHeldReading automaton.now limit document.now.items reading.old }
    ensures inside { IsHeldReading automaton.now limit document.now.items reading.new }
    ensures rows { IfOk result (λ e. AreRowsRead automaton.now document.now.items e.whole) }
    ensures first { IfOk result (λ e. e.rest ≡ e.whole) }
    ensures variables { IfOk result (λ e. e.variables ≡ length automaton.now.names) }
    ensures asked { HasAskedRows (seen automaton.now limit document.now.items reading.old)
        (seen automaton.now limit document.now.items reading.new) }
    ensures steps { (seen automaton.now limit document.now.items reading.old).spent ≡ false →
        steps.new + length (end_look_ups (seen automaton.now limit document.now.items reading.old).look_ups) * size
        automaton.now.graph ≤ steps.old + rows_steps (seen automaton.now limit document.now.items reading.old) + length
        (end_look_ups (seen automaton.now limit document.now.items reading.new).look_ups) * size automaton.now.graph }
    ensures spent { (seen automaton.now limit document.now.items reading.old).spent ≡ true → IsErrOf result Spent }
    ensures fault { IfErr result (IsRowsFault (seen automaton.now limit document.now.items reading.old)) }
{
    automaton.is_marked();
    let _seen = (limit, document.len());
    let Some(before) = mem::replace(reading, None) else {
        return Err(GrowFault::Spent);
    };
    let mut going = before.take_up(automaton);
    let listed = going.rows_so_far(alloc, steps);
    let after = going.lay_down();
    put_back(reading, after);
    match listed {
        Ok(lists) => Ok(Enumerator::new(lists, automaton.vars().len())),
        Err(fault) => Err(grown_fault(fault)),
    }
}
