//! What a run is given, and what it wrote.
ghost use Rattle.std.specs.Prelude.{◌≡◌, ◌≢◌, ◌⊎◌, ◌<◌, ℕ, List, [], ◌∷◌, ◌++◌, None, Some, if◌then◌else◌, bytes_eq, IfErr, IfOk, OnErr, OnOk};
ghost use Rattle.std.specs.Bool.{OnFalse, OnTrue};
ghost use Rattle.rm_outside.specs.MemoryShelf.{failing_fetches, held_of};
ghost use Rattle.rm_outside.specs.MemorySink.{written_of};
ghost use Rattle.memory_run.specs.Input.{input_name};

use known_tests::program_tests;
use rm_outside::{FetchFault, MemoryShelf, MemorySink, MemorySource, Shelf, Status};
use span_core::{OutOfMemory, Steps};
use std::alloc::Global;
use std::sync::ledger::{Blank, Ledger};
use whole_program::run_all;

/// What a run of the program is given: the words after its name, and documents under their names.
#[derive(Drop)]
pub struct MemoryRun {
    alloc: Global,
    words: Vec<String>,
    shelf: MemoryShelf,
    ghost sure: { failing_fetches shelf ≡ [] },
    ghost apart: { held_of shelf input_name ≡ None },
}

/// Why a document is not taken.
#[derive(Clone, Copy, Debug, PartialEq, Eq)]
pub enum DocumentFault {
    /// Its name is `-`, which is the standard input, or holds a document already.
    Name,
    /// The allocator gave no memory.
    OutOfMemory,
}

/// How a run ended, and what it wrote.
#[derive(Drop)]
pub struct Ended {
    /// The status.
    pub status: Status,
    /// The standard output.
    pub rows: MemorySink,
    /// The standard error.
    pub notes: MemorySink,
}

impl MemoryRun {
    ghost use Rattle.memory_run.specs.Ran.{Ran, document_of, program, words_of};

    /// A run that is given nothing yet.
    pub fn new(alloc: Global) -> MemoryRun
        ensures words { words_of result ≡ [] }
        ensures documents { (n : List ℕ) → document_of result n ≡ None }
    {
        MemoryRun {
            alloc,
            words: Vec::new(alloc),
            shelf: MemoryShelf::new(alloc, Vec::new(alloc)),
        }
    }

    /// Adds a word.
    pub fn add_word(&mut self, word: &str) -> Result<(), OutOfMemory>
        ensures ok { OnOk result (words_of self.new ≡ words_of self.old ++ word.now ∷ []) }
        ensures err { OnErr result (words_of self.new ≡ words_of self.old) }
        ensures documents { document_of self.new ≡ document_of self.old }
    {
        let word = String::from_str(self.alloc, word)?;
        self.words.push(word)?;
        Ok(())
    }

    /// Adds a document, unless its name has one or is `-`.
    pub fn add_document(&mut self, name: &str, bytes: &[u8]) -> Result<(), DocumentFault>
        ensures ok { OnOk result ((n : List ℕ) →
            document_of self.new n ≡ (if bytes_eq name.now n then Some bytes.now else document_of self.old n)) }
        ensures err { OnErr result ((n : List ℕ) → document_of self.new n ≡ document_of self.old n) }
        ensures name { IfErr result (λ fault. fault ≡ DocumentFault.Name →
            (name.now ≡ input_name) ⊎ (document_of self.old name.now ≢ None)) }
        ensures words { words_of self.new ≡ words_of self.old }
    {
        if name == "-" {
            return Err(DocumentFault::Name);
        }
        if self.holds(name) {
            return Err(DocumentFault::Name);
        }
        match self.shelf.hold(name, bytes) {
            Ok(()) => Ok(()),
            Err(OutOfMemory) => Err(DocumentFault::OutOfMemory),
        }
    }

    /// Whether a name holds a document. A fetch of no byte says so: it fails for no other name.
    fn holds(&mut self, name: &str) -> bool
        ensures yes { OnTrue result (document_of self.old name.now ≢ None) }
        ensures no { OnFalse result (document_of self.old name.now ≡ None) }
        ensures documents { document_of self.new ≡ document_of self.old }
        ensures words { words_of self.new ≡ words_of self.old }
    {
        let mut bytes = Vec::new(self.alloc);
        !matches!(
            self.shelf.fetch(name, 0, &mut bytes),
            Err(FetchFault::Failed)
        )
    }

    /// Runs the program on what was given and on this standard input, with its tests. It may write so many bytes of rows, and so
    /// many of notes; where there is no room for more, the run ends as one whose output cannot be written.
    pub fn run<L: Ledger>(
        self,
        blank: Blank,
        input: &[u8],
        rows: usize,
        notes: usize,
    ) -> Result<Ended, OutOfMemory>
        requires name { blank.name ≡ L.name }
        requires parts { blank.parts ≡ L.parts }
        requires some { 0 < L.parts }
        ensures { IfOk result (λ e. Ran program (words_of self) (document_of self) input.now (written_of e.rows)
            (written_of e.notes) e.status) }
    {
        let alloc = self.alloc;
        let words = self.words;
        let mut shelf = self.shelf;
        shelf.hold("-", input)?;
        let tests = program_tests(alloc)?;
        let mut source = MemorySource::new(input.to_vec(alloc)?, Vec::new(alloc));
        let mut rows = MemorySink::new(alloc, rows, Vec::new(alloc))?;
        let mut notes = MemorySink::new(alloc, notes, Vec::new(alloc))?;
        let mut steps = Steps::<L>::new(blank);
        let status = run_all(
            alloc,
            &words,
            &tests,
            &mut shelf,
            &mut source,
            &mut rows,
            &mut notes,
            &mut steps,
        );
        Ok(Ended {
            status,
            rows,
            notes,
        })
    }
}
