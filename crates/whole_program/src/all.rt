//! The program: it serves requests where its one word asks for that, and runs on its words otherwise.
ghost use Rattle.std.specs.Prelude.{◌≡◌, ◌≢◌, [], ◌∷◌, map, string_bytes};
ghost use Rattle.std.specs.Bool.{OnFalse, OnTrue};
ghost use Rattle.spanner_model.specs.Passing.{known};
ghost use Rattle.session_server.specs.Serve.{Serves, ServesAll};
ghost use Rattle.whole_program.specs.declared.TheConstants.{MOST_REQUESTS};
ghost use Rattle.whole_program.specs.All.{serving_words};
ghost use Rattle.rm_outside.specs.Change.{change};
ghost use Rattle.rematch_program.specs.Work.{clock};
ghost use Rattle.rematch_program.specs.Complete.{Completes};
ghost use Rattle.rematch_program.specs.Run.{IsUntouched, RunTested, shelved};

use crate::MOST_REQUESTS;
use rematch_program::run_tested;
use rm_outside::{Shelf, Sink, Source, Status};
use session_server::serve;
use span_core::Steps;
use span_tests::{Judge, Tests};
use std::alloc::Global;
use std::sync::ledger::Ledger;

/// Runs the program on the words after its name. Where they are the one word `--serve`, it serves the requests of the source, of which it
/// answers `MOST_REQUESTS` at most; the shelf is not asked then. Otherwise it is `run_tested`, and nothing is taken from the source.
pub fn run_all<S: Shelf, R: Source, O: Sink, N: Sink, J: Judge, L: Ledger>(
    alloc: Global,
    words: &[String],
    tests: &Tests<J>,
    shelf: &mut S,
    source: &mut R,
    out: &mut O,
    notes: &mut N,
    steps: &mut Steps<L>,
) -> Status
    ensures serves { map string_bytes words.now ≡ serving_words → Serves (known tests.now J.judges) MOST_REQUESTS
        (change (R.told source.old) (R.told source.new))
        (change (O.told out.old) (O.told out.new))
        (change (N.told notes.old) (N.told notes.new))
        result }
    ensures all { map string_bytes words.now ≡ serving_words → ServesAll (known tests.now J.judges) MOST_REQUESTS
        (change (R.told source.old) (R.told source.new))
        (change (O.told out.old) (O.told out.new))
        (change (N.told notes.old) (N.told notes.new))
        result }
    ensures untouched { map string_bytes words.now ≡ serving_words → IsUntouched (shelved (S.told shelf.old) (S.told shelf.new)) }
    ensures unasked { map string_bytes words.now ≢ serving_words → R.told source.new ≡ R.told source.old }
    ensures run { map string_bytes words.now ≢ serving_words → RunTested (known tests.now J.judges) (map string_bytes words.now)
        (shelved (S.told shelf.old) (S.told shelf.new))
        (change (O.told out.old) (O.told out.new))
        (change (N.told notes.old) (N.told notes.new))
        (clock steps.old steps.new)
        result }
    ensures complete { map string_bytes words.now ≢ serving_words → Completes (known tests.now J.judges) (map string_bytes words.now)
        (shelved (S.told shelf.old) (S.told shelf.new))
        (change (O.told out.old) (O.told out.new))
        (change (N.told notes.old) (N.told notes.new))
        result }
{
    if asks_to_serve(words) {
        return serve(alloc, MOST_REQUESTS, tests, source, out, notes, steps);
    }
    run_tested(alloc, words, tests, shelf, out, notes, steps)
}

/// Whether these are the one word `--serve`.
fn asks_to_serve(words: &[String]) -> bool
    ensures true_of { OnTrue result (map string_bytes words.now ≡ serving_words) }
    ensures false_of { OnFalse result (map string_bytes words.now ≢ serving_words) }
{
    match words {
        [word] => is_serve(word),
        _ => false,
    }
}

fn is_serve(word: &String) -> bool
    ensures true_of { OnTrue result (map string_bytes (word.now ∷ []) ≡ serving_words) }
    ensures false_of { OnFalse result (map string_bytes (word.now ∷ []) ≢ serving_words) }
{
    word.as_str() == "--serve"
}
