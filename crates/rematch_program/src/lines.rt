//! The lines of a page: what stands before them, and what is kept of them from one to the next.
ghost use Rattle.std.specs.Prelude.{◌≡◌, ◌≤◌, ℕ, [], length, IfOk, OnOk};
ghost use Rattle.rematch_program.specs.Kept.{kept_of};
ghost use Rattle.rematch_program.specs.Pages.{page_head};
ghost use Rattle.rematch_program.specs.declared.gather.TheConstants.{PIECE};

use command_line::Form;
use row_writer::{KeptLine, table_head};
use span_core::{OutOfMemory, VarSet};
use std::alloc::Global;

/// What stands before all rows: in a table the names, else nothing.
pub fn put_head(form: Form, vars: &VarSet, line: &mut Vec<u8>) -> Result<(), OutOfMemory>
    requires { line.old.items ≡ [] }
    ensures text { OnOk result (line.new.items ≡ page_head form vars.now) }
    ensures few { OnOk result (length line.new.items ≤ PIECE) }
{
    let _few = vars.len();
    match form {
        Form::Table => table_head(vars, line),
        Form::Spans | Form::Json => Ok(()),
    }
}

/// What is kept of the lines of rows from one to the next.
pub fn kept_line(alloc: Global, form: Form, vars: &VarSet) -> Result<KeptLine, OutOfMemory>
    ensures { IfOk result (λ kept. kept ≡ kept_of form vars.now) }
{
    match form {
        Form::Spans => KeptLine::spans(alloc, vars),
        Form::Table => KeptLine::table(alloc, vars),
        Form::Json => KeptLine::json(alloc, vars),
    }
}
