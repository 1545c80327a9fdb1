//! Measures parts of the program, a word for each:
//!
//! `engine_bench slots VALUES CALLS` puts so many values of 32 bytes, reads them in order and then scattered
//! with so many calls each, puts and takes one value in turn as often, and takes all values out;
//! `engine_bench rows BYTES` begins the answers of `/!x{a*}/` on so many bytes `a`, and takes them all;
//! `engine_bench trial LINES` makes the document of a trial;
//! `engine_bench lines FORM ROWS` writes the lines of so many rows, where FORM is `rows` (rows are made, and no
//! line), `spans`, `table`, `texts` (spans with their texts) or `json`;
//! `engine_bench column LINES` opens so many documents of some 100 bytes, each by itself and then with a cache;
//! `engine_bench growing BYTES PIECES` puts so many pieces of so many bytes `b` behind one another, and asks for one
//! row of `/!x{a}c/` after each.
//!
//! Each prints a sum of what it did, and on standard error the time of each part. Without words a small run of each
//! is made.
#![tactic(auto)]

mod column;
mod grown;
mod lines;
mod made;
mod rows;
mod slots;

use column::measure_column;
use grown::measure_growing;
use lines::measure_lines;
use made::measure_trial;
use rows::measure_rows;
use slots::measure_slots;

/// What is measured.
#[derive(Clone, Copy)]
enum Part<'a> {
    Slots { values: u64, calls: usize },
    Rows { bytes: usize },
    Trial { lines: u32 },
    Lines { form: &'a str, rows: u32 },
    Column { lines: usize },
    Growing { bytes: usize, pieces: u32 },
}

/// A small run of each part, and of the lines one of each form.
const SMALL: [Part<'static>; 10] = [
    Part::Slots {
        values: 70_000,
        calls: 1_000,
    },
    Part::Rows { bytes: 300 },
    Part::Trial { lines: 300 },
    Part::Lines {
        form: "rows",
        rows: 3,
    },
    Part::Lines {
        form: "spans",
        rows: 3,
    },
    Part::Lines {
        form: "table",
        rows: 3,
    },
    Part::Lines {
        form: "texts",
        rows: 3,
    },
    Part::Lines {
        form: "json",
        rows: 3,
    },
    Part::Column { lines: 30 },
    Part::Growing {
        bytes: 10,
        pieces: 20,
    },
];

fn main(rt: HostRuntime) -> anyhow::Result<()> {
    let words: Vec<String> = std::env::args(&rt)?.skip(1).collect(rt.alloc())?;
    if words.is_empty() {
        for part in SMALL {
            measure(&rt, part)?;
        }
        return Ok(());
    }
    match part_of(&words) {
        Some(part) => measure(&rt, part)?,
        None => {
            println!(rt;
                "usage: engine_bench [slots VALUES CALLS | rows BYTES | trial LINES | lines FORM ROWS | column LINES | growing BYTES PIECES]"
            )?
        }
    }
    Ok(())
}

fn measure(rt: &HostRuntime, part: Part<'_>) -> anyhow::Result<()> {
    match part {
        Part::Slots { values, calls } => measure_slots(rt, values, calls),
        Part::Rows { bytes } => measure_rows(rt, bytes),
        Part::Trial { lines } => measure_trial(rt, lines),
        Part::Lines { form, rows } => measure_lines(rt, form, rows),
        Part::Column { lines } => measure_column(rt, lines),
        Part::Growing { bytes, pieces } => measure_growing(rt, bytes, pieces),
    }
}

/// What the words ask for.
fn part_of<'a>(words: &'a [String]) -> Option<Part<'a>> {
    match words {
        [word, values, calls] if word.as_str() == "slots" => Some(Part::Slots {
            values: values.parse().ok()?,
            calls: calls.parse().ok()?,
        }),
        [word, bytes] if word.as_str() == "rows" => Some(Part::Rows {
            bytes: bytes.parse().ok()?,
        }),
        [word, lines] if word.as_str() == "trial" => Some(Part::Trial {
            lines: lines.parse().ok()?,
        }),
        [word, form, rows] if word.as_str() == "lines" => Some(Part::Lines {
            form: form.as_str(),
            rows: rows.parse().ok()?,
        }),
        [word, lines] if word.as_str() == "column" => Some(Part::Column {
            lines: lines.parse().ok()?,
        }),
        [word, bytes, pieces] if word.as_str() == "growing" => Some(Part::Growing {
            bytes: bytes.parse().ok()?,
            pieces: pieces.parse().ok()?,
        }),
        _ => None,
    }
}
