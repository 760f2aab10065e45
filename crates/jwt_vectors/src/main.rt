//! Makes the calls of rows of test vectors, and compares each result with the one that the row
//! wants.
//!
//! A row is one line of JSON (`crates/jwt_vectors/README.md`). Without arguments the program reads
//! the files `*.jsonl` of the folder that it runs in. With the argument `refused`, each row is
//! tried with each of its requests for memory refused in turn, by whoever runs the program
//! (`tests/programs/refuse.c`). The last line counts.
//!
//! For developers: `tools/prove run jwt_vectors` builds and runs it. A new row of a call that the
//! program knows is a line of data, and is no code; CONTRIBUTING.md says what a new call takes.
#![tactic(auto)]

mod calls;

use jwt_rows::Row;
use jwt_rows::trial::Trial;
use serde_json::{Map, Value};
use std::alloc::{AllocError, Global};
use std::process::ExitCode;
use std::rt::Runtime;
use std::{env, fs, io};

/// A number of requests for memory that no call makes.
const MOST: usize = 4_000;

/// The outcome of a row.
#[derive(Drop)]
struct Outcome {
    /// The number of requests that were refused.
    refused: usize,
    /// The difference from the wanted result, if there is one.
    difference: Option<String>,
}

/// The outcomes of all rows.
#[derive(Clone, Copy)]
struct Count {
    rows: usize,
    refused: usize,
    differ: usize,
}

// Returns the compact text of the wanted result, if the row has a name, a source and such a result.
fn wanted_text(alloc: Global, members: &Map<String, Value>) -> Option<String> {
    let _name = members.get("id")?.as_str()?;
    let _source = members.get("from")?.as_str()?;
    members.get("want")?.to_string(alloc).ok()
}

// Returns whether the call must make no request for memory.
fn is_sparing(members: &Map<String, Value>) -> bool {
    members.get("requests").and_then(Value::as_u64) == Some(0)
}

// Returns the difference of the result of the row's call from the wanted one, if there is one.
fn difference(alloc: Global, row: &Row<'_>, wanted: &str) -> Result<Option<String>, AllocError> {
    let answer = calls::answer(row);
    let name = row.lacking();
    if !name.is_empty() {
        return Ok(Some(format!(in alloc; "{name} is missing, malformed or refused")?));
    }
    let Some(answer) = answer else {
        return Ok(Some(String::from_str(alloc, "no such call, or memory ran out")?));
    };
    if let Some(name) = row.unknown_name() {
        return Ok(Some(format!(in alloc; "the call does not take {name}")?));
    }
    let given = answer.to_string(alloc)?;
    let is_out_of_memory = given.as_str() == "{\"err\":\"OutOfMemory\"}";
    if given.as_str() == wanted || row.was_refused() && is_out_of_memory {
        return Ok(None);
    }
    Ok(Some(format!(in alloc; "wanted {wanted}, got {given}")?))
}

// Tries a row with ample memory, or with its first request for memory refused, then the second,
// until none is left.
fn try_row(
    alloc: Global,
    members: &Map<String, Value>,
    refuses: bool,
) -> Result<Outcome, AllocError> {
    let Some(wanted) = wanted_text(alloc, members) else {
        return failure(alloc, 0, "no id, from or want");
    };
    let mut refused = 0;
    for number in usize::from(refuses)..MOST {
        let row = Row::new(alloc, members, number);
        let difference = difference(alloc, &row, wanted.as_str())?;
        if !row.was_refused() || difference.is_some() {
            return Ok(Outcome {
                refused,
                difference,
            });
        }
        refused = number;
        if is_sparing(members) {
            break;
        }
    }
    failure(alloc, refused, "a request for memory too many")
}

fn failure(alloc: Global, refused: usize, reason: &str) -> Result<Outcome, AllocError> {
    Ok(Outcome {
        refused,
        difference: Some(String::from_str(alloc, reason)?),
    })
}

fn try_line(alloc: Global, line: &str, refuses: bool) -> Result<Outcome, AllocError> {
    match Value::from_str(alloc, line) {
        Ok(Value::Object(members)) => try_row(alloc, &members, refuses),
        _ => failure(alloc, 0, "not a JSON object"),
    }
}

/// Tries the rows of a file, and prints a line for each that differs.
fn try_rows<T: Runtime + AllocGlobal>(
    rt: &T,
    file: &str,
    refuses: bool,
    count: &mut Count,
) -> io::Result<()> {
    let text = fs::read_to_string(rt, file)?;
    let mut number = 0_usize;
    for line in text.as_str().lines() {
        number = number.saturating_add(1);
        count.rows = count.rows.saturating_add(1);
        let is_well = match try_line(rt.alloc(), line, refuses) {
            Ok(outcome) => {
                count.refused = count.refused.saturating_add(outcome.refused);
                if let Some(difference) = &outcome.difference {
                    println!(rt; "DIFFERS: {file}:{number}: {difference}")?;
                }
                outcome.difference.is_none()
            }
            Err(_) => {
                println!(rt; "DIFFERS: {file}:{number}: out of memory")?;
                false
            }
        };
        if !is_well {
            count.differ = count.differ.saturating_add(1);
        }
    }
    Ok(())
}

/// Tries the rows of every file `*.jsonl` in a folder.
fn try_folder<T: Runtime + AllocGlobal>(
    rt: &T,
    folder: &str,
    refuses: bool,
    count: &mut Count,
) -> io::Result<()> {
    for entry in fs::read_dir(rt, folder)? {
        let entry = entry?;
        if entry.file_name().ends_with(".jsonl") {
            let path = String::from_str(rt.alloc(), entry.file_name())?;
            try_rows(rt, path.as_str(), refuses, count)?;
        }
    }
    Ok(())
}

/// Returns whether the argument asks for requests to be refused.
fn asks_to_refuse<T: Runtime + AllocGlobal>(rt: &T) -> bool {
    let Ok(mut words) = env::args(rt) else {
        return false;
    };
    let _program = words.next();
    match words.next() {
        Some(word) => word.as_str() == "refused",
        None => false,
    }
}

/// Tries all rows and prints how they went. Returns whether none differs.
fn start<T: Runtime + AllocGlobal>(rt: &T) -> io::Result<bool> {
    let refuses = asks_to_refuse(rt);
    if refuses && !Trial::new(rt.alloc(), 0).is_obeyed() {
        println!(rt; "nobody refuses memory")?;
        return Ok(false);
    }
    let mut count = Count {
        rows: 0,
        refused: 0,
        differ: 0,
    };
    try_folder(rt, ".", refuses, &mut count)?;
    if refuses {
        println!(rt;
            "{} rows, {} requests refused, {} differ",
            count.rows, count.refused, count.differ
        )?;
    } else {
        println!(rt; "{} rows, {} differ", count.rows, count.differ)?;
    }
    Ok(count.rows > 0 && count.differ == 0)
}

fn main(rt: HostRuntime) -> ExitCode {
    match start(&rt) {
        Ok(true) => ExitCode::SUCCESS,
        _ => ExitCode::from(1),
    }
}
