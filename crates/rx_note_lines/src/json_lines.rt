//! A note as a line of JSON.
//!
//! ```text
//! {"name":"started","numbers":[1],"session":3,"step":2}
//! ```

ghost use Rattle.std.specs.Prelude.{◌≡◌, ◌++◌, IfOk, codes, string_bytes};
ghost use Rattle.rx_note_lines.specs.Lines.{data_of, items_of, json_line_of, name_of, numbers_of};
ghost use Rattle.serde_json.specs.Data.{Data, number, unsigned, string, array, object, item, no_items, member, no_members};
ghost use Rattle.serde_json.specs.View.{view};

use crate::kinds::{attempt_number, name};
use rx_report::{Note, What};
use serde_json::{Value, json};
use std::alloc::{AllocError, Global};

/// The numbers of what a session did.
fn numbers(alloc: Global, what: &What) -> Result<Value, AllocError>
    ensures { IfOk result (λ v. view v ≡ array (items_of (numbers_of what.now))) }
{
    match *what {
        What::Admitted => json!(in alloc; []),
        What::Gathered { files } => json!(in alloc; [files]),
        What::Started { attempt } => one(alloc, attempt_number(attempt)),
        What::Ended { attempt, cause } => two(alloc, attempt_number(attempt), cause),
        What::Published { entry, placed } => json!(in alloc; [entry, placed]),
        What::Replied { reply } => one(alloc, reply),
    }
}

/// A list of one number.
fn one(alloc: Global, first: u8) -> Result<Value, AllocError>
    ensures { IfOk result (λ v. view v ≡ array (item (number (unsigned first)) no_items)) }
{
    json!(in alloc; [first])
}

/// A list of two numbers.
fn two(alloc: Global, first: u8, second: u8) -> Result<Value, AllocError>
    ensures { IfOk result (λ v. view v
        ≡ array (item (number (unsigned first)) (item (number (unsigned second)) no_items))) }
{
    json!(in alloc; [first, second])
}

/// A note in JSON.
pub fn json_value(alloc: Global, note: &Note) -> Result<Value, AllocError>
    ensures { IfOk result (λ v. view v ≡ data_of note.now) }
{
    let name = name(&note.what);
    let numbers = numbers(alloc, &note.what)?;
    json!(in alloc; {"name": name, "numbers": &numbers, "session": note.session, "step": note.step})
}

/// The line of a note in JSON.
pub fn json_line(alloc: Global, note: &Note) -> Result<String, AllocError>
    ensures { IfOk result (λ text. string_bytes text ≡ json_line_of note.now) }
{
    let value = json_value(alloc, note)?;
    let mut text = value.to_string(alloc)?;
    text.push_str("\n")?;
    Ok(text)
}
