//! A note as a line of text.
//!
//! ```text
//! session 3 step 2 started 1
//! ```

ghost use Rattle.std.specs.Prelude.{◌≡◌, ◌++◌, ◌∷◌, [], IfOk, codes, decimal, string_bytes};
ghost use Rattle.rx_note_lines.specs.Lines.{head_of, kind_of, text_line_of};

use crate::kinds::attempt_number;
use rx_report::{Note, What};
use std::alloc::{AllocError, Global};

/// What a session did: its name, and its numbers.
fn kind(alloc: Global, what: &What) -> Result<String, AllocError>
    ensures { IfOk result (λ text. string_bytes text ≡ kind_of what.now) }
{
    match *what {
        What::Admitted => format!(in alloc; "admitted"),
        What::Gathered { files } => format!(in alloc; "gathered {files}"),
        What::Started { attempt } => started(alloc, attempt_number(attempt)),
        What::Ended { attempt, cause } => ended(alloc, attempt_number(attempt), cause),
        What::Published { entry, placed } => format!(in alloc; "published {entry} {placed}"),
        What::Replied { reply } => format!(in alloc; "replied {reply}"),
    }
}

/// The attempt of this number was started.
fn started(alloc: Global, attempt: u8) -> Result<String, AllocError>
    ensures { IfOk result (λ text. string_bytes text
        ≡ codes "started" ++ 32 ∷ (decimal attempt ++ [])) }
{
    format!(in alloc; "started {attempt}")
}

/// The attempt of this number ended.
fn ended(alloc: Global, attempt: u8, cause: u8) -> Result<String, AllocError>
    ensures { IfOk result (λ text. string_bytes text
        ≡ codes "ended" ++ 32 ∷ (decimal attempt ++ 32 ∷ (decimal cause ++ []))) }
{
    format!(in alloc; "ended {attempt} {cause}")
}

/// A number in digits.
fn digits(alloc: Global, number: u32) -> Result<String, AllocError>
    ensures { IfOk result (λ text. string_bytes text ≡ decimal number) }
{
    format!(in alloc; "{number}")
}

/// How a line begins.
fn head(alloc: Global, session: u32, step: u32) -> Result<String, AllocError>
    ensures { IfOk result (λ text. string_bytes text ≡ head_of session step) }
{
    let mut text = String::from_str(alloc, "session ")?;
    text.push_str(digits(alloc, session)?.as_str())?;
    text.push_str(" step ")?;
    text.push_str(digits(alloc, step)?.as_str())?;
    Ok(text)
}

/// A line that ends so.
fn line_with(alloc: Global, session: u32, step: u32, kind: &str) -> Result<String, AllocError>
    ensures { IfOk result (λ text. string_bytes text
        ≡ head_of session step ++ codes " " ++ kind.now ++ codes "\n") }
{
    let mut text = head(alloc, session, step)?;
    text.push_str(" ")?;
    text.push_str(kind)?;
    text.push_str("\n")?;
    Ok(text)
}

/// The line of a note.
pub fn text_line(alloc: Global, note: &Note) -> Result<String, AllocError>
    ensures { IfOk result (λ text. string_bytes text ≡ text_line_of note.now) }
{
    let kind = kind(alloc, &note.what)?;
    line_with(alloc, note.session, note.step, kind.as_str())
}
