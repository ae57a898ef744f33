//! `copies COUNT LINE ..`: an upload of one file so many times over, which the farm has, and of which
//! nothing is kept. It shows how many digests each call names.

ghost use Rattle.std.specs.Prelude.{IfOk};
ghost use Rattle.rx_blobs.specs.Uploads.{AreMade};

use crate::lines::read_lines;
use crate::names::Names;
use crate::uploads::{Uploads, input_file, tree_of};
use rx_base::{Items, TryClone};
use rx_blobs::{Blob, ToUpload};
use rx_exec_messages::Ask;
use rx_rows::{RowFault, Turn};
use rx_world::InputFile;
use std::alloc::Global;
use std::sync::Wait;

/// Writes what the upload answered, and of each call how many digests it asked for.
pub(crate) fn answer_copies<R: Wait>(rt: &R, turn: &mut Turn<'_, '_>) {
    let count = turn.read_number();
    let done = upload_copies(rt, count, turn);
    turn.keep(done);
}

fn upload_copies<R: Wait>(rt: &R, count: u64, turn: &mut Turn<'_, '_>) -> Result<(), RowFault> {
    let mut uploads = read_uploads(turn)?;
    match file_copies(turn.alloc(), count) {
        Ok(blobs) => {
            let what = ToUpload {
                blobs: blobs.as_slice(),
                most: 0,
                fresh: false,
            };
            uploads.answer_one(rt, &what, turn);
        }
        Err(fault) => turn.refuse(fault),
    }
    write_counts(uploads.farm.asks(), turn);
    Ok(())
}

/// An empty source tree, and a farm that answers the lines of the next words.
fn read_uploads(turn: &mut Turn<'_, '_>) -> Result<Uploads, RowFault> {
    let alloc = turn.alloc();
    let sources = tree_of(alloc, "")?;
    let mut names = Names::new(alloc);
    let lines = read_lines(turn, &mut names);
    Ok(Uploads::new(alloc, names, sources, lines, 0))
}

/// The file with the text `aa`, so many times.
fn file_copies(alloc: Global, count: u64) -> Result<Items<Blob>, RowFault>
    ensures { IfOk result AreMade }
{
    let file = input_file(alloc, b"aa")?;
    copies_of(alloc, &file, count)
}

/// The file so many times.
fn copies_of(alloc: Global, file: &InputFile, count: u64) -> Result<Items<Blob>, RowFault>
    ensures { IfOk result AreMade }
{
    let mut blobs = Items::new(alloc);
    for _ in 0..count {
        let copy = InputFile {
            path: file.path.try_clone(alloc)?,
            digest: file.digest,
            stamp: file.stamp,
            executable: file.executable,
        };
        let Ok(()) = blobs.push(Blob::File(copy)) else {
            return Err(RowFault::NoMemory);
        };
    }
    Ok(blobs)
}

/// Writes how many digests each call asked for. `BadCall` where a call did something else.
fn write_counts(asks: &[Ask], turn: &mut Turn<'_, '_>) {
    turn.write_word("calls");
    for ask in asks {
        match ask {
            Ask::FindMissing(digests) => {
                turn.write_named("find_missing", digests.as_slice().len() as u64);
            }
            _ => turn.refuse(RowFault::BadCall),
        }
    }
}
