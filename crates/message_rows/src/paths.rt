//! `path CALL ..`: one path, and a path among others.

use crate::arguments::{path, paths, write_path, write_paths};
use rx_base::{
    Items, NoMemory, PathFault, RelPath, first_above, first_at_or_above, first_below, is_above_any,
    is_among, is_at_or_below_any, is_below_any, sort_paths,
};
use rx_rows::{RowFault, Turn};
use std::alloc::Global;

/// Makes the call that the next word names.
pub(crate) fn call(turn: &mut Turn<'_, '_>) {
    match turn.read_word() {
        "read" => read(turn),
        "join" => join(turn),
        "parent" => parent(turn),
        "prefixes" => prefixes(turn),
        "is_below" => is_below(turn),
        "sort" => sort(turn),
        "find" => find(turn),
        "ask" => ask(turn),
        _ => turn.refuse(RowFault::NoCall),
    }
}

/// Writes a path, or why there is none.
fn write_read(read: Result<RelPath, PathFault>, turn: &mut Turn<'_, '_>) {
    match read {
        Ok(path) => write_path(&path, turn),
        Err(PathFault::NoMemory) => turn.refuse(RowFault::NoMemory),
        Err(fault) => turn.write_value(&fault),
    }
}

/// `read TEXT`: the path that a text names.
fn read(turn: &mut Turn<'_, '_>) {
    let text = turn.read_string();
    write_read(RelPath::read(turn.alloc(), text.as_str()), turn);
}

/// `join PATH TEXT`: the path that a text names on from another.
fn join(turn: &mut Turn<'_, '_>) {
    let base = path(turn);
    let text = turn.read_string();
    write_read(base.join(turn.alloc(), text.as_str()), turn);
}

/// `parent PATH`: the path one name above, or `none`.
fn parent(turn: &mut Turn<'_, '_>) {
    let path = path(turn);
    match path.parent(turn.alloc()) {
        Ok(Some(parent)) => write_path(&parent, turn),
        Ok(None) => turn.write_word("none"),
        Err(_) => turn.refuse(RowFault::NoMemory),
    }
}

/// `prefixes PATH`: the paths above, the upper first.
fn prefixes(turn: &mut Turn<'_, '_>) {
    let path = path(turn);
    match path.prefixes(turn.alloc()) {
        Ok(prefixes) => write_paths(prefixes.as_slice(), turn),
        Err(_) => turn.refuse(RowFault::NoMemory),
    }
}

/// `is_below PATH PATH`: whether the first lies below the second.
fn is_below(turn: &mut Turn<'_, '_>) {
    let first = path(turn);
    let second = path(turn);
    turn.write_value(&first.is_below(&second));
}

/// `sort PATHS`: copies of the paths in order, each once.
fn sort(turn: &mut Turn<'_, '_>) {
    let paths = paths(turn);
    match sorted_copies(turn.alloc(), paths.as_slice()) {
        Ok(sorted) => write_paths(sorted.as_slice(), turn),
        Err(_) => turn.refuse(RowFault::NoMemory),
    }
}

fn sorted_copies(alloc: Global, paths: &[RelPath]) -> Result<Items<RelPath>, NoMemory> {
    sort_paths(Items::copy_of(alloc, paths)?)
}

/// `find PATH PATHS`: which of the sorted paths stands above the path, at or above it, and below it.
fn find(turn: &mut Turn<'_, '_>) {
    let path = path(turn);
    match sort_paths(paths(turn)) {
        Ok(sorted) => {
            let others = sorted.as_slice();
            write_place(first_above(others, &path), turn);
            write_place(first_at_or_above(others, &path), turn);
            write_place(first_below(others, &path), turn);
        }
        Err(_) => turn.refuse(RowFault::NoMemory),
    }
}

/// Writes a place in a list, or `none`.
fn write_place(place: Option<usize>, turn: &mut Turn<'_, '_>) {
    match place {
        Some(at) => turn.write_number(at as u64),
        None => turn.write_word("none"),
    }
}

/// `ask PATH PATHS`: whether the path is among the sorted paths, stands below one, is one or stands
/// below one, and stands above one.
fn ask(turn: &mut Turn<'_, '_>) {
    let path = path(turn);
    match sort_paths(paths(turn)) {
        Ok(sorted) => {
            let others = sorted.as_slice();
            turn.write_value(&is_among(&path, others));
            turn.write_value(&is_below_any(&path, others));
            turn.write_value(&is_at_or_below_any(&path, others));
            turn.write_value(&is_above_any(&path, others));
        }
        Err(_) => turn.refuse(RowFault::NoMemory),
    }
}
