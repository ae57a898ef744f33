//! `fetch MOST WANTED LINE ..`: a fetch of the blobs whose texts stand in one pair of quotes with a space
//! between each two, with this limit of a batch, from a farm that answers these lines.

use crate::answers::{write_asks, write_texts, write_why};
use crate::lines::read_lines;
use crate::names::Names;
use rx_base::{Bytes, Items};
use rx_blobs::{BlobFault, fetch};
use rx_exec_messages::Script;
use rx_rows::Turn;
use rx_world::{Dialect, Toy};
use std::marker::Brand;

/// Writes what the fetch gave, the calls that it made, and how many of them failed.
pub(crate) fn answer_fetch(turn: &mut Turn<'_, '_>) {
    let alloc = turn.alloc();
    let mut names = Names::new(alloc);
    let most = turn.read_number();
    let wanted = names.read_digests(turn);
    let lines = read_lines(turn, &mut names);
    let mut farm = Script::new(alloc, lines, Dialect::New);
    let fetched = fetch::<Toy<Brand>, Script>(alloc, &mut farm, wanted.as_slice(), most);
    write_fetched(&fetched, &farm, &names, turn);
}

fn write_fetched(
    fetched: &Result<Items<Bytes>, BlobFault>,
    farm: &Script,
    names: &Names,
    turn: &mut Turn<'_, '_>,
) {
    match fetched {
        Ok(texts) => write_texts(texts.as_slice(), turn),
        Err(fault) => write_why(fault, names, turn),
    }
    write_asks(farm.asks(), names, turn);
    turn.write_named("faults", farm.faults());
}
