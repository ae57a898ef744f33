//! Rows of header blocks: `block new`, `block decode`, `block count` and `block encode`.

use crate::headers::{read_headers, write_headers};
use rx_hpack::{Decoder, Encoder};
use rx_rows::{Answer, Row, RowFault};
use std::alloc::Global;

/// A decoder.
#[derive(Drop)]
pub(crate) struct Blocks {
    alloc: Global,
    decoder: Decoder,
}

impl Blocks {
    pub(crate) fn new(alloc: Global) -> Blocks {
        Blocks {
            alloc,
            decoder: Decoder::new(alloc),
        }
    }

    pub(crate) fn alloc(&self) -> Global {
        self.alloc
    }

    pub(crate) fn call(&mut self, row: &mut Row<'_>, answer: &mut Answer) -> Result<(), RowFault> {
        match row.word()? {
            "new" => {
                self.decoder = Decoder::new(self.alloc);
                Ok(answer.word("ok")?)
            }
            "decode" => self.decode(row, answer),
            "count" => self.count(row, answer),
            "encode" => self.encode(row, answer),
            _ => Err(RowFault::NoCall),
        }
    }

    /// `decode BYTES`: the headers of a block, or `empty`, or why it is refused.
    fn decode(&mut self, row: &mut Row<'_>, answer: &mut Answer) -> Result<(), RowFault> {
        let bytes = row.bytes(self.alloc)?;
        match self.decoder.block(self.alloc, &bytes) {
            Ok(headers) if headers.is_empty() => answer.word("empty")?,
            Ok(headers) => write_headers(self.alloc, &headers, answer)?,
            Err(fault) => answer.value(&fault)?,
        }
        Ok(())
    }

    /// `count BYTES ..`: how many headers the block has that these bytes make together, or why it is refused.
    fn count(&mut self, row: &mut Row<'_>, answer: &mut Answer) -> Result<(), RowFault> {
        let mut block = row.bytes(self.alloc)?;
        for _ in 0..u32::MAX {
            if row.is_done() {
                break;
            }
            block.extend_from_slice(&row.bytes(self.alloc)?)?;
        }
        match self.decoder.block(self.alloc, &block) {
            Ok(headers) => answer.number(headers.len() as u64)?,
            Err(fault) => answer.value(&fault)?,
        }
        Ok(())
    }

    /// `encode HEADER ..`: the block that is written for them.
    fn encode(&self, row: &mut Row<'_>, answer: &mut Answer) -> Result<(), RowFault> {
        let headers = read_headers(self.alloc, row)?;
        let block = Encoder::new().block(self.alloc, &headers)?;
        Ok(answer.bytes(&block)?)
    }
}
