//! HPACK header compression (RFC 7541) as an HTTP/2 client needs it.
//!
//! [`Decoder::block`] reads a whole header block and keeps the dynamic table from block to block.
//! [`Encoder::block`] writes one by the static table alone. Frames and their order are the concern
//! of the layer above.
#![tactic(auto)]

mod decoder;
mod dynamic_table;
mod encoder;
mod fault;
mod header;
mod header_list;
mod huffman;
mod huffman_tables;
mod index;
mod integer;
mod representation;
mod static_table;
mod text;

pub use decoder::Decoder;
pub use encoder::Encoder;
pub use fault::HpackFault;
pub use header::Header;
pub use header_list::LARGEST_LIST;
