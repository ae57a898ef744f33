//! The wire format of Protocol Buffers: fields read from bytes, and bytes written from fields.
//! Messages and what their fields mean stand in the crates above.
#![tactic(auto)]

mod faults;
mod fields;
mod found;
mod integers;
mod out;
mod texts;
mod values;
mod varints;

pub use faults::WireFault;
pub use fields::Fields;
pub use integers::int32_of;
pub use out::Out;
pub use texts::text_of;
pub use values::Value;
pub use varints::push_varint;
