//! Values that everything else is made of: texts, bytes, sequences, boxes, shared values, maps by name, moments,
//! addresses, and the memory that they take. It stands on the standard library alone. Contracts see
//! texts, bytes and sequences as lists, a map as a finite map, and a moment as its seconds and
//! nanoseconds.
#![tactic(auto)]

pub mod address;
pub mod boxed;
pub mod bytes;
pub mod copies;
pub mod instant;
pub mod laws;
pub mod memory;
pub mod seq;
pub mod shared;
pub mod text;
pub mod text_map;
pub mod white_space;

pub use address::Address;
pub use boxed::Boxed;
pub use bytes::Bytes;
pub use copies::{TryCopy, copy_option};
pub use instant::Instant;
pub use memory::OutOfMemory;
pub use seq::Seq;
pub use shared::Shared;
pub use text::{Text, texts};
pub use text_map::TextMap;
pub use white_space::{is_blank, trimmed};
