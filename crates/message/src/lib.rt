// Edit messages: bytes read and written.
#![tactic(auto)]

mod layout;
mod messages;
mod operations;

pub use layout::{MARK_SIZE, MESSAGE_SIZE};
pub use messages::{read_message, write_message};
pub use operations::operation_of;
use sketch::Id;

// The version that is read and written.
pub const MESSAGE_VERSION: u8 = 2;

// A mark (the glossary's term): eight bytes from the host, by which the messages of one start of a desk are told from all others.
pub type Mark = u64;

// The number of an edit, from 1, and a count of edits.
pub type EditNumber = u32;

pub const MAX_EDIT_NUMBER: EditNumber = 4294967295;

// What a person does to a curve.
#[derive(Clone, Copy)]
pub enum Operation {
    Trim,
    Split,
    Extend,
}

// One edit. The pick's coordinates are patterns of bits: a NaN's are kept, so that they can be refused later.
#[derive(Clone, Copy)]
pub struct Message {
    pub number: EditNumber,
    pub operation: Operation,
    pub curve: Id,
    pub x: u64,
    pub y: u64,
}
