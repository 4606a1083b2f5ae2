// Sizes in bytes, and where a message's fields stand.
use sketch::ID_SIZE;

pub(crate) const LENGTH_SIZE: usize = 4;

pub const MARK_SIZE: usize = 8;

const EDIT_NUMBER_SIZE: usize = 4;

// The version follows the length of all that is behind it.
pub(crate) const VERSION_AT: usize = LENGTH_SIZE;

pub(crate) const MARK_AT: usize = VERSION_AT + 1;

pub(crate) const EDIT_NUMBER_AT: usize = MARK_AT + MARK_SIZE;

pub(crate) const OPERATION_AT: usize = EDIT_NUMBER_AT + EDIT_NUMBER_SIZE;

pub(crate) const CURVE_AT: usize = OPERATION_AT + 1;

pub(crate) const X_AT: usize = CURVE_AT + ID_SIZE;

pub(crate) const Y_AT: usize = X_AT + 8;

pub const MESSAGE_SIZE: usize = Y_AT + 8;
