// Sizes in bytes, and where an image's fields stand.
use sketch::ID_SIZE;

// The version follows the length of all that is behind it.
pub const VERSION_AT: usize = 4;

// An image's header.
pub const NEXT_ID_AT: usize = VERSION_AT + 1;

pub const POINT_COUNT_AT: usize = NEXT_ID_AT + ID_SIZE;

pub const CURVE_COUNT_AT: usize = POINT_COUNT_AT + 2;

pub const RELATION_COUNT_AT: usize = CURVE_COUNT_AT + 2;

pub const HEADER_SIZE: usize = RELATION_COUNT_AT + 2;

// A point, behind its id.
pub const POINT_X_AT: usize = ID_SIZE;

pub const POINT_Y_AT: usize = POINT_X_AT + 8;

pub const POINT_FLAGS_AT: usize = POINT_Y_AT + 8;

pub const POINT_SIZE: usize = POINT_FLAGS_AT + 1;

// A curve, behind its id.
pub const CURVE_KIND_AT: usize = ID_SIZE;

pub const CURVE_FLAGS_AT: usize = CURVE_KIND_AT + 1;

pub const DEGREE_AT: usize = CURVE_FLAGS_AT + 1;

pub const SLOTS_AT: usize = DEGREE_AT + 1;

pub const SECOND_SLOT_AT: usize = SLOTS_AT + ID_SIZE;

pub const THIRD_SLOT_AT: usize = SECOND_SLOT_AT + ID_SIZE;

pub const FOURTH_SLOT_AT: usize = THIRD_SLOT_AT + ID_SIZE;

pub const FIFTH_SLOT_AT: usize = FOURTH_SLOT_AT + ID_SIZE;

pub const SIXTH_SLOT_AT: usize = FIFTH_SLOT_AT + ID_SIZE;

pub const SEVENTH_SLOT_AT: usize = SIXTH_SLOT_AT + ID_SIZE;

pub const EIGHTH_SLOT_AT: usize = SEVENTH_SLOT_AT + ID_SIZE;

pub const CURVE_NUMBER_AT: usize = EIGHTH_SLOT_AT + ID_SIZE;

pub const CURVE_SIZE: usize = CURVE_NUMBER_AT + 8;

// A relation, behind its kind.
pub const FIRST_ID_AT: usize = 1;

pub const SECOND_ID_AT: usize = FIRST_ID_AT + ID_SIZE;

pub const VALUE_AT: usize = SECOND_ID_AT + ID_SIZE;

pub const RELATION_SIZE: usize = VALUE_AT + 8;

// The largest image, whose tables are full.
pub const MAX_IMAGE_SIZE: usize = HEADER_SIZE
    + 512 * POINT_SIZE
    + 128 * CURVE_SIZE
    + 256 * RELATION_SIZE;
