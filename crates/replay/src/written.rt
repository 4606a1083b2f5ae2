// Buffers that a writer was lent: filled with a pattern before, so that a change of bytes that it should leave is seen.
use sketch::Sketch;

pub(crate) const PATTERN: u8 = 0xa5;

// Room for the largest image, 21,135 bytes, and some more.
pub(crate) const IMAGE_ROOM: usize = 21504;

// Whether a buffer of the pattern was overwritten with some bytes at its front, and only there.
pub(crate) fn holds_just(buf: &[u8], bytes: &[u8]) -> bool {
    match buf.strip_prefix(bytes) {
        Some(rest) => rest.iter().all(|byte| *byte == PATTERN),
        None => false,
    }
}

// Whether a sketch has an image, and it is these bytes.
pub(crate) fn holds_image(sketch: Sketch, bytes: &[u8]) -> bool {
    let mut buf = [PATTERN; IMAGE_ROOM];
    sketch_image::write(sketch, &mut buf).is_ok() && holds_just(&buf, bytes)
}
