// The engine for a host in C or Rust: calls in C's convention on memory that is lent for the call.
#![tactic(auto)]

mod buffers;
mod catching_up;
mod desk;
mod polynomials;
mod wall;

ghost use Rattle.std.specs.Prelude.{◌≡◌, ◌+◌, ◌*◌};
ghost use Rattle.image.specs.Image as I;
ghost use Rattle.message.specs.Message as M;
ghost use Rattle.mulkefi.specs.Calls.{interface, library_version};

use buffers::number_of;
use replication::test_image;

// A field of an answer: it holds a count of edits, a size in bytes or an id.
pub(crate) type AnswerField = u32;

// The number of this interface: another one has not all of its calls, or has some that take or mean something else.
const INTERFACE: u32 = 2;

// How many times calls were added to this interface.
const ADDITIONS: u32 = 0;

// How many corrections were made since the last addition.
const CORRECTIONS: u32 = 0;

// The number of the interface that a host is linked to, which it compares with the number that its header or binding has.
#[unsafe(no_mangle)]
pub extern "C" fn mulkefi_interface() -> u32
    ensures { result ≡ interface }
{
    INTERFACE
}

// The library's version, as its three numbers: the interface's times 65536, that of additions times 256, and that of corrections.
#[unsafe(no_mangle)]
pub extern "C" fn mulkefi_library_version() -> u32
    ensures { result ≡ library_version }
{
    INTERFACE * 65536 + ADDITIONS * 256 + CORRECTIONS
}

// The image's version, times 256, and the message's.
#[unsafe(no_mangle)]
pub extern "C" fn mulkefi_versions() -> u32
    ensures { result ≡ I.version * 256 + M.version }
{
    image::IMAGE_VERSION as u32 * 256 + message::MESSAGE_VERSION as u32
}

// The number that an image is refused by, or 0.
#[unsafe(no_mangle)]
pub extern "C" fn mulkefi_test(bytes: &[u8]) -> u32
    ensures { result ≡ I.image_fault bytes.now }
{
    number_of(test_image(bytes))
}
