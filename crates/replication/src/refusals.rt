// The test of an image: desk and wall refuse by the image's own refusal before any other.
ghost use Rattle.std.specs.Prelude.{◌≡◌};
ghost use Rattle.refusal.specs.Refusals.{number, refusal_number};
ghost use Rattle.image.specs.Image.{image_fault};
ghost use Rattle.replication.specs.Transitions.{first_fault};

use refusal::Refusal;

// Whether an image is good, or what it is refused by.
pub fn test_image(image: &[u8]) -> Result<(), Refusal>
    ensures { refusal_number result ≡ image_fault image.now }
{
    let mut near = [0u16; 1024];
    rows::image_fault(image, &mut near)
}

// What an image is refused by, or else the refusal given.
pub fn first_refusal(image: &[u8], refusal: Refusal) -> Refusal
    ensures { number result ≡ first_fault image.now (number refusal) }
{
    match test_image(image) {
        Ok(()) => refusal,
        Err(own) => own,
    }
}

// The number that an image is refused by, or else the number given.
pub fn first_fault(image: &[u8], number: u8) -> u8
    ensures { result ≡ first_fault image.now number }
{
    match test_image(image) {
        Ok(()) => number,
        Err(own) => own.number(),
    }
}
