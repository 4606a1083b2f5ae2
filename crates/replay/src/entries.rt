// Lists of recorded answers. An entry is an outcome (a refusal's number, 0 for acceptance) in a byte, the length of the
// input in four, and the input, whose form is its subject's.
ghost use Rattle.std.specs.Prelude.{◌<◌, IfSome, length};

use big_endian::get4;

// The bytes of an input's length.
const LENGTH_SIZE: usize = 4;

// An entry's outcome and its input. An entry that runs past the list's end has no input, and is the list's last.
#[derive(Clone, Copy)]
pub(crate) struct Entry<'a> {
    pub outcome: u8,
    pub input: Option<&'a [u8]>,
}

// The input at a list's front, and the list behind it.
fn split_input(list: &[u8]) -> Option<(&[u8], &[u8])>
    ensures { IfSome result (λ p. length p.1.now < length list.now) }
{
    let (_, inputs) = list.split_at_checked(LENGTH_SIZE)?;
    inputs.split_at_checked(get4(list, 0) as usize)
}

// The first entry of a list, and the list behind it.
pub(crate) fn split_entry(list: &[u8]) -> Option<(Entry<'_>, &[u8])>
    ensures { IfSome result (λ p. length p.1.now < length list.now) }
{
    let (outcome, rest) = list.split_first()?;
    let outcome = *outcome;
    match split_input(rest) {
        Some((input, rest)) => Some((
            Entry {
                outcome,
                input: Some(input),
            },
            rest,
        )),
        None => Some((
            Entry {
                outcome,
                input: None,
            },
            &[],
        )),
    }
}
