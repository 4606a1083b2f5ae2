// What came of a list, in words on standard output.
use crate::tally::{OUTCOMES, Tally};
use std::io;

// A list that can't be replayed: missing, unreadable or too long.
pub(crate) fn unread(rt: &impl Print, name: &str) -> io::Result<()> {
    println!(rt; "{name}: not read whole")
}

pub(crate) fn result(rt: &impl Print, name: &str, tally: &Tally) -> io::Result<()> {
    println!(rt; "{name}: {} recorded, {} alike", tally.entries, tally.alike)?;
    // Of a list whose inputs are all accepted there is no more to say.
    if tally.outcomes[0] != tally.entries {
        by_outcome(rt, &tally.outcomes)?;
    }
    // The place, from 0, of the first entry that differs, where one does.
    if tally.prefix < tally.entries {
        println!(rt; "  first difference at {}", tally.prefix)?;
    }
    Ok(())
}

// How many were accepted, and the refusals that came up, each with its number of entries.
fn by_outcome(rt: &impl Print, outcomes: &[usize; OUTCOMES]) -> io::Result<()> {
    print!(rt; "  accepted {}", outcomes[0])?;
    let mut words = ", refused by";
    for (refusal, entries) in outcomes.iter().enumerate().skip(1) {
        if *entries != 0 {
            print!(rt; "{words} {refusal}: {entries}")?;
            words = ",";
        }
    }
    println!(rt; "")
}
