// Replays the oracle's recorded answers on the engine and writes how many came out alike.
#![tactic(auto)]

mod catch_ups;
mod edits;
mod entries;
mod images;
mod magnitudes;
mod messages;
mod patterns;
mod report;
mod roots;
mod runs;
mod square_roots;
mod tally;
mod walk;
mod written;

use std::rt::Files;
use std::{fs, io};
use walk::Subject;

// The most bytes that a list may have. A list is read into a vector: an array of that size is more than the check can take.
const ROOM: usize = 655360;

// Reads a list, replays it and writes what came of it.
fn replay_file(rt: &(impl Files + Print + AllocGlobal), subject: Subject) -> io::Result<()> {
    match fs::read(rt, subject.path()) {
        Ok(list) if list.len() <= ROOM => {
            report::result(rt, subject.name(), &walk::replay(subject, &list))
        }
        _ => report::unread(rt, subject.name()),
    }
}

fn main(rt: HostRuntime) -> io::Result<()> {
    for subject in Subject::ALL {
        replay_file(&rt, subject)?;
    }
    Ok(())
}
