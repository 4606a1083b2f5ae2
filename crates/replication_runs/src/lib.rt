// A run of desk and wall: the desk's calls, and between them the wall's deliveries and its starts from what the desk has then.
#![tactic(auto)]

mod desk_calls;
mod run_lists;
mod wall_inputs;

use replication::Replica;
pub use run_lists::run_both;
use window::Window;

// The two replicas and the desk's window, and how many of the desk's calls were made.
#[derive(Clone, Copy)]
pub(crate) struct Run {
    pub desk: Replica,
    pub window: Window,
    pub wall: Replica,
    pub made: usize,
}

// The result of a run: the two replicas and the desk's window.
#[derive(Clone, Copy)]
pub struct RunResult {
    pub desk: Replica,
    pub window: Window,
    pub wall: Replica,
}
