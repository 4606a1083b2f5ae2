// What the wall is given: messages of the desk's log, other bytes, and starts from what the desk has.
ghost use Rattle.std.specs.Prelude.{◌≡◌, List, ℕ, suc, ◌*◌, ◌≤◌, length};
ghost use Rattle.message.specs.Message.{message_size};
ghost use Rattle.replication.specs.Transitions.{memory};
ghost use Rattle.replication_runs.specs.RunBoth.{other_at, if_unread};
ghost use Rattle.replication_runs.specs.Clauses.{WallGiven, RunsOn};

use crate::Run;
use big_endian::get2;
use message::MESSAGE_SIZE;
use replication::{Replica, start, wall_deliver};
use rows::{front, rest};

// Other bytes stand behind their number, in two bytes.
const LENGTH_SIZE: usize = 2;

// The other bytes that begin at a place, as many as there are.
fn other_at(others: &[u8], at: usize) -> &[u8]
    ensures { result.now ≡ other_at others.now at }
{
    let from = rest(others, at);
    front(rest(from, LENGTH_SIZE), get2(from, 0) as usize)
}

// Delivers bytes that the wall does not read, and passes over those that it would.
fn deliver_unread(replica: Replica, buffer: &mut [u8], bytes: &[u8]) -> Replica
    ensures { WallGiven (memory replica buffer.old) (if_unread replica.mark bytes.now) (memory result buffer.new) }
{
    match message::read_message(bytes, replica.mark) {
        Ok(_) => replica,
        Err(_) => wall_deliver(replica, buffer, bytes).replica,
    }
}

// Delivers what a number names: one of the desk's messages so far, by the log, or other bytes.
pub(crate) fn deliver_at(mut run: Run, log: &[u8], others: &[u8], wall: &mut [u8], o: usize) -> Run
    requires { message_size * run.desk.count ≤ length log.now }
    ensures { (entries desk : List ℕ) → RunsOn (suc (suc o)) entries others.now run log.now desk wall.old result log.now desk wall.new }
{
    let n = run.desk.count as usize;
    if n <= o {
        run.wall = deliver_unread(run.wall, wall, other_at(others, o - n));
        return run;
    }
    let from = o * MESSAGE_SIZE;
    run.wall = wall_deliver(run.wall, wall, &log[from..from + MESSAGE_SIZE]).replica;
    run
}

// Starts the wall from the desk's present image and count, with its mark.
pub(crate) fn start_again(mut run: Run, desk: &[u8], wall: &mut [u8]) -> Run
    ensures { (entries others log : List ℕ) → RunsOn 1 entries others run log desk.now wall.old result log desk.now wall.new }
{
    let primary = run.desk;
    match start(front(desk, primary.size), primary.mark, primary.count, wall) {
        Ok(replica) => {
            run.wall = replica;
            run
        }
        Err(_) => run,
    }
}
