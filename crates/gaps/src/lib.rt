// Closing the gaps of a task queue, and the append that closes them first.
#![tactic(auto)]

ghost use Rattle.std.specs.Prelude.{◌≡◌, replicate};
ghost use Rattle.queues.specs.Queue.{Queue, contents, task_kind};
ghost use Rattle.queues.specs.Items.{live};
ghost use Rattle.gaps.specs.Close.{laid, closed, roomy, task_appended, task_answer};
ghost use Rattle.gaps.specs.Row.{Row};

use queues::{Full, Kind, QueueAt};
use settings::Settings;

// Copies the live items to the row, and answers how many they are.
fn gather(node: &[u32], queue: QueueAt, row: &mut [u32; 255]) -> u32
    requires queue { Queue queue.kind node.now queue.at }
    requires row_value { row.old ≡ replicate 255 0 }
    ensures { Row (live (contents queue.kind node.now queue.at)) row.new result }
{
    let mut n: usize = 0;
    for i in 0..queue.items(node) {
        let x = queue.item(node, i);
        if x != 0 {
            row[n] = x;
            n += 1;
        }
    }
    n as u32
}

// Lays the row into the slots, from the start slot on.
fn lay(node: &mut [u32], queue: QueueAt, row: &[u32; 255])
    requires { Queue queue.kind node.old queue.at }
    ensures { node.new ≡ laid queue.kind node.old queue.at row.now queue.kind.slots }
{
    let first = node[queue.at] as usize;
    for i in 0..queue.kind.slots {
        node[queue.slot(first, i)] = row[i];
    }
}

// Closes the gaps: live items keep their order and stand from the start slot on, flag 0.
pub fn close(node: &mut [u32], s: Settings, q: usize)
    requires { Queue (task_kind s) node.old q }
    ensures { node.new ≡ closed s node.old q }
{
    let queue = QueueAt {
        kind: Kind::task(s),
        at: q,
    };
    // the side row, in fixed memory: there is no heap
    let mut row = [0u32; 255];
    let n = gather(node, queue, &mut row);
    lay(node, queue, &row);
    node[q + 1] = n;
    node[q + 2] = 0;
}

// Closes the gaps where the queue is at its length and the flag is 1.
fn make_room(node: &mut [u32], s: Settings, q: usize)
    requires { Queue (task_kind s) node.old q }
    ensures { node.new ≡ roomy s node.old q }
{
    if node[q + 1] as usize == s.t && node[q + 2] == 1 {
        close(node, s, q);
    }
}

// Puts an item behind the last of a task queue, closing its gaps first where that makes room, or counts that there was none.
pub fn append(node: &mut [u32], s: Settings, q: usize, item: u32) -> Result<(), Full>
    requires { Queue (task_kind s) node.old q }
    ensures { (node.new ≡ task_appended s node.old q item) × (result ≡ task_answer s node.old q) }
{
    make_room(node, s, q);
    let queue = QueueAt {
        kind: Kind::task(s),
        at: q,
    };
    queue.append(node, item)
}
