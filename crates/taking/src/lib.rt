// Finding a letter in a task queue, and taking an item out of it.
#![tactic(auto)]

ghost use Rattle.std.specs.Prelude.{◌≡◌, ◌≤◌, ◌<◌};
ghost use Rattle.layout.specs.Asked.{Stretch};
ghost use Rattle.queues.specs.Queue.{Queue, items, contents, task_kind};
ghost use Rattle.queues.specs.Items.{gap_flag};
ghost use Rattle.taking.specs.Find.{from, found, Findable};
ghost use Rattle.taking.specs.Take.{cleared, out, taken_out, Place};

use queues::{Kind, QueueAt};
use settings::Settings;

// Whether the letter that block b begins is from the source; source 0 stands for any.
fn is_from(node: &[u32], s: Settings, source: u32, b: u32) -> bool
    requires stretch { Stretch s node.now }
    requires le_b { (1 ≤ b) × (b ≤ s.m) }
    ensures { result ≡ from s node.now source b }
{
    source == 0 || node[layout::block_at(s, b as usize)] == source
}

// The place of the first letter from the source, if there is one.
// (`gap_passed` is there for the edit `gap_is_the_end`: with it the right program of that form proves, so that the edit is refused for the fact.)
#[tactic(auto, using(crate::proofs::Turns::gap_passed))]
pub fn find(node: &[u32], s: Settings, q: usize, source: u32) -> Option<usize>
    requires { Findable s node.now q }
    ensures { result ≡ found s node.now q source }
{
    let queue = QueueAt {
        kind: Kind::task(s),
        at: q,
    };
    for i in 0..queue.items(node) {
        let b = queue.item(node, i);
        if b != 0 && is_from(node, s, source, b) {
            return Some(i);
        }
    }
    None
}

// Drops the zeroes at the front.
fn drop_zeroes(node: &mut [u32], queue: QueueAt)
    requires { Queue queue.kind node.old queue.at }
    ensures { node.new ≡ cleared queue.kind queue.at (items queue.kind node.old queue.at) node.old }
{
    // what is left of the queue is tested, no index is counted
    while queue.items(node) > 0 && queue.item(node, 0) == 0 {
        queue.drop_first(node);
    }
}

// 1 if an item is 0, else 0.
pub fn gap_flag(node: &[u32], queue: QueueAt) -> u32
    requires { Queue queue.kind node.now queue.at }
    ensures { result ≡ gap_flag (contents queue.kind node.now queue.at) }
{
    for i in 0..queue.items(node) {
        if queue.item(node, i) == 0 {
            return 1;
        }
    }
    0
}

// Drops the first item with the zeroes directly behind it; an item further in becomes 0.
fn take(node: &mut [u32], queue: QueueAt, i: usize)
    requires { Place queue.kind node.old queue.at i }
    ensures { node.new ≡ out queue.kind node.old queue.at i }
{
    if i == 0 {
        queue.drop_first(node);
        drop_zeroes(node, queue);
        return;
    }
    let first = node[queue.at] as usize;
    node[queue.slot(first, i)] = 0;
}

// Takes the item at place i out of a task queue, and sets its flag.
pub fn take_out(node: &mut [u32], s: Settings, q: usize, i: usize)
    requires { Place (task_kind s) node.old q i }
    ensures { node.new ≡ taken_out s node.old q i }
{
    let queue = QueueAt {
        kind: Kind::task(s),
        at: q,
    };
    take(node, queue, i);
    let flag = gap_flag(node, queue);
    node[q + 2] = flag;
}
