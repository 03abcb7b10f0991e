// A node's stretch of the machine, lent to the functions on queues, blocks and letters.
#![tactic(auto)]

ghost use Rattle.std.specs.Prelude.{◌≡◌, ◌<◌};
ghost use Rattle.layout.specs.Places.{node, with_node, room_at};
ghost use Rattle.blocks.specs.Moves.{taken, taken_answer, given_back};
ghost use Rattle.queues.specs.Queue.{items, item_at};
ghost use Rattle.queues.specs.Moves.{counted, appended, append_answer, dropped};
ghost use Rattle.gaps.specs.Close.{task_appended, task_answer};
ghost use Rattle.sound.specs.Letters.{told_length};
ghost use Rattle.stages_keep.specs.Steps.{first_of, queue_for};
ghost use Rattle.lending.specs.Asked.{
  Lent,
  Begins,
  HasQueue,
  HasTaskQueue,
  HasFirst,
  MayTake,
  MayReturn,
  Addressed,
};

use queues::{Full, QueueAt};
use settings::Settings;

// The length that the letter begun by block b in node i tells.
#[tactic(auto, using(crate::proofs::Lent::begins_lies, crate::proofs::Lent::begins_told))]
pub fn length_of(memory: &[u32], s: Settings, i: usize, b: u32) -> usize
    requires { Begins s memory.now i b }
    ensures { result ≡ told_length s (node s memory.now i) b }
{
    letters::told_length(layout::stretch(memory, s, i), s, b) as usize
}

// The first item of send queue j on node i.
#[tactic(auto, using(crate::proofs::Queues::first_item))]
pub fn first_of(memory: &[u32], s: Settings, i: usize, j: usize) -> u32
    requires { HasFirst s memory.now i j }
    ensures { result ≡ first_of s j memory.now i }
{
    QueueAt::send(s, j).item(layout::stretch(memory, s, i), 0)
}

// The functions below lend a stretch to be changed where it is used: one that handed a `&mut` part back would be spoken of by starred clauses, no plainer.

// Puts an item behind the last of a queue of node i.
pub fn append_in(
    memory: &mut [u32],
    s: Settings,
    i: usize,
    queue: QueueAt,
    item: u32,
) -> Result<(), Full>
    requires { HasQueue s memory.old i queue.kind queue.at }
    ensures { (memory.new ≡ with_node s memory.old i (appended queue.kind (node s memory.old i) queue.at item)) × (result ≡ append_answer queue.kind (node s memory.old i) queue.at) }
{
    let size = layout::node_size(s);
    let a = layout::node_at(s, i);
    let e = a + size;
    queue.append(&mut memory[a..e], item)
}

// Puts an item behind the last of the task queue at word q of node i, closing its gaps first.
pub fn append_task(
    memory: &mut [u32],
    s: Settings,
    i: usize,
    q: usize,
    item: u32,
) -> Result<(), Full>
    requires { HasTaskQueue s memory.old i q }
    ensures { (memory.new ≡ with_node s memory.old i (task_appended s (node s memory.old i) q item)) × (result ≡ task_answer s (node s memory.old i) q) }
{
    let size = layout::node_size(s);
    let a = layout::node_at(s, i);
    let e = a + size;
    gaps::append(&mut memory[a..e], s, q, item)
}

// Drops the first item of a queue of node i, and answers it.
pub fn drop_in(memory: &mut [u32], s: Settings, i: usize, queue: QueueAt) -> u32
    requires has_queue { HasQueue s memory.old i queue.kind queue.at }
    requires q_nonzero { 0 < items queue.kind (node s memory.old i) queue.at }
    ensures { (memory.new ≡ with_node s memory.old i (dropped queue.kind (node s memory.old i) queue.at)) × (result ≡ item_at queue.kind (node s memory.old i) queue.at 0) }
{
    let size = layout::node_size(s);
    let a = layout::node_at(s, i);
    let e = a + size;
    queue.drop_first(&mut memory[a..e])
}

// Takes n blocks in node j.
pub fn take_space(memory: &mut [u32], s: Settings, j: usize, n: usize) -> Option<u32>
    requires { MayTake s memory.old j n }
    ensures { (memory.new ≡ with_node s memory.old j (taken s (node s memory.old j) n)) × (result ≡ taken_answer s (node s memory.old j) n) }
{
    let size = layout::node_size(s);
    let a = layout::node_at(s, j);
    let e = a + size;
    blocks::take(&mut memory[a..e], s, n)
}

// Gives the chain of n blocks from b on back in node j.
pub fn return_chain(memory: &mut [u32], s: Settings, j: usize, b: u32, n: usize)
    requires { MayReturn s memory.old j b n }
    ensures { memory.new ≡ with_node s memory.old j (given_back s (node s memory.old j) n b) }
{
    let size = layout::node_size(s);
    let a = layout::node_at(s, j);
    let e = a + size;
    blocks::give_back(&mut memory[a..e], s, b, n);
}

// Node j's room count rises.
#[tactic(auto, using(crate::proofs::Lent::lent_head))]
pub fn count_room(memory: &mut [u32], s: Settings, j: usize)
    requires { Lent s memory.old j }
    ensures { memory.new ≡ with_node s memory.old j (counted (node s memory.old j) room_at) }
{
    let size = layout::node_size(s);
    let a = layout::node_at(s, j);
    let e = a + size;
    queues::count_up(&mut memory[a..e], 1);
}

// The task queue in node j for the letter that block c begins there.
#[tactic(auto, using(layout::proofs::Fits::nodes_fit, crate::proofs::Lent::begins_lies, crate::proofs::Lent::begins_word, crate::proofs::Queues::never_unbound, crate::proofs::Queues::seat_small, crate::proofs::Queues::seat_queue))]
pub fn queue_for(memory: &[u32], s: Settings, j: usize, c: u32) -> usize
    requires { Addressed s memory.now j c }
    ensures { result ≡ queue_for s j memory.now c }
{
    let task = letters::word_of(layout::stretch(memory, s, j), s, c, 2);
    let Some(seat) = tasks::seat_of(layout::table(memory), task) else {
        unreachable!();
    };
    layout::task_at(s, seat.queue as usize)
}
