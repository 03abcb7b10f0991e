// The third rule of a sound memory: the queues of a node.
#![tactic(auto)]

ghost use Rattle.std.specs.Prelude.{◌≡◌, ℕ, ◌+◌, ◌*◌, ◌<◌, ◌≤◌, eqb, length};
ghost use Rattle.words.specs.Words.{every};
ghost use Rattle.layout.specs.Places.{nodes};
ghost use Rattle.layout.specs.Asked.{Stretch};
ghost use Rattle.queues.specs.Queue.{Queue, Placed, start, items, contents};
ghost use Rattle.sound.specs.Queues.{in_shape};
ghost use Rattle.shapes.specs.Shape.{
  zeroes,
  clear_outside,
  items_within,
  right_post,
  right_seat,
  right_seats,
  right_stretch,
};

use queues::QueueAt;
use settings::Settings;

// Whether the words from a on, before e, are 0.
fn are_zero(node: &[u32], a: usize, e: usize) -> bool
    requires { (a ≤ e) × (e ≤ length node.now) }
    ensures { result ≡ zeroes node.now a e }
{
    // joined, and looked at once: a chain with `all` stops at each word, and took the test over the bar of speed (docs/BENCH.md)
    let mut bits = 0;
    for i in a..e {
        bits |= node[i];
    }
    bits == 0
}

// Whether the slots outside the items are 0, as they stand: behind the last item and before the first, or between them where the items run round.
fn is_clear(node: &[u32], queue: QueueAt, first: usize, count: usize) -> bool
    requires placed { Placed queue.kind node.now queue.at }
    requires first_value { (first ≡ start queue.kind node.now queue.at) × (first < queue.kind.slots) }
    requires count_value { (count ≡ items queue.kind node.now queue.at) × (count ≤ queue.kind.slots) }
    ensures { result ≡ clear_outside queue.kind node.now queue.at }
{
    let base = queue.at + queue.kind.head;
    let slots = queue.kind.slots;
    // a queue with no items: all its slots are one run
    if count == 0 {
        return are_zero(node, base, base + slots);
    }
    let end = first + count;
    if slots < end {
        return are_zero(node, base + (end - slots), base + first);
    }
    are_zero(node, base + end, base + slots) && are_zero(node, base, base + first)
}

// Whether the start is below the queue's length, the items at most it, and the slots outside the items 0.
fn is_in_shape(node: &[u32], queue: QueueAt) -> bool
    requires { Placed queue.kind node.now queue.at }
    ensures { result ≡ in_shape queue.kind node.now queue.at }
{
    let first = node[queue.at] as usize;
    let count = node[queue.at + 1] as usize;
    let slots = queue.kind.slots;
    first < slots && count <= slots && is_clear(node, queue, first, count)
}

// Whether the items lie between the two, both included.
fn are_within(node: &[u32], queue: QueueAt, least: usize, most: usize) -> bool
    requires { Queue queue.kind node.now queue.at }
    ensures { result ≡ items_within least most (contents queue.kind node.now queue.at) }
{
    for i in 0..queue.items(node) {
        let b = queue.item(node, i) as usize;
        if !(least..=most).contains(&b) {
            return false;
        }
    }
    true
}

// Whether a send or acknowledge queue is right; `own`: it is the node's queue to itself.
#[tactic(auto, using(sound::proofs::Shapes::shape_queue))]
fn is_right_post(node: &[u32], queue: QueueAt, m: usize, own: bool) -> bool
    requires { Placed queue.kind node.now queue.at }
    ensures { result ≡ right_post queue.kind node.now queue.at m own }
{
    if !is_in_shape(node, queue) {
        return false;
    }
    if own {
        queue.items(node) == 0
    } else {
        are_within(node, queue, 1, m)
    }
}

// Whether a task queue is right; `task`: the task that it is bound to, 0 for none, as the row of seats has it (the document binds no task 0).
#[tactic(auto, using(sound::proofs::Shapes::shape_queue))]
fn is_right_seat(node: &[u32], queue: QueueAt, m: usize, task: u8) -> bool
    requires placed { Placed queue.kind node.now queue.at }
    requires le_head { 3 ≤ queue.kind.head }
    ensures { result ≡ right_seat queue.kind node.now queue.at m task }
{
    if !is_in_shape(node, queue) {
        return false;
    }
    if queue.items(node) == 0 {
        return node[queue.at + 2] == 0;
    }
    if task == 0 || queue.item(node, 0) == 0 {
        return false;
    }
    are_within(node, queue, 0, m) && node[queue.at + 2] == taking::gap_flag(node, queue)
}

// Whether the six send or acknowledge queues of node i, of which `first` is the first, are right.
fn are_right_posts(node: &[u32], first: QueueAt, m: usize, i: usize) -> bool
    requires { (k : ℕ) → k < nodes → Placed first.kind node.now (first.at + k * (first.kind.head + first.kind.slots)) }
    ensures { result ≡ every nodes (λ k. right_post first.kind node.now (first.at + k * (first.kind.head + first.kind.slots)) m (eqb k i)) }
{
    for k in 0..6 {
        let queue = QueueAt {
            at: first.at + k * (first.kind.head + first.kind.slots),
            ..first
        };
        if !is_right_post(node, queue, m, k == i) {
            return false;
        }
    }
    true
}

// Whether the 64 task queues of node i are right.
fn are_right_seats(node: &[u32], s: Settings, seats: &[u8; 384], i: usize) -> bool
    requires stretch { Stretch s node.now }
    requires i_bound { i < 6 }
    ensures { result ≡ right_seats s node.now i seats.now }
{
    for q in 0..64 {
        let task = seats[i * 64 + q];
        if !is_right_seat(node, QueueAt::task(s, q), s.m, task) {
            return false;
        }
    }
    true
}

// The third rule, of the stretch of node i.
pub fn is_right_stretch(node: &[u32], s: Settings, seats: &[u8; 384], i: usize) -> bool
    requires stretch { Stretch s node.now }
    requires i_bound { i < 6 }
    ensures { result ≡ right_stretch s node.now i seats.now }
{
    are_right_posts(node, QueueAt::send(s, 0), s.m, i)
        && are_right_posts(node, QueueAt::ack(s, 0), s.m, i)
        && are_right_seats(node, s, seats, i)
}
