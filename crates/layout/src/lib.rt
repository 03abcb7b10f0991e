// Where things stand in the memory: a function for each place that the calls compute.
#![tactic(auto)]

ghost use Rattle.std.specs.Prelude.{◌≡◌, ◌+◌, ◌≤◌, ◌<◌, length};
ghost use Rattle.words.specs.Words.{part};
ghost use Rattle.settings.specs.Range.{InRange};
ghost use Rattle.layout.specs.Places.{
  send_at,
  ack_at,
  task_at,
  block_at,
  link_at,
  node_size,
  memory_size,
  queue_head,
  task_head,
  nodes,
  node,
  table_at,
  nodes_at,
};
ghost use Rattle.layout.specs.Asked.{Sized, IsNodeSize, IsNodeAt, IsAt};

use settings::Settings;

// N, the words of a node's stretch.
pub fn node_size(s: Settings) -> usize
    requires { InRange s }
    ensures { IsNodeSize s result }
{
    2 + 6 * (3 + s.s) + 6 * (3 + s.a) + 64 * (5 + s.t) + s.m * s.b
}

// The words of the whole memory.
pub fn memory_size(s: Settings) -> usize
    requires { InRange s }
    ensures { result ≡ memory_size s }
{
    536 + 6 * node_size(s)
}

// The first word of node i's stretch. A node goes by its number, below 6 by a clause: a type for it would be made at each turn of a loop, no plainer.
pub fn node_at(s: Settings, i: usize) -> usize
    requires in_range { InRange s }
    requires i_bound { i < 6 }
    ensures { IsNodeAt s i result }
{
    536 + i * node_size(s)
}

// The first word of send queue k.
pub fn send_at(s: Settings, k: usize) -> usize
    requires in_range { InRange s }
    requires k_bound { k < 6 }
    ensures { IsAt s (send_at s k) (queue_head + s.s) result }
{
    2 + k * (3 + s.s)
}

// The first word of acknowledge queue k.
pub fn ack_at(s: Settings, k: usize) -> usize
    requires in_range { InRange s }
    requires k_bound { k < 6 }
    ensures { IsAt s (ack_at s k) (queue_head + s.a) result }
{
    2 + 6 * (3 + s.s) + k * (3 + s.a)
}

// The first word of task queue q.
pub fn task_at(s: Settings, q: usize) -> usize
    requires in_range { InRange s }
    requires q_bound { q < 64 }
    ensures { IsAt s (task_at s q) (task_head + s.t) result }
{
    2 + 6 * (3 + s.s) + 6 * (3 + s.a) + q * (5 + s.t)
}

// The first word of block b.
pub fn block_at(s: Settings, b: usize) -> usize
    requires in_range { InRange s }
    requires le_b { (1 ≤ b) × (b ≤ s.m) }
    ensures { IsAt s (block_at s b) s.b result }
{
    2 + 6 * (3 + s.s) + 6 * (3 + s.a) + 64 * (5 + s.t) + (b - 1) * s.b
}

// The word of block b's link.
pub fn link_at(s: Settings, b: usize) -> usize
    requires in_range { InRange s }
    requires le_b { (1 ≤ b) × (b ≤ s.m) }
    ensures { IsAt s (link_at s b) 1 result }
{
    block_at(s, b) + (s.b - 1)
}

// Node i's stretch of the memory, to be read. It goes beside its settings, as the memory does: what changes a stretch takes it as a plain `&mut` slice
// (docs/DECISIONS.md, Forms), and a struct for what reads it would make two forms of each function, no plainer.
pub fn stretch(memory: &[u32], s: Settings, i: usize) -> &[u32]
    requires sized { Sized s memory.now }
    requires i_lt_nodes { i < nodes }
    ensures { (result.now ≡ node s memory.now i) × (length result.now ≡ node_size s) }
{
    let a = node_at(s, i);
    let e = a + node_size(s);
    &memory[a..e]
}

// The task table of the memory, to be read.
pub fn table(memory: &[u32]) -> &[u32; 512]
    requires { nodes_at ≤ length memory.now }
    ensures { result.now ≡ part memory.now table_at nodes_at }
{
    memory[24..536].try_into().unwrap()
}
