// Visiting the chains of a node: each block is marked once, and each letter is looked at.
#![tactic(auto)]

ghost use Rattle.std.specs.Prelude.{◌≡◌, ◌&&◌, [], ◌∷◌, ◌≤◌};
ghost use Rattle.layout.specs.Asked.{Stretch};
ghost use Rattle.queues.specs.Items.{live};
ghost use Rattle.sound.specs.Letters.{right_length, right_header, words_from};
ghost use Rattle.sound.specs.Blocks.{chains};
ghost use Rattle.visits.specs.Marks.{marked, Visited, Linked, Walked};
ghost use Rattle.visits.specs.Letters.{
  Whole,
  Readable,
  is_on,
  is_asked,
  meets,
  letters_right,
  Judged,
};

use settings::Settings;

// What a place asks of the header of a letter that stands there: nothing, the nodes that it goes between, or the task that it goes to.
#[derive(Clone, Copy, Debug, PartialEq, Eq)]
pub enum Asks {
    Any,
    Between(u32, u32),
    To(u32),
}

// Follows the chain from b on, `owed` blocks at most, and marks each: one more than how many were not there, or 0 where the chain is bad, for
// a block is none or has a mark, or the chain does not end. A number, for the small stack: of a call that answers an Option no loop is made,
// and the longest chain took 19 KiB. The link of block b is word `before + b * width`.
fn visit_on(
    node: &&[u32],
    marks: &mut [u8; 1025],
    before: usize,
    width: usize,
    m: usize,
    b: u32,
    owed: usize,
) -> usize
    requires linked { Linked node.now.now before width m }
    requires owed_le_m { owed ≤ m }
    ensures { Walked node.now.now before width m owed b marks.old result marks.new }
{
    if b == 0 {
        return owed + 1;
    }
    let at = b as usize;
    if owed == 0 || m < at {
        return 0;
    }
    if marks[at] != 0 {
        return 0;
    }
    marks[at] = 1;
    let next = node[before + at * width];
    visit_on(node, marks, before, width, m, next, owed - 1)
}

// Follows the chain that block b begins, and marks each block: how many blocks of the node it did not come to, or none where the chain is bad.
pub fn visit(node: &[u32], s: Settings, marks: &mut [u8; 1025], b: u32) -> Option<usize>
    requires { Stretch s node.now }
    ensures { Visited s node.now s.m b marks.old result marks.new }
{
    let before = layout::block_at(s, 1) - 1;
    let left = visit_on(&node, marks, before, s.b, s.m, b, s.m);
    if left == 0 { None } else { Some(left - 1) }
}

// Whether the letter that block b begins has a valid length and the blocks it needs; it has `count`. A chain that carries fewer words than a
// header tells no length.
fn is_right_length(node: &[u32], s: Settings, b: u32, count: usize) -> bool
    requires { Whole s node.now b count }
    ensures { result ≡ right_length s node.now b }
{
    if count * (s.b - 1) < 5 {
        return false;
    }
    let n = letters::told_length(node, s, b) as usize;
    (5..=1024).contains(&n) && count == blocks::needs_of(s, n)
}

// Whether the task is bound, and on that node.
#[tactic(auto, unfolding(crate::specs::Letters::is_on, tasks::specs::Seat::seat_of))]
fn is_on(table: &[u32; 512], task: u32, node: u32) -> bool
    ensures { result ≡ is_on table.now task node }
{
    tasks::seat_of(table, task).is_some_and(|seat| seat.node == node)
}

// Whether a header is what the place asks for: its source node, its destination task and its destination node.
#[tactic(auto, unfolding(crate::specs::Letters::is_asked))]
fn is_asked(asks: Asks, from: u32, task: u32, to: u32) -> bool
    ensures { result ≡ is_asked asks from task to }
{
    match asks {
        Asks::Any => true,
        Asks::Between(i, k) => from == i && to == k,
        Asks::To(wanted) => task == wanted,
    }
}

// Whether the letter that block b begins has a header of bound tasks on their nodes, and what its place asks for.
#[tactic(auto, using(crate::proofs::Read::header_lies, crate::proofs::Judge::header_told))]
fn is_right_header(node: &[u32], s: Settings, table: &[u32; 512], asks: Asks, b: u32) -> bool
    requires { Readable s node.now b }
    ensures { result ≡ (right_header table.now (words_from s node.now b) && meets asks (words_from s node.now b)) }
{
    let source = letters::word_of(node, s, b, 0);
    let from = letters::word_of(node, s, b, 1);
    let task = letters::word_of(node, s, b, 2);
    let to = letters::word_of(node, s, b, 3);
    is_on(table, source, from) && is_on(table, task, to) && is_asked(asks, from, task, to)
}

// Whether the letter that block b begins is right for its place and none of its blocks has a mark; marks them. Block 0 is a gap and begins none.
#[tactic(auto, using(crate::proofs::Judge::gap_judged, crate::proofs::Judge::letter_bad, crate::proofs::Judge::left_least))]
pub fn is_right_letter(
    node: &[u32],
    s: Settings,
    table: &[u32; 512],
    marks: &mut [u8; 1025],
    asks: Asks,
    b: u32,
) -> bool
    requires { Stretch s node.now }
    ensures { Judged (letters_right s node.now table.now asks marks.old (live (b ∷ []))) (marked marks.old (chains s node.now (live (b ∷ [])))) result marks.new }
{
    if b == 0 {
        return true;
    }
    let Some(left) = visit(node, s, marks, b) else {
        return false;
    };
    is_right_length(node, s, b, s.m - left) && is_right_header(node, s, table, asks, b)
}
