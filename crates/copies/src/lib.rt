// The letter that a postman holds in stage 2, compared with the letter that it copies.
#![tactic(auto)]

ghost use Rattle.std.specs.Prelude.{◌≡◌, ◌+◌, ◌-◌, ◌≤◌, ◌<◌};
ghost use Rattle.words.specs.Words.{every, alike, part};
ghost use Rattle.layout.specs.Places.{nodes, block_at};
ghost use Rattle.blocks.specs.Asked.{Block};
ghost use Rattle.sound.specs.Letters.{words_from};
ghost use Rattle.visits.specs.Letters.{Readable};
ghost use Rattle.copies.specs.Copy.{copy_right, Lettered};

use queues::QueueAt;
use settings::Settings;

// Whether the first n words of block x in stretch a and of block y in stretch c are the same.
fn is_same_block(a: &[u32], x: u32, c: &[u32], y: u32, s: Settings, n: usize) -> bool
    requires block { Block s a.now x }
    requires block_2 { Block s c.now y }
    requires n_bound { n ≤ s.b - 1 }
    ensures { result ≡ alike (part a.now (block_at s x) (block_at s x + n)) (part c.now (block_at s y) (block_at s y + n)) }
{
    let p = layout::block_at(s, x as usize);
    let q = layout::block_at(s, y as usize);
    a[p..p + n] == c[q..q + n]
}

// Whether the letters that block b begins in stretch a and block d in stretch c have the same words: both are gone through block by block.
#[tactic(auto, using(visits::proofs::Read::header_lies))]
fn is_same_letter(a: &[u32], b: u32, c: &[u32], d: u32, s: Settings) -> bool
    requires readable { Readable s a.now b }
    requires readable_2 { Readable s c.now d }
    ensures { result ≡ alike (words_from s a.now b) (words_from s c.now d) }
{
    let mut left = letters::told_length(a, s, b) as usize;
    if letters::told_length(c, s, d) as usize != left {
        return false;
    }
    let mut x = b;
    let mut y = d;
    // a turn compares as many words as a block carries, so no range counts them
    while 0 < left {
        let n = left.min(s.b - 1);
        if !is_same_block(a, x, c, y, s, n) {
            return false;
        }
        x = blocks::link_of(a, s, x);
        y = blocks::link_of(c, s, y);
        left -= n;
    }
    true
}

// Whether the postman of node j, where it is in stage 2, holds a copy of the letter that it names.
fn is_right_copy(memory: &[u32], s: Settings, j: usize) -> bool
    requires lettered { Lettered s memory.now }
    requires j_lt_nodes { j < nodes }
    ensures { result ≡ copy_right s memory.now j }
{
    let at = 6 + j * 3;
    if memory[at] != 2 {
        return true;
    }
    let other = memory[at + 1] as usize;
    let held = memory[at + 2];
    let own = layout::stretch(memory, s, j);
    let theirs = layout::stretch(memory, s, other);
    let first = QueueAt::send(s, j).item(theirs, 0);
    is_same_letter(own, held, theirs, first, s)
}

// The same of every node. (A chain over 0..6 would have a closure with a clause on j, no plainer.)
pub fn are_right_copies(memory: &[u32], s: Settings) -> bool
    requires { Lettered s memory.now }
    ensures { result ≡ every nodes (copy_right s memory.now) }
{
    for j in 0..6 {
        if !is_right_copy(memory, s, j) {
            return false;
        }
    }
    true
}
