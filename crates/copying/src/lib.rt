// A letter copied from one node's blocks into another's.
#![tactic(auto)]

ghost use Rattle.std.specs.Prelude.{◌≡◌, ◌+◌, ◌-◌, ◌<◌, min};
ghost use Rattle.std.proofs.lemmas.List.Edits.{sets};
ghost use Rattle.words.specs.Words.{part};
ghost use Rattle.layout.specs.Places.{nodes, block_at, node as stretch, with_node};
ghost use Rattle.layout.specs.Asked.{Sized};
ghost use Rattle.blocks.specs.Chain.{link};
ghost use Rattle.blocks.specs.Asked.{Block};
ghost use Rattle.letters.specs.Letter.{piece, copied};
ghost use Rattle.copying.specs.Asked.{Moves, CopiesBlock, Copies};

use settings::Settings;

// The block that follows block b of node i.
fn link_in(memory: &[u32], s: Settings, i: usize, b: u32) -> u32
    requires sized { Sized s memory.now }
    requires i_lt_nodes { i < nodes }
    requires block { Block s (stretch s memory.now i) b }
    ensures { result ≡ link s (stretch s memory.now i) b }
{
    blocks::link_of(layout::stretch(memory, s, i), s, b)
}

// Copies n words of the memory over n others: a loop, since std's `copy_within` asks C's host for `memmove` (README).
fn move_words(memory: &mut [u32], from: usize, to: usize, n: usize)
    requires { Moves memory.old from to n }
    ensures { memory.new ≡ sets memory.old to (part memory.old from (from + n)) }
{
    for k in 0..n {
        memory[to + k] = memory[from + k];
    }
}

// Copies the words of block x of node i, `left` at most, over the first of block y of node j; how many they are.
fn copy_block(
    memory: &mut [u32],
    s: Settings,
    left: usize,
    i: usize,
    x: u32,
    j: usize,
    y: u32,
) -> usize
    requires { CopiesBlock s memory.old i x j y }
    ensures answer { result ≡ min left (s.b - 1) }
    ensures stored { memory.new ≡ with_node s memory.old j (sets (stretch s memory.old j) (block_at s y) (piece s (stretch s memory.old i) x 0 left)) }
{
    let n = left.min(s.b - 1);
    let from = layout::node_at(s, i) + layout::block_at(s, x as usize);
    let to = layout::node_at(s, j) + layout::block_at(s, y as usize);
    move_words(memory, from, to, n);
    n
}

// Copies the n words of the letter that block b begins in node i into the chain that block c begins in
// node j, block by block.
pub fn copy(memory: &mut [u32], s: Settings, n: usize, i: usize, b: u32, j: usize, c: u32)
    requires { Copies s memory.old n i b j c }
    ensures { memory.new ≡ copied s memory.old n i b j c }
{
    let owed = blocks::needs_of(s, n);
    let mut left = n;
    let mut x = b;
    let mut y = c;
    for _ in 0..owed {
        let behind_x = link_in(memory, s, i, x);
        let behind_y = link_in(memory, s, j, y);
        let k = copy_block(memory, s, left, i, x, j, y);
        x = behind_x;
        y = behind_y;
        left -= k;
    }
}
