// Blocks, links and the free list of a node's stretch.
#![tactic(auto)]

ghost use Rattle.std.specs.Prelude.{◌≡◌, ◌-◌, ◌≤◌, get_or, set};
ghost use Rattle.settings.specs.declared.Settings.{Settings};
ghost use Rattle.settings.specs.Range.{InRange};
ghost use Rattle.layout.specs.Places.{link_at};
ghost use Rattle.blocks.specs.Chain.{needs, link, after, list, block_of};
ghost use Rattle.blocks.specs.Asked.{Block, Walks, Follows, Reaches, Takes};
ghost use Rattle.blocks.specs.Moves.{taken, taken_answer, given_back};

use settings::Settings;

// The blocks that n words need.
pub fn needs_of(s: Settings, n: usize) -> usize
    requires in_range { InRange s }
    requires n_bound { n ≤ 4294967295 }
    ensures { result ≡ needs s n }
{
    n.div_ceil(s.b - 1)
}

// The block that follows b; a block goes by its number, since the document lays blocks and links out so in the memory.
pub fn link_of(node: &[u32], s: Settings, b: u32) -> u32
    requires { Block s node.now b }
    ensures { result ≡ link s node.now b }
{
    let at = layout::link_at(s, b as usize);
    node[at]
}

// Makes `next` the block that follows b.
pub fn set_link(node: &mut [u32], s: Settings, b: u32, next: u32)
    requires { Block s node.old b }
    ensures { node.new ≡ set node.old (link_at s b) next }
{
    let at = layout::link_at(s, b as usize);
    node[at] = next;
}

// The last of the `owed` blocks from b on: each link followed leaves one block fewer owed. The link of block b is word
// `before + b * width`.
fn last_on(node: &&[u32], before: usize, width: usize, b: u32, owed: usize) -> u32
    requires { (s : Settings) × Follows s node.now.now before width owed b }
    ensures { (s : Settings) → Follows s node.now.now before width owed b → result ≡ after s node.now.now (owed - 1) b }
{
    if owed == 1 {
        return b;
    }
    let next = node[before + b as usize * width];
    last_on(node, before, width, next, owed - 1)
}

// The same in a stretch with settings s.
pub fn last_of(node: &[u32], s: Settings, b: u32, owed: usize) -> u32
    requires walks { Walks s node.now owed b }
    requires le_owed { 1 ≤ owed }
    ensures { result ≡ after s node.now (owed - 1) b }
{
    let before = layout::block_at(s, 1) - 1;
    last_on(&node, before, s.b, b, owed)
}

// Puts the chain of `owed` blocks from b on, in its order, before the free list.
pub fn give_back(node: &mut [u32], s: Settings, b: u32, owed: usize)
    requires walks { Walks s node.old owed b }
    requires le_owed { 1 ≤ owed }
    ensures { node.new ≡ given_back s node.old owed b }
{
    let last = last_of(node, s, b, owed);
    let first = node[0];
    set_link(node, s, last, first);
    node[0] = b;
}

// The n-th block from b on; none where a link 0 comes before.
pub fn reach(node: &[u32], s: Settings, b: u32, n: usize) -> Option<u32>
    requires { Reaches s node.now n b }
    ensures { result ≡ block_of (get_or (list s node.now n b) (n - 1) 0) }
{
    let mut at = b;
    for _ in 1..n {
        if at == 0 {
            return None;
        }
        at = link_of(node, s, at);
    }
    if at == 0 { None } else { Some(at) }
}

// Takes the first n blocks of the free list, in its order, and answers the first of them; none where there are too few.
pub fn take(node: &mut [u32], s: Settings, n: usize) -> Option<u32>
    requires { Takes s node.old n }
    ensures answer { result ≡ taken_answer s node.old n }
    ensures stored { node.new ≡ taken s node.old n }
{
    let first = node[0];
    let last = reach(node, s, first, n)?;
    let next = link_of(node, s, last);
    node[0] = next;
    set_link(node, s, last, 0);
    Some(first)
}
