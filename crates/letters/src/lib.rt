// Letters in their chains of blocks: read and written.
#![tactic(auto)]

ghost use Rattle.std.specs.Prelude.{◌≡◌, ◌+◌, ◌-◌, length, get_or, take, drop};
ghost use Rattle.std.proofs.lemmas.List.Edits.{sets};
ghost use Rattle.layout.specs.Places.{block_at};
ghost use Rattle.layout.specs.Numbers.{header_words};
ghost use Rattle.blocks.specs.Asked.{Block};
ghost use Rattle.letters.specs.Letter.{onto, word, told, letter, piece, written};
ghost use Rattle.letters.specs.Made.{letter_of};
ghost use Rattle.letters.specs.Asked.{Lies, Carries, HasWord};

use settings::Settings;

// Word k of the letter that block b begins.
pub fn word_of(node: &[u32], s: Settings, b: u32, k: usize) -> u32
    requires { Lies s node.now (k + 1) b }
    ensures { result ≡ word s node.now b k }
{
    let room = s.b - 1;
    let owner = blocks::last_of(node, s, b, k / room + 1);
    let at = layout::block_at(s, owner as usize);
    node[at + k % room]
}

// The length that the header tells, of the letter that block b begins.
pub fn told_length(node: &[u32], s: Settings, b: u32) -> u32
    requires { Lies s node.now header_words b }
    ensures { result ≡ told s node.now b }
{
    word_of(node, s, b, 4)
}

// The words of block b from word `at` on, as many as `out` has room for; how many they are.
pub fn read_block(node: &[u32], s: Settings, b: u32, at: usize, out: &mut [u32]) -> usize
    requires { Carries s node.now b at }
    ensures answer { result ≡ length (piece s node.now b at (length out.old)) }
    ensures got { out.new ≡ onto (piece s node.now b at (length out.old)) out.old }
{
    let left = s.b - 1 - at;
    let n = out.len().min(left);
    let a = layout::block_at(s, b as usize) + at;
    words::copy(&mut out[..n], &node[a..a + n]);
    n
}

// The words from word `at` on of the letter that block b begins, as many as `out` has. A block that lies wholly before them is passed over.
pub fn read(node: &[u32], s: Settings, b: u32, at: usize, out: &mut [u32])
    requires { Lies s node.now (at + length out.old) b }
    ensures { out.new ≡ drop at (letter s node.now (at + length out.old) b) }
{
    let end = out.len();
    let room = s.b - 1;
    let before = layout::block_at(s, 1) - 1;
    let mut block = b;
    let mut skip = at;
    let mut done = 0;
    // A turn reads as many words as its block carries, none where the block is passed over: nothing that a `for` counts.
    while done < end {
        let Some(step) = reading::first(node, block, end - done, skip, before as u32, room as u32)
        else {
            return;
        };
        if step.words == 0 {
            skip -= room;
        } else {
            read_block(node, s, block, skip, &mut out[done..end]);
            skip = 0;
            done += step.words;
        }
        block = step.next;
    }
}

// The two tasks of a letter, each with its node. The body goes beside it: of a struct that holds a lent body each clause would say `letter.entry.body.now`, no plainer.
#[derive(Clone, Copy, Debug, PartialEq, Eq)]
pub struct Header {
    pub source: u32,
    pub from: u32,
    pub destination: u32,
    pub to: u32,
}

// Word k of a letter: the header's five, then the body's.
fn letter_word(h: Header, body: &[u32], k: usize) -> u32
    requires { HasWord (length body.now) k }
    ensures { result ≡ get_or (letter_of h body.now) k 0 }
{
    match k {
        0 => h.source,
        1 => h.from,
        2 => h.destination,
        3 => h.to,
        4 => (5 + body.len()) as u32,
        _ => body[k - 5],
    }
}

// Writes the letter's words from word k on into block b, as many as it carries.
fn write_block(node: &mut [u32], s: Settings, b: u32, h: Header, body: &[u32], k: usize)
    requires block { Block s node.old b }
    requires has_word { HasWord (length body.now) k }
    ensures { node.new ≡ sets node.old (block_at s b) (take (s.b - 1) (drop k (letter_of h body.now))) }
{
    let left = 5 + body.len() - k;
    let n = left.min(s.b - 1);
    let a = layout::block_at(s, b as usize);
    for i in 0..n {
        node[a + i] = letter_word(h, body, k + i);
    }
}

// Writes a letter into the chain that block b begins.
pub fn write(node: &mut [u32], s: Settings, b: u32, h: Header, body: &[u32])
    requires { Lies s node.old (header_words + length body.now) b }
    ensures { node.new ≡ written s node.old b (letter_of h body.now) }
{
    let owed = blocks::needs_of(s, 5 + body.len());
    let mut block = b;
    let mut k = 0;
    for _ in 0..owed {
        let next = blocks::link_of(node, s, block);
        write_block(node, s, block, h, body, k);
        block = next;
        k += s.b - 1;
    }
}
