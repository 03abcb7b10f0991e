// A letter is read through its chain as if its words stood together: a thin reader over a node's stretch.
#![tactic(auto)]

ghost use Rattle.std.specs.Prelude.{◌≡◌};
ghost use Rattle.reading.specs.Read.{carried_of, step_at};

// The node's stretch, the block that is read, and how many words are left.
#[derive(Clone, Copy)]
pub struct Reader<'a> {
    pub node: &'a [u32],
    pub block: u32,
    pub left: usize,
}

impl<'a> Reader<'a> {
    // A reader at a block of the stretch, with so many words left.
    pub fn new(node: &'a [u32], block: u32, left: usize) -> Reader<'a>
        ensures { (result.node ≡ node.entry) × (result.block ≡ block) × (result.left ≡ left) }
    {
        Reader { node, block, left }
    }

    // The step at word `at` of the block that is read.
    pub fn next(self, at: usize, before: u32, room: u32) -> Option<Step>
        ensures { result ≡ step_at self.entry.node.now self.entry.block self.entry.left at before room }
    {
        step_at(self.node, self.block, self.left, at, before, room)
    }
}

// What a step tells: how many of the words left the block carries, and the block that follows.
#[derive(Clone, Copy, Debug, PartialEq, Eq)]
pub struct Step {
    pub words: usize,
    pub next: u32,
}

// How many of `left` words stand in a block from its word `at` on, where it carries `room`.
fn carried(left: usize, at: usize, room: usize) -> usize
    ensures { result ≡ carried_of left at room }
{
    left.min(room.saturating_sub(at))
}

// The work: the step at word `at` of a block that carries `room` words, where the blocks follow word `before`; none where no word is left.
pub fn step_at(
    node: &[u32],
    block: u32,
    left: usize,
    at: usize,
    before: u32,
    room: u32,
) -> Option<Step>
    ensures { result ≡ step_at node.now block left at before room }
{
    if left == 0 {
        return None;
    }
    let words = carried(left, at, room as usize);
    let link = before as usize + block as usize * (room as usize + 1);
    let next = if link < node.len() { node[link] } else { 0 };
    Some(Step { words, next })
}

// Plain parameters: whoever calls this holds no reader.
pub fn first(
    node: &[u32],
    block: u32,
    left: usize,
    at: usize,
    before: u32,
    room: u32,
) -> Option<Step>
    ensures { result ≡ step_at node.now block left at before room }
{
    Reader::new(node, block, left).next(at, before, room)
}
