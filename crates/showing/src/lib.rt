// What the list shows of a letter, and which item it leaves out.
#![tactic(auto)]

ghost use Rattle.std.specs.Prelude.{◌≡◌, cond, ◌≤◌, ◌<◌, length};
ghost use Rattle.layout.specs.Places.{nodes, nodes_at};
ghost use Rattle.showing.specs.List.{shown, handed_over};
ghost use Rattle.showing.specs.Asked.{Begins};

use settings::Settings;

// A letter that the list shows: destination, source, place (1 task queue, 2 send queue), node holding it, first block, body length.
#[derive(Clone, Copy, Debug, PartialEq, Eq)]
pub struct Shown {
    pub destination: u32,
    pub source: u32,
    // 1 or 2, as the list's third word has it
    pub place: u32,
    pub holder: u32,
    pub block: u32,
    pub body: u32,
}

// What the list shows of the letter that block b begins in node i, at a place, for a task.
pub fn shown_at(memory: &[u32], s: Settings, task: u32, place: u32, i: u32, b: u32) -> Shown
    requires { Begins s memory.now i b }
    ensures { result ≡ shown s memory.now task place i b }
{
    let node = layout::stretch(memory, s, i as usize);
    Shown {
        destination: task,
        source: letters::word_of(node, s, b, 0),
        place,
        holder: i,
        block: b,
        body: letters::told_length(node, s, b) - 5,
    }
}

// How many items of node j's send queue for node i are left out: the first, where it has been handed over.
#[tactic(auto, unfolding(crate::specs::List::handed_over))]
pub fn left_out(memory: &[u32], i: u32, j: u32) -> usize
    requires nodes_at_in_bounds { nodes_at ≤ length memory.now }
    requires i_lt_nodes { i < nodes }
    ensures { result ≡ cond (handed_over memory.now i j) 1 0 }
{
    let at = 6 + i as usize * 3;
    if memory[at] == 3 && memory[at + 1] == j {
        1
    } else {
        0
    }
}
