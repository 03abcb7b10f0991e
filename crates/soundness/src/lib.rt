// A sound memory: the test of the six rules, for any slice.
#![tactic(auto)]

ghost use Rattle.std.specs.Prelude.{◌≡◌, true, ◌&&◌, ◌<◌};
ghost use Rattle.words.specs.Words.{every};
ghost use Rattle.layout.specs.Places.{nodes};
ghost use Rattle.layout.specs.Asked.{Sized};
ghost use Rattle.tasks.specs.Table.{right_table};
ghost use Rattle.sound.specs.Reading.{table_in};
ghost use Rattle.sound.specs.Queues.{right_queues};
ghost use Rattle.sound.specs.Sound.{sound};
ghost use Rattle.shapes.specs.Seats.{Seats};
ghost use Rattle.places.specs.Given.{stands_right, Looked};
ghost use Rattle.soundness.specs.Parts.{is_other, node_right, seated_right, Queued};

use queues::QueueAt;
use settings::Settings;

// Whether `other` is another node than j, whose send queue to j has an item.
fn is_other(memory: &[u32], s: Settings, j: usize, other: usize) -> bool
    requires queued { Queued s memory.now }
    requires j_bound { j < 6 }
    ensures { result ≡ is_other s memory.now j other }
{
    if 5 < other || other == j {
        return false;
    }
    let theirs = layout::stretch(memory, s, other);
    1 <= QueueAt::send(s, j).items(theirs)
}

// Whether the position of node j's postman is right, but for the comparison of letters.
#[tactic(auto, using(layout::proofs::Fits::nodes_fit, crate::proofs::Places::stand_still, crate::proofs::Places::stand_holds, crate::proofs::Places::stand_free, crate::proofs::Places::stand_high))]
fn is_standing(memory: &[u32], s: Settings, j: usize) -> bool
    requires queued { Queued s memory.now }
    requires j_bound { j < 6 }
    ensures { result ≡ stands_right s memory.now j }
{
    let at = 6 + j * 3;
    let stage = memory[at];
    let other = memory[at + 1] as usize;
    let held = memory[at + 2] as usize;
    match stage {
        0 => other == 0 && held == 0,
        1 | 3 => is_other(memory, s, j, other) && held == 0,
        2 => is_other(memory, s, j, other) && (1..=s.m).contains(&held),
        _ => false,
    }
}

// The same of every node.
fn are_standing(memory: &[u32], s: Settings) -> bool
    requires { Queued s memory.now }
    ensures { result ≡ every nodes (stands_right s memory.now) }
{
    for j in 0..6 {
        if !is_standing(memory, s, j) {
            return false;
        }
    }
    true
}

// The third rule, in every node.
fn are_right_queues(memory: &[u32], s: Settings, seats: &[u8; 384]) -> bool
    requires sized { Sized s memory.now }
    requires seats { Seats (table_in memory.now) seats.now }
    ensures { result ≡ every nodes (right_queues s memory.now) }
{
    for i in 0..6 {
        if !shapes::is_right_stretch(layout::stretch(memory, s, i), s, seats, i) {
            return false;
        }
    }
    true
}

// The fifth and the sixth rule, in every node.
fn are_right_nodes(memory: &[u32], s: Settings, seats: &[u8; 384]) -> bool
    requires looked { Looked s memory.now }
    requires seats { Seats (table_in memory.now) seats.now }
    ensures { result ≡ every nodes (node_right s memory.now) }
{
    for i in 0..6 {
        if !places::is_right_node(memory, s, seats, i) {
            return false;
        }
    }
    true
}

// The third to sixth rule, with the row of seats.
fn is_right_seated(memory: &[u32], s: Settings, seats: &[u8; 384]) -> bool
    requires sized { Sized s memory.now }
    requires memory_value { right_table (table_in memory.now) ≡ true }
    requires seats { Seats (table_in memory.now) seats.now }
    ensures { result ≡ seated_right s memory.now }
{
    are_right_queues(memory, s, seats)
        && are_standing(memory, s)
        && are_right_nodes(memory, s, seats)
        && copies::are_right_copies(memory, s)
}

// The second to sixth rule.
fn is_right_memory(memory: &[u32], s: Settings) -> bool
    requires { Sized s memory.now }
    ensures { result ≡ (right_table (table_in memory.now) && seated_right s memory.now) }
{
    // the task on each seat, in fixed memory: there is no heap
    let mut seats = [0u8; 384];
    tasks::seat_tasks(layout::table(memory), &mut seats) && is_right_seated(memory, s, &seats)
}

// Whether the memory is sound: all six rules, for a slice of any length and content.
pub fn is_sound(memory: &[u32]) -> bool
    ensures { result ≡ sound memory.now }
{
    if memory.len() < 536 {
        return false;
    }
    let Some(s) = Settings::new(memory[0], memory[1], memory[2], memory[3], memory[4]) else {
        return false;
    };
    if memory.len() != layout::memory_size(s) {
        return false;
    }
    if 5 < memory[5] {
        return false;
    }
    is_right_memory(memory, s)
}
