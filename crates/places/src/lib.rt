// The places of a node: the letters at each of them, and each block in exactly one place.
#![tactic(auto)]

ghost use Rattle.std.specs.Prelude.{◌≡◌, ◌&&◌, ◌-◌, ◌≤◌, ◌<◌, get_or};
ghost use Rattle.settings.specs.Range.{InRange};
ghost use Rattle.layout.specs.Places.{nodes, first_free_at, node, send_at, ack_at, task_at};
ghost use Rattle.layout.specs.Asked.{Stretch};
ghost use Rattle.tasks.specs.Seat.{seat_at};
ghost use Rattle.queues.specs.Queue.{send_kind, ack_kind, task_kind};
ghost use Rattle.sound.specs.Reading.{table_in};
ghost use Rattle.sound.specs.Letters.{chain_from};
ghost use Rattle.sound.specs.Blocks.{chains, standing, each_once, right_letters};
ghost use Rattle.shapes.specs.Seats.{Seats};
ghost use Rattle.visits.specs.declared.Asks.TheVariants.{Between, To};
ghost use Rattle.visits.specs.Marks.{marked};
ghost use Rattle.visits.specs.Letters.{letters_right, Judged};
ghost use Rattle.places.specs.Given.{
  Looked,
  Node,
  begun_at,
  Stands,
  standing_from,
  range_right,
  free_right,
  places_right,
  all_marked,
};

use queues::QueueAt;
use settings::Settings;
use visits::Asks;

// Where the letters of a place stand: on which node, in which queue; and what the place asks of their headers.
#[derive(Clone, Copy, Debug, PartialEq, Eq)]
pub struct Place {
    pub holder: usize,
    pub queue: QueueAt,
    pub asks: Asks,
}

// The letter in the postman's hand.
fn is_right_hand(memory: &[u32], s: Settings, marks: &mut [u8; 1025], i: usize) -> bool
    requires looked { Looked s memory.now }
    requires i_lt_nodes { i < nodes }
    ensures { Judged (range_right s memory.now i marks.old 0 1) (marked marks.old (standing_from s memory.now i 0 1)) result marks.new }
{
    let at = 6 + i * 3;
    if memory[at] != 2 {
        return true;
    }
    let held = memory[at + 2];
    let stretch = layout::stretch(memory, s, i);
    visits::is_right_letter(stretch, s, layout::table(memory), marks, Asks::Any, held)
}

// The letters of node i that stand at a place; mostly there are none.
fn are_right_letters(
    memory: &[u32],
    s: Settings,
    marks: &mut [u8; 1025],
    i: usize,
    place: Place,
) -> bool
    requires looked { Looked s memory.now }
    requires i_lt_nodes { i < nodes }
    requires stands { Stands s memory.now place }
    ensures { Judged (letters_right s (node s memory.now i) (table_in memory.now) place.asks marks.old (begun_at s memory.now place)) (marked marks.old (chains s (node s memory.now i) (begun_at s memory.now place))) result marks.new }
{
    let queue = place.queue;
    let holding = layout::stretch(memory, s, place.holder);
    let count = queue.items(holding);
    if count == 0 {
        return true;
    }
    let stretch = layout::stretch(memory, s, i);
    let table = layout::table(memory);
    let asks = place.asks;
    for c in 0..count {
        let b = queue.item(holding, c);
        if !visits::is_right_letter(stretch, s, table, marks, asks, b) {
            return false;
        }
    }
    true
}

// The place of number p for node i: 1 to 6 its send queues, 7 to 12 the acknowledge queues for it on nodes 0 to 5, 13 to 76 its task queues.
fn place_at(s: Settings, seats: &[u8; 384], i: usize, p: usize) -> Place
    requires in_range { InRange s }
    requires i_lt_nodes { i < nodes }
    requires p_bounds { (1 ≤ p) × (p < 77) }
    ensures sends { p < 7 → result ≡ record { holder = i; queue = record { kind = send_kind s; at = send_at s (p - 1) }; asks = Between i (p - 1) } }
    ensures acks { 7 ≤ p → p < 13 → result ≡ record { holder = p - 7; queue = record { kind = ack_kind s; at = ack_at s i }; asks = Between i (p - 7) } }
    ensures tasks { 13 ≤ p → result ≡ record { holder = i; queue = record { kind = task_kind s; at = task_at s (p - 13) }; asks = To (get_or seats.now (seat_at i (p - 13)) 0) } }
{
    match p {
        1..=6 => Place {
            holder: i,
            queue: QueueAt::send(s, p - 1),
            asks: Asks::Between(i as u32, p as u32 - 1),
        },
        7..=12 => Place {
            holder: p - 7,
            queue: QueueAt::ack(s, i),
            asks: Asks::Between(i as u32, p as u32 - 7),
        },
        _ => Place {
            holder: i,
            queue: QueueAt::task(s, p - 13),
            asks: Asks::To(u32::from(seats[i * 64 + p - 13])),
        },
    }
}

// The letters at the 77 places of node i: the postman's hand is the first.
fn are_right_places(
    memory: &[u32],
    s: Settings,
    seats: &[u8; 384],
    marks: &mut [u8; 1025],
    i: usize,
) -> bool
    requires { Node s memory.now seats.now i }
    ensures { Judged (places_right s memory.now i marks.old) (marked marks.old (standing s memory.now i 77)) result marks.new }
{
    if !is_right_hand(memory, s, marks, i) {
        return false;
    }
    for p in 1..77 {
        let place = place_at(s, seats, i, p);
        if !are_right_letters(memory, s, marks, i, place) {
            return false;
        }
    }
    true
}

// The free list.
fn is_right_free(stretch: &[u32], s: Settings, marks: &mut [u8; 1025]) -> bool
    requires { Stretch s stretch.now }
    ensures { Judged (free_right s stretch.now marks.old) (marked marks.old (chain_from s stretch.now (get_or stretch.now first_free_at 0))) result marks.new }
{
    visits::visit(stretch, s, marks, stretch[0]).is_some()
}

// Whether blocks 1 to m have a mark.
fn are_all_marked(marks: &[u8; 1025], m: usize) -> bool
    requires { m ≤ 1024 }
    ensures { result ≡ all_marked m marks.now }
{
    marks[1..=m].iter().all(|&mark| mark == 1)
}

// The fifth and the sixth rule in node i.
pub fn is_right_node(memory: &[u32], s: Settings, seats: &[u8; 384], i: usize) -> bool
    requires looked { Looked s memory.now }
    requires seats { Seats (table_in memory.now) seats.now }
    requires i_lt_nodes { i < nodes }
    ensures { result ≡ (each_once s memory.now i && right_letters s memory.now i) }
{
    // a mark for each block, in fixed memory: there is no heap
    let mut marks = [0u8; 1025];
    is_right_free(layout::stretch(memory, s, i), s, &mut marks)
        && are_right_places(memory, s, seats, &mut marks, i)
        && are_all_marked(&marks, s.m)
}
