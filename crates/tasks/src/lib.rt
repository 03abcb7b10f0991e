// The task table: the test of its rule, and where a task sits.
#![tactic(auto)]

ghost use Rattle.std.specs.Prelude.{◌≡◌, ◌<◌, replicate, true, ◌&&◌};
ghost use Rattle.layout.specs.Places.{task_ids};
ghost use Rattle.tasks.specs.Table.{holds_none, seated, apart, right_table};
ghost use Rattle.tasks.specs.Seat.{seat_of, seat_row};

// Whether the id holds 255, 0.
#[tactic(auto, unfolding(crate::specs::Table::holds_none))]
fn holds_none(table: &[u32; 512], id: usize) -> bool
    requires { id < task_ids }
    ensures { result ≡ holds_none table.now id }
{
    table[id * 2] == 255 && table[id * 2 + 1] == 0
}

// Whether each id below 256 is unbound or sits where no other does; puts each on its seat.
#[tactic(auto, using(crate::proofs::Marks::bad_node, crate::proofs::Marks::bad_queue, crate::proofs::Marks::bad_seat, crate::proofs::Marks::good_end))]
fn seat_each(table: &[u32; 512], seats: &mut [u8; 384]) -> bool
    requires table_value { holds_none table.now 0 ≡ true }
    requires seats_value { seats.old ≡ replicate 384 0 }
    ensures answer { result ≡ seated table.now && apart table.now }
    ensures row { result ≡ true → seats.new ≡ seat_row table.now task_ids }
{
    for id in 0..256 {
        if holds_none(table, id) {
            continue;
        }
        let node = table[id * 2];
        let queue = table[id * 2 + 1];
        if 5 < node || 63 < queue {
            return false;
        }
        let seat = node as usize * 64 + queue as usize;
        if seats[seat] != 0 {
            return false;
        }
        seats[seat] = id as u8;
    }
    true
}

// The second rule of a sound memory; puts each task on its seat where the rule holds.
#[tactic(auto, unfolding(crate::specs::Table::right_table))]
pub fn seat_tasks(table: &[u32; 512], seats: &mut [u8; 384]) -> bool
    requires { seats.old ≡ replicate 384 0 }
    ensures answer { result ≡ right_table table.now }
    ensures row { result ≡ true → seats.new ≡ seat_row table.now task_ids }
{
    holds_none(table, 0) && seat_each(table, seats)
}

// The second rule of a sound memory, for a table of any length and content.
#[tactic(auto, unfolding(crate::specs::Table::right_table))]
pub fn is_right(table: &[u32]) -> bool
    ensures { result ≡ right_table table.now }
{
    let Ok(table) = <&[u32; 512]>::try_from(table) else {
        return false;
    };
    // the row of seats, in fixed memory: there is no heap
    seat_tasks(table, &mut [0; 384])
}

// Where a task sits.
#[derive(Clone, Copy, Debug, PartialEq, Eq)]
pub struct Seat {
    pub node: u32,
    pub queue: u32,
}

// The node and the queue of any task number; none where it is unbound.
#[tactic(auto, unfolding(crate::specs::Seat::seat_of, crate::specs::Table::is_bound))]
pub fn seat_of(table: &[u32; 512], task: u32) -> Option<Seat>
    ensures { result ≡ seat_of table.now task }
{
    let id = task as usize;
    if 255 < task || holds_none(table, id) {
        return None;
    }
    Some(Seat {
        node: table[id * 2],
        queue: table[id * 2 + 1],
    })
}
