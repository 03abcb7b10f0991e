// The stages of a postman's turn, each change to a node made in that node's stretch alone.
#![tactic(auto)]

ghost use Rattle.std.specs.Prelude.{◌≡◌};
ghost use Rattle.postman.specs.Position.{at};
ghost use Rattle.postman.specs.Round.{did};
ghost use Rattle.postman.specs.Asked.{SoundAt, Waits, Owes};
ghost use Rattle.stages_keep.specs.Steps.{on_append, copied_in, queued, acknowledged, send_dropped};
ghost use Rattle.lending.specs.Asked.{HasFirst};
ghost use Rattle.stages.specs.Asked.{Holds, GaveBack};

use postman::Stage;
use queues::{Full, QueueAt};
use settings::Settings;

// How a stage ends that appends: a full queue stops it, with that number.
fn stage_of(done: Result<(), Full>, number: u32) -> Stage
    ensures { result ≡ on_append done number }
{
    match done {
        Ok(()) => Stage::Done,
        Err(Full) => Stage::Stopped(number),
    }
}

// Stage 1: takes space in j for the first letter of node i's send queue, and copies it there.
pub fn copy_in(memory: &mut [u32], s: Settings, i: usize, j: usize) -> Stage
    requires { Waits s memory.old j i 1 }
    ensures { did memory.new result ≡ copied_in s j memory.old i }
{
    let x = lending::first_of(memory, s, i, j);
    let length = lending::length_of(memory, s, i, x);
    let n = blocks::needs_of(s, length);
    let Some(c) = lending::take_space(memory, s, j, n) else {
        lending::count_room(memory, s, j);
        return Stage::Stopped(5);
    };
    copying::copy(memory, s, length, i, x, j, c);
    Stage::Done
}

// Stage 2: appends the copy that block c begins to its task queue in j.
pub fn put_task(memory: &mut [u32], s: Settings, j: usize, c: u32) -> Stage
    requires { Holds s memory.old j c }
    ensures { did memory.new result ≡ queued s j memory.old c }
{
    let q = lending::queue_for(memory, s, j, c);
    let done = lending::append_task(memory, s, j, q, c);
    stage_of(done, 6)
}

// Stage 3: appends the source's block to j's acknowledge queue for node i.
pub fn put_ack(memory: &mut [u32], s: Settings, i: usize, j: usize) -> Stage
    requires { SoundAt s memory.old j (at 3 i 0) }
    ensures { did memory.new result ≡ acknowledged s j memory.old i }
{
    let x = lending::first_of(memory, s, i, j);
    let done = lending::append_in(memory, s, j, QueueAt::ack(s, i), x);
    stage_of(done, 10)
}

// Drops the first item of send queue j on node i.
pub fn drop_send(memory: &mut [u32], s: Settings, i: usize, j: usize)
    requires { HasFirst s memory.old i j }
    ensures { memory.new ≡ send_dropped s j memory.old i }
{
    lending::drop_in(memory, s, i, QueueAt::send(s, j));
}

// Drops the first item of acknowledge queue j on node i, gives its chain back in j, and answers its blocks.
pub fn give_back(memory: &mut [u32], s: Settings, i: usize, j: usize) -> usize
    requires { Owes s memory.old j i 1 }
    ensures { GaveBack s memory.old j i result memory.new }
{
    let x = lending::drop_in(memory, s, i, QueueAt::ack(s, j));
    let length = lending::length_of(memory, s, j, x);
    let n = blocks::needs_of(s, length);
    lending::return_chain(memory, s, j, x, n);
    n
}
