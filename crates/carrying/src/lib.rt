// The two steps of a postman's turn: what was acknowledged is given back, and letters are carried.
#![tactic(auto)]

ghost use Rattle.std.specs.Prelude.{◌≡◌, ◌-◌, ◌<◌, length};
ghost use Rattle.layout.specs.Places.{nodes};
ghost use Rattle.sound.specs.Reading.{send_items, ack_items};
ghost use Rattle.postman.specs.Position.{at, at_rest};
ghost use Rattle.postman.specs.Round.{post};
ghost use Rattle.postman.specs.Asked.{SoundAt};
ghost use Rattle.stages_keep.specs.Steps.{
  space_of,
  handed_on,
  delivered,
  carried,
  carried_all,
  carried_from,
  collected,
  collected_all,
  collected_from,
};
ghost use Rattle.lending.specs.Asked.{Lent};
ghost use Rattle.carrying.specs.Asked.{
  Delivers,
  Carries,
  CarriesFrom,
  Collects,
  CollectsFrom,
};

use postman::{Round, Stage};
use queues::QueueAt;
use settings::Settings;

// The first block of node j's free list.
#[tactic(auto, using(lending::proofs::Lent::lent_head))]
fn first_free(memory: &[u32], s: Settings, j: usize) -> u32
    requires { Lent s memory.now j }
    ensures { result ≡ space_of s j memory.now }
{
    layout::stretch(memory, s, j)[0]
}

// The letters in node i's send queue for j.
#[tactic(auto, using(crate::proofs::Asks::rest_range, crate::proofs::Asks::rest_sized, crate::proofs::Asks::sends_count))]
fn letters_for(memory: &[u32], s: Settings, j: usize, i: usize) -> usize
    requires sound_at { SoundAt s memory.now j at_rest }
    requires i_lt_nodes { i < nodes }
    ensures { result ≡ length (send_items s memory.now i j) }
{
    QueueAt::send(s, j).items(layout::stretch(memory, s, i))
}

// The letters that node i has acknowledged to j.
#[tactic(auto, using(crate::proofs::Asks::rest_range, crate::proofs::Asks::rest_sized, crate::proofs::Asks::acks_count))]
fn acks_for(memory: &[u32], s: Settings, j: usize, i: usize) -> usize
    requires sound_at { SoundAt s memory.now j at_rest }
    requires i_lt_nodes { i < nodes }
    ensures { result ≡ length (ack_items s memory.now i j) }
{
    QueueAt::ack(s, j).items(layout::stretch(memory, s, i))
}

// Memory, settings, nodes and turn so far go one by one below: a struct that holds a lent memory would lend it twice, no plainer.

// Stage 3 on: acknowledges node i's first letter, and drops the send item.
#[tactic(auto, using(crate::proofs::Asks::hand_there), unfolding(stages_keep::specs::Steps::handed_on, postman::specs::Round::stage))]
pub fn hand_on(memory: &mut [u32], s: Settings, j: usize, i: usize, r: Round) -> Round
    requires { SoundAt s memory.old j (at 3 i 0) }
    ensures { post memory.new result ≡ handed_on s j memory.old i r }
{
    let how = stages::put_ack(memory, s, i, j);
    let Stage::Done = how else {
        return r.stop(3, i, 0, how);
    };
    stages::drop_send(memory, s, i, j);
    r
}

// Stage 2 on: appends the copy that block c begins to its task queue.
#[tactic(auto, using(crate::proofs::Asks::deliver_there), unfolding(stages_keep::specs::Steps::delivered, postman::specs::Round::stage))]
pub fn deliver(memory: &mut [u32], s: Settings, j: usize, i: usize, c: u32, r: Round) -> Round
    requires { Delivers s memory.old j i c r }
    ensures { post memory.new result ≡ delivered s j memory.old i c r }
{
    let how = stages::put_task(memory, s, j, c);
    let Stage::Done = how else {
        return r.stop(2, i, c, how);
    };
    let a = r.one_letter();
    hand_on(memory, s, j, i, a)
}

// Stage 1 on: takes space for node i's first letter, and copies it.
#[tactic(auto, unfolding(stages_keep::specs::Steps::carried, postman::specs::Round::stage))]
fn carry(memory: &mut [u32], s: Settings, j: usize, i: usize, r: Round) -> Round
    requires { Carries s memory.old j i 1 r }
    ensures { post memory.new result ≡ carried s j memory.old i r }
{
    let c = first_free(memory, s, j);
    let how = stages::copy_in(memory, s, i, j);
    let Stage::Done = how else {
        return r.stop(1, i, 0, how);
    };
    deliver(memory, s, j, i, c, r)
}

// Step 2 on node i: k letters.
#[tactic(auto, using(crate::proofs::Ways::all_none))]
fn carry_all(memory: &mut [u32], s: Settings, j: usize, i: usize, k: usize, r: Round) -> Round
    requires { Carries s memory.old j i k r }
    ensures { post memory.new result ≡ carried_all s j k memory.old i r }
{
    let mut a = r;
    for _letter in 0..k {
        a = carry(memory, s, j, i, a);
        let Stage::Done = a.how else {
            return a;
        };
    }
    a
}

// Step 2 on the nodes from i on.
#[tactic(auto, using(crate::proofs::Ways::nodes_none))]
pub fn carry_from(memory: &mut [u32], s: Settings, j: usize, i: usize, r: Round) -> Round
    requires { CarriesFrom s memory.old j i r }
    ensures { post memory.new result ≡ carried_from s j (nodes - i) memory.old i r }
{
    let mut a = r;
    for other in i..6 {
        let k = letters_for(memory, s, j, other);
        a = carry_all(memory, s, j, other, k, a);
        let Stage::Done = a.how else {
            return a;
        };
    }
    a
}

// Step 1, one item of node i.
fn collect(memory: &mut [u32], s: Settings, j: usize, i: usize, r: Round) -> Round
    requires { Collects s memory.old j i 1 r }
    ensures { post memory.new result ≡ collected s j memory.old i r }
{
    let n = stages::give_back(memory, s, i, j);
    r.blocks_back(n)
}

// Step 1 on node i: k items. (No step here stops, so this and collect_from stand beside carry_all and carry_from: one loop would take a closure with clauses, no plainer.)
#[tactic(auto, using(crate::proofs::Ways::back_none))]
fn collect_all(memory: &mut [u32], s: Settings, j: usize, i: usize, k: usize, r: Round) -> Round
    requires { Collects s memory.old j i k r }
    ensures { post memory.new result ≡ collected_all s j k memory.old i r }
{
    let mut a = r;
    for _item in 0..k {
        a = collect(memory, s, j, i, a);
    }
    a
}

// Step 1 on the nodes from i on.
#[tactic(auto, using(crate::proofs::Ways::backs_none))]
pub fn collect_from(memory: &mut [u32], s: Settings, j: usize, i: usize, r: Round) -> Round
    requires { CollectsFrom s memory.old j i r }
    ensures { post memory.new result ≡ collected_from s j (nodes - i) memory.old i r }
{
    let mut a = r;
    for other in i..6 {
        let k = acks_for(memory, s, j, other);
        a = collect_all(memory, s, j, other, k, a);
    }
    a
}
