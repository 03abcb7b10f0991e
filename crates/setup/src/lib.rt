// Set up: the first of the five calls.
#![tactic(auto)]

ghost use Rattle.std.specs.Prelude.{Err, ◌≡◌, ◌++◌, ◌*◌, length, take, drop, replicate};
ghost use Rattle.settings.specs.Made.{settings_of};
ghost use Rattle.settings.specs.Range.{InRange};
ghost use Rattle.layout.specs.Places.{table_words, table_at, nodes_at, node_size};
ghost use Rattle.layout.specs.Asked.{Sized};
ghost use Rattle.setup.specs.Fresh.{fresh_head, fresh_node, fresh_nodes, fresh_memory};
ghost use Rattle.setup.specs.Outcome.{set_up, told};

use answers::Answer;
use settings::Settings;

// Why a set up was refused.
#[derive(Clone, Copy, Debug, PartialEq, Eq)]
pub enum SetUpRefusal {
    SettingOutOfRange,
    WrongTable,
    OtherSize,
}

// The settings, in a head of zeroes.
#[tactic(auto, unfolding(crate::specs::Fresh::fresh_head))]
fn lay_head(head: &mut [u32], s: Settings)
    requires in_range { InRange s }
    requires head_value { head.old ≡ replicate table_at 0 }
    ensures { head.new ≡ fresh_head s }
{
    head[0] = s.b as u32;
    head[1] = s.m as u32;
    head[2] = s.s as u32;
    head[3] = s.a as u32;
    head[4] = s.t as u32;
}

// The free list, in a stretch of zeroes: block 1 is its first, each block b links to b + 1, and the link of the last stays 0.
fn lay_node(node: &mut [u32], s: Settings)
    requires in_range { InRange s }
    requires node_value { node.old ≡ replicate (node_size s) 0 }
    ensures { node.new ≡ fresh_node s }
{
    node[0] = 1;
    for b in 1..s.m {
        let at = layout::link_at(s, b);
        node[at] = b as u32 + 1;
    }
}

// The six nodes' stretches, in a memory that is zeroes from the first of them on.
fn lay_nodes(memory: &mut [u32], s: Settings)
    requires sized { Sized s memory.old }
    requires memory_value { drop nodes_at memory.old ≡ replicate (6 * node_size s) 0 }
    ensures { memory.new ≡ take nodes_at memory.old ++ fresh_nodes s 6 }
{
    let words = layout::node_size(s);
    for i in 0..6 {
        let at = layout::node_at(s, i);
        lay_node(&mut memory[at..at + words], s);
    }
}

// Every word of a memory fresh from set up: all are cleared at one go, then those that are not 0 are laid.
fn lay_memory(memory: &mut [u32], s: Settings, table: &[u32])
    requires sized { Sized s memory.old }
    requires table_len { length table.now ≡ table_words }
    ensures { memory.new ≡ fresh_memory s table.now }
{
    memory.fill(0);
    lay_head(&mut memory[0..24], s);
    words::copy(&mut memory[24..536], table);
    lay_nodes(memory, s);
}

// Set up, for any five numbers, any table and any memory.
#[tactic(auto, using(crate::proofs::Made::made_range, tasks::proofs::Laws::right_length_lem), unfolding(crate::specs::Outcome::set_up, settings::specs::Made::made_settings))]
pub fn set_up(
    b: u32,
    m: u32,
    s: u32,
    a: u32,
    t: u32,
    table: &[u32],
    memory: &mut [u32],
) -> Result<(), SetUpRefusal>
    ensures { record { answer = result; memory = memory.new } ≡ set_up (settings_of b m s a t) table.now memory.old }
{
    let settings = Settings::new(b, m, s, a, t).ok_or(SetUpRefusal::SettingOutOfRange)?;
    if !tasks::is_right(table) {
        return Err(SetUpRefusal::WrongTable);
    }
    if memory.len() != layout::memory_size(settings) {
        return Err(SetUpRefusal::OtherSize);
    }
    lay_memory(memory, settings, table);
    Ok(())
}

// The number of each refusal.
impl From<SetUpRefusal> for Answer {
    ghost from_gives = { λ refusal a. a ≡ told (Err refusal) };

    fn from(refusal: SetUpRefusal) -> Answer {
        answers::bare(match refusal {
            SetUpRefusal::SettingOutOfRange => 13,
            SetUpRefusal::WrongTable => 14,
            SetUpRefusal::OtherSize => 15,
        })
    }
}
