// Send: the call that takes blocks, writes a letter and appends it.
#![tactic(auto)]

ghost use Rattle.std.specs.Prelude.{◌≡◌, true, ◌+◌, length};
ghost use Rattle.settings.specs.Range.{InRange};
ghost use Rattle.layout.specs.Numbers.{header_words};
ghost use Rattle.letters.specs.Made.{letter_of};
ghost use Rattle.sound.specs.Sound.{sound};
ghost use Rattle.send.specs.Outcome.{fits, goal_of, posted_in, send};
ghost use Rattle.send.specs.Asked.{Delivers};

use letters::Header;
use posting::{Goal, SendRefusal, Sent};
use settings::Settings;

// Whether a letter with a body of n words has a valid length and no more blocks than a node.
fn body_fits(s: Settings, n: usize) -> bool
    requires { InRange s }
    ensures { result ≡ fits s n }
{
    if 1019 < n {
        return false;
    }
    blocks::needs_of(s, 5 + n) <= s.m
}

// The queue for a letter, by the nodes of its two tasks and the destination's queue.
fn goal_of(from: u32, to: u32, queue: u32) -> Goal
    ensures { result ≡ goal_of from to queue }
{
    if from == to {
        Goal::Task(queue as usize)
    } else {
        Goal::Node(to as usize)
    }
}

// Posts a letter in the source's node: its stretch alone is lent.
fn send_letter(
    memory: &mut [u32],
    s: Settings,
    header: Header,
    goal: Goal,
    body: &[u32],
) -> Result<Sent, SendRefusal>
    requires { Delivers s memory.old header.from goal (header_words + length body.now) }
    ensures { record { answer = result; memory = memory.new } ≡ posted_in s memory.old header.from goal (letter_of header body.now) }
{
    let a = layout::node_at(s, header.from as usize);
    let e = a + layout::node_size(s);
    posting::post(&mut memory[a..e], s, goal, header, body)
}

// Send, in a sound memory.
fn send_sound(
    memory: &mut [u32],
    source: u32,
    destination: u32,
    body: &[u32],
) -> Result<Sent, SendRefusal>
    requires { sound memory.old ≡ true }
    ensures { record { answer = result; memory = memory.new } ≡ send memory.old source destination body.now }
{
    let s = sound::settings_in(memory);
    let Some(home) = tasks::seat_of(layout::table(memory), source) else {
        return Err(SendRefusal::SourceNotBound);
    };
    let Some(away) = tasks::seat_of(layout::table(memory), destination) else {
        return Err(SendRefusal::DestinationNotBound);
    };
    if !body_fits(s, body.len()) {
        return Err(SendRefusal::BodyTooLong);
    }
    let header = Header {
        source,
        from: home.node,
        destination,
        to: away.node,
    };
    send_letter(
        memory,
        s,
        header,
        goal_of(home.node, away.node, away.queue),
        body,
    )
}

// Send, for any memory, any two task numbers and any body.
pub fn send(
    memory: &mut [u32],
    source: u32,
    destination: u32,
    body: &[u32],
) -> Result<Sent, SendRefusal>
    ensures { record { answer = result; memory = memory.new } ≡ send memory.old source destination body.now }
{
    if !soundness::is_sound(memory) {
        return Err(SendRefusal::NotSound);
    }
    send_sound(memory, source, destination, body)
}
