// Posting: a letter is put into a node's stretch, or refused there.
#![tactic(auto)]

ghost use Rattle.std.specs.Prelude.{◌≡◌, ◌+◌, length, Ok, Err};
ghost use Rattle.layout.specs.Numbers.{header_words};
ghost use Rattle.blocks.specs.Asked.{Takes};
ghost use Rattle.blocks.specs.Moves.{enough};
ghost use Rattle.letters.specs.Made.{letter_of};
ghost use Rattle.queues.specs.Queue.{Queue, send_kind};
ghost use Rattle.queues.specs.Tasks.{TaskQueue};
ghost use Rattle.queues.specs.Moves.{counted, append_answer};
ghost use Rattle.gaps.specs.Close.{task_answer};
ghost use Rattle.posting.specs.Told.{told};
ghost use Rattle.posting.specs.Post.{took_it, has_room, appended_to, full_of, put_in, posted};
ghost use Rattle.posting.specs.Asked.{Aims, Posts, Roomy};

use answers::Answer;
use letters::Header;
use queues::QueueAt;
use settings::Settings;

// What a send that is done answers: the blocks taken.
#[derive(Clone, Copy, Debug, PartialEq, Eq)]
pub struct Sent {
    pub blocks: u32,
}

// Why a send was refused.
#[derive(Clone, Copy, Debug, PartialEq, Eq)]
pub enum SendRefusal {
    NotSound,
    SourceNotBound,
    DestinationNotBound,
    BodyTooLong,
    TooFewBlocks,
    QueueFull,
}

// The blocks taken.
impl From<Sent> for Answer {
    ghost from_gives = { λ sent a. a ≡ told (Ok sent) };

    fn from(sent: Sent) -> Answer {
        Answer {
            number: 0,
            first: sent.blocks,
            second: 0,
            third: 0,
        }
    }
}

// The number of each refusal.
impl From<SendRefusal> for Answer {
    ghost from_gives = { λ refusal a. a ≡ told (Err refusal) };

    fn from(refusal: SendRefusal) -> Answer {
        answers::bare(match refusal {
            SendRefusal::NotSound => 1,
            SendRefusal::SourceNotBound => 2,
            SendRefusal::DestinationNotBound => 3,
            SendRefusal::BodyTooLong => 4,
            SendRefusal::TooFewBlocks => 5,
            SendRefusal::QueueFull => 6,
        })
    }
}

// The queue that a letter goes to: a task queue of the same node, or the send queue for another node.
#[derive(Clone, Copy, Debug, PartialEq, Eq)]
pub enum Goal {
    Task(usize),
    Node(usize),
}

// Whether the free list has n blocks.
fn has_blocks(node: &[u32], s: Settings, n: usize) -> bool
    requires { Takes s node.now n }
    ensures { result ≡ enough s node.now n }
{
    let first = node[0];
    blocks::reach(node, s, first, n).is_some()
}

// Whether the task queue at word q takes one more, its gaps closed.
fn task_has_room(node: &[u32], s: Settings, q: usize) -> bool
    requires { TaskQueue s node.now q }
    ensures { result ≡ took_it (task_answer s node.now q) }
{
    if (node[q + 1] as usize) < s.t {
        return true;
    }
    node[q + 2] == 1
}

// Whether the send queue at word q takes one more.
fn send_has_room(node: &[u32], s: Settings, q: usize) -> bool
    requires { Queue (send_kind s) node.now q }
    ensures { result ≡ took_it (append_answer (send_kind s) node.now q) }
{
    (node[q + 1] as usize) < s.s
}

// Whether the goal takes one more.
fn has_room(node: &[u32], s: Settings, goal: Goal) -> bool
    requires { Aims s node.now goal }
    ensures { result ≡ has_room s node.now goal }
{
    match goal {
        Goal::Task(q) => task_has_room(node, s, layout::task_at(s, q)),
        Goal::Node(k) => send_has_room(node, s, layout::send_at(s, k)),
    }
}

// Counts that the goal was found full.
fn count_full(node: &mut [u32], s: Settings, goal: Goal)
    requires { Aims s node.old goal }
    ensures { node.new ≡ counted node.old (full_of s goal) }
{
    match goal {
        Goal::Task(q) => {
            let at = layout::task_at(s, q) + 3;
            queues::count_up(node, at);
        }
        Goal::Node(k) => {
            let at = layout::send_at(s, k) + 2;
            queues::count_up(node, at);
        }
    }
}

// Appends a block to the goal; that it takes one more was looked at before.
fn append_to(node: &mut [u32], s: Settings, goal: Goal, b: u32)
    requires { Aims s node.old goal }
    ensures { node.new ≡ appended_to s node.old goal b }
{
    match goal {
        Goal::Task(q) => {
            let at = layout::task_at(s, q);
            let _ = gaps::append(node, s, at, b);
        }
        Goal::Node(k) => {
            let _ = QueueAt::send(s, k).append(node, b);
        }
    }
}

// Takes blocks, writes the letter and appends the first block.
fn put_in(node: &mut [u32], s: Settings, goal: Goal, header: Header, body: &[u32])
    requires { Roomy s node.old goal (header_words + length body.now) }
    ensures { node.new ≡ put_in s node.old goal (letter_of header body.now) }
{
    let n = blocks::needs_of(s, 5 + body.len());
    let Some(first) = blocks::take(node, s, n) else {
        unreachable!();
    };
    letters::write(node, s, first, header, body);
    append_to(node, s, goal, first);
}

// Puts a letter into the stretch, or counts what was wanting: blocks, or room in the queue.
pub fn post(
    node: &mut [u32],
    s: Settings,
    goal: Goal,
    header: Header,
    body: &[u32],
) -> Result<Sent, SendRefusal>
    requires { Posts s node.old goal (header_words + length body.now) }
    ensures { record { answer = result; stretch = node.new } ≡ posted s node.old goal (letter_of header body.now) }
{
    let n = blocks::needs_of(s, 5 + body.len());
    if !has_blocks(node, s, n) {
        queues::count_up(node, 1);
        return Err(SendRefusal::TooFewBlocks);
    }
    if !has_room(node, s, goal) {
        count_full(node, s, goal);
        return Err(SendRefusal::QueueFull);
    }
    put_in(node, s, goal, header, body);
    Ok(Sent { blocks: n as u32 })
}
