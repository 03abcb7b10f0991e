// Receive: the call that takes a letter from a task queue and gives its blocks back.
#![tactic(auto)]

ghost use Rattle.std.specs.Prelude.{◌≡◌, true, cond, Ok, Err, ◌||◌, ◌+◌, ◌≤◌, eqb, length, drop};
ghost use Rattle.layout.specs.Places.{setting_words, nodes_at, task_at, empty_word};
ghost use Rattle.layout.specs.Numbers.{header_words};
ghost use Rattle.queues.specs.Queue.{task_kind, item_at};
ghost use Rattle.queues.specs.Moves.{counted};
ghost use Rattle.letters.specs.Letter.{onto};
ghost use Rattle.tasks.specs.Table.{is_bound};
ghost use Rattle.sound.specs.Reading.{settings_in, table_in};
ghost use Rattle.sound.specs.Letters.{words_from};
ghost use Rattle.sound.specs.Sound.{sound};
ghost use Rattle.receive.specs.Take.{filled, emptied, took_at, took};
ghost use Rattle.receive.specs.Outcome.{told, receive};
ghost use Rattle.receive.specs.Asked.{Whole, Fits, Holds, Leaves, Kept, Seated, Collects};

use answers::Answer;
use queues::QueueAt;
use settings::Settings;

// What a receive that is done answers: the source, and the words of the body.
#[derive(Clone, Copy, Debug, PartialEq, Eq)]
pub struct Received {
    pub source: u32,
    pub words: u32,
}

// Why a receive was refused.
#[derive(Clone, Copy, Debug, PartialEq, Eq)]
pub enum ReceiveRefusal {
    NotSound,
    DestinationNotBound,
    SourceNotBound,
    NoLetter,
    NoLetterQueueFull,
    OutTooShort,
}

// The source and the body's length.
impl From<Received> for Answer {
    ghost from_gives = { λ received a. a ≡ told (Ok received) };

    fn from(received: Received) -> Answer {
        Answer {
            number: 0,
            first: received.source,
            second: received.words,
            third: 0,
        }
    }
}

// The number of each refusal.
impl From<ReceiveRefusal> for Answer {
    ghost from_gives = { λ refusal a. a ≡ told (Err refusal) };

    fn from(refusal: ReceiveRefusal) -> Answer {
        answers::bare(match refusal {
            ReceiveRefusal::NotSound => 1,
            ReceiveRefusal::DestinationNotBound => 2,
            ReceiveRefusal::SourceNotBound => 3,
            ReceiveRefusal::NoLetter => 7,
            ReceiveRefusal::NoLetterQueueFull => 8,
            ReceiveRefusal::OutTooShort => 9,
        })
    }
}

// Whether a letter from one source was asked of a task queue whose items have reached T.
fn is_filled(node: &[u32], s: Settings, q: usize, source: u32) -> bool
    requires { Kept s node.now q }
    ensures { result ≡ filled s node.now q source }
{
    if source == 0 {
        return false;
    }
    s.t <= QueueAt::task(s, q).items(node)
}

// No such letter: 8 before 7, and the empty count rises.
fn in_vain(node: &mut [u32], s: Settings, q: usize, source: u32) -> Result<Received, ReceiveRefusal>
    requires { Kept s node.old q }
    ensures answer { result ≡ cond (filled s node.old q source) (Err ReceiveRefusal.NoLetterQueueFull) (Err ReceiveRefusal.NoLetter) }
    ensures stored { node.new ≡ counted node.old (task_at s q + empty_word) }
{
    let filled = is_filled(node, s, q, source);
    let at = layout::task_at(s, q);
    queues::count_up(node, at + 4);
    Err(if filled {
        ReceiveRefusal::NoLetterQueueFull
    } else {
        ReceiveRefusal::NoLetter
    })
}

// The first block of the letter at place k of task queue q.
fn first_block(node: &[u32], s: Settings, q: usize, k: usize) -> u32
    requires { Holds s node.now q k }
    ensures { result ≡ item_at (task_kind s) node.now (task_at s q) k }
{
    QueueAt::task(s, q).item(node, k)
}

// The words of the body of the letter that block b begins.
fn body_length(node: &[u32], s: Settings, b: u32) -> u32
    requires { Whole s node.now b }
    ensures { result ≡ length (drop header_words (words_from s node.now b)) }
{
    letters::told_length(node, s, b) - 5
}

// The body of the letter that block b begins, n words, at the front of out; the rest of out stays.
fn read_body(node: &[u32], s: Settings, b: u32, n: usize, out: &mut [u32])
    requires { Fits s node.now b n out.old }
    ensures { out.new ≡ onto (drop header_words (words_from s node.now b)) out.old }
{
    letters::read(node, s, b, 5, &mut out[0..n]);
}

// The item at place k leaves task queue q, and its chain, that of a letter with a body of n words, is given back.
fn empty(node: &mut [u32], s: Settings, q: usize, k: usize, b: u32, n: usize)
    requires { Leaves s node.old q k b n }
    ensures { node.new ≡ emptied s node.old q 0 k }
{
    let owed = blocks::needs_of(s, n + 5);
    let at = layout::task_at(s, q);
    taking::take_out(node, s, at, k);
    blocks::give_back(node, s, b, owed);
}

// The letter at place k of task queue q goes to out, where there is room for its body.
fn take_at(
    node: &mut [u32],
    s: Settings,
    q: usize,
    k: usize,
    out: &mut [u32],
) -> Result<Received, ReceiveRefusal>
    requires { Holds s node.old q k }
    ensures { record { answer = result; stretch = node.new; out = out.new } ≡ took_at s node.old q 0 k out.old }
{
    let b = first_block(node, s, q, k);
    let length = body_length(node, s, b);
    let n = length as usize;
    if out.len() < n {
        return Err(ReceiveRefusal::OutTooShort);
    }
    let source = letters::word_of(node, s, b, 0);
    read_body(node, s, b, n, out);
    empty(node, s, q, k, b, n);
    Ok(Received {
        source,
        words: length,
    })
}

// Takes the first letter from the source, or the first of all where the source is 0, out of task queue q.
fn take_letter(
    node: &mut [u32],
    s: Settings,
    q: usize,
    source: u32,
    out: &mut [u32],
) -> Result<Received, ReceiveRefusal>
    requires { Kept s node.old q }
    ensures { record { answer = result; stretch = node.new; out = out.new } ≡ took s node.old q source out.old }
{
    let at = layout::task_at(s, q);
    match taking::find(node, s, at, source) {
        Some(k) => take_at(node, s, q, k, out),
        None => in_vain(node, s, q, source),
    }
}

// Takes a letter out of queue q of node i, whose stretch is lent.
fn collect(
    memory: &mut [u32],
    i: usize,
    q: usize,
    source: u32,
    out: &mut [u32],
) -> Result<Received, ReceiveRefusal>
    requires { Seated memory.old i q }
    ensures { Collects memory.old i q source out.old result memory.new out.new }
{
    let s = sound::settings_in(memory);
    let a = layout::node_at(s, i);
    let e = a + layout::node_size(s);
    take_letter(&mut memory[a..e], s, q, source, out)
}

// Whether the source is 0 or a bound task.
fn is_known(memory: &[u32], source: u32) -> bool
    requires { nodes_at ≤ length memory.now }
    ensures { result ≡ eqb source 0 || is_bound (table_in memory.now) source }
{
    if source == 0 {
        return true;
    }
    tasks::seat_of(layout::table(memory), source).is_some()
}

// Receive, on a sound memory.
fn receive_sound(
    memory: &mut [u32],
    destination: u32,
    source: u32,
    out: &mut [u32],
) -> Result<Received, ReceiveRefusal>
    requires { sound memory.old ≡ true }
    ensures { record { answer = result; memory = memory.new; out = out.new } ≡ receive memory.old destination source out.old }
{
    let Some(seat) = tasks::seat_of(layout::table(memory), destination) else {
        return Err(ReceiveRefusal::DestinationNotBound);
    };
    if !is_known(memory, source) {
        return Err(ReceiveRefusal::SourceNotBound);
    }
    collect(memory, seat.node as usize, seat.queue as usize, source, out)
}

// Receive, for any memory, any two task numbers and any out. Source 0 is any: so the document and C name it.
pub fn receive(
    memory: &mut [u32],
    destination: u32,
    source: u32,
    out: &mut [u32],
) -> Result<Received, ReceiveRefusal>
    ensures { record { answer = result; memory = memory.new; out = out.new } ≡ receive memory.old destination source out.old }
{
    if !soundness::is_sound(memory) {
        return Err(ReceiveRefusal::NotSound);
    }
    receive_sound(memory, destination, source, out)
}
