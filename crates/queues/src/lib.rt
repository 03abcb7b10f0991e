// The queues of a node's stretch: what the three kinds have in common.
#![tactic(auto)]

ghost use Rattle.std.specs.Prelude.{◌≡◌, ◌+◌, ◌≤◌, ◌<◌, length};
ghost use Rattle.settings.specs.Range.{InRange};
ghost use Rattle.layout.specs.Asked.{IsAt};
ghost use Rattle.layout.specs.Places.{send_at, ack_at, task_at, queue_head, task_head, full_word};
ghost use Rattle.queues.specs.Queue.{Queue, send_kind, ack_kind, task_kind, items, item_at};
ghost use Rattle.queues.specs.Moves.{
  counted,
  appended,
  append_answer,
  dropped,
  Near,
  IsSlot,
};

use settings::Settings;
use words::one_more;

// A kind of queue: the words before its slots, its slots, and the word that counts the appends that found it full.
#[derive(Clone, Copy, Debug, PartialEq, Eq)]
pub struct Kind {
    pub head: usize,
    pub slots: usize,
    pub full: usize,
}

// A queue of a node's stretch: its kind, and its first word.
#[derive(Clone, Copy, Debug, PartialEq, Eq)]
pub struct QueueAt {
    pub kind: Kind,
    pub at: usize,
}

// Why an append was refused: the queue is at its length.
#[derive(Clone, Copy, Debug, PartialEq, Eq)]
pub struct Full;

impl Kind {
    // The send and acknowledge queues' kind, which have so many slots.
    fn post(slots: usize) -> Kind
        ensures { result ≡ record { head = queue_head; slots = slots; full = full_word } }
    {
        Kind {
            head: 3,
            slots,
            full: 2,
        }
    }

    // The send queues' kind.
    pub fn send(s: Settings) -> Kind
        ensures { result ≡ send_kind s }
    {
        Kind::post(s.s)
    }

    // The acknowledge queues' kind.
    pub fn ack(s: Settings) -> Kind
        ensures { result ≡ ack_kind s }
    {
        Kind::post(s.a)
    }

    // The task queues' kind.
    pub fn task(s: Settings) -> Kind
        ensures { result ≡ task_kind s }
    {
        Kind {
            head: 5,
            slots: s.t,
            full: 3,
        }
    }
}

impl QueueAt {
    // Send queue k.
    pub fn send(s: Settings, k: usize) -> QueueAt
        requires in_range { InRange s }
        requires k_bound { k < 6 }
        ensures kind { result.kind ≡ send_kind s }
        ensures at { IsAt s (send_at s k) (queue_head + s.s) result.at }
    {
        QueueAt {
            kind: Kind::send(s),
            at: layout::send_at(s, k),
        }
    }

    // Acknowledge queue k.
    pub fn ack(s: Settings, k: usize) -> QueueAt
        requires in_range { InRange s }
        requires k_bound { k < 6 }
        ensures kind { result.kind ≡ ack_kind s }
        ensures at { IsAt s (ack_at s k) (queue_head + s.a) result.at }
    {
        QueueAt {
            kind: Kind::ack(s),
            at: layout::ack_at(s, k),
        }
    }

    // Task queue q.
    pub fn task(s: Settings, q: usize) -> QueueAt
        requires in_range { InRange s }
        requires q_bound { q < 64 }
        ensures kind { result.kind ≡ task_kind s }
        ensures at { IsAt s (task_at s q) (task_head + s.t) result.at }
    {
        QueueAt {
            kind: Kind::task(s),
            at: layout::task_at(s, q),
        }
    }

    // The word of slot i, counted from the slot that the queue starts with: taken round by a test, which costs less than a division.
    pub fn slot(self, first: usize, i: usize) -> usize
        requires { Near self.kind self.at first i }
        ensures { IsSlot self.kind self.at first i result }
    {
        let slot = first + i;
        if slot < self.kind.slots {
            self.at + (self.kind.head + slot)
        } else {
            self.at + (self.kind.head + (slot - self.kind.slots))
        }
    }

    // The number of items.
    pub fn items(self, node: &[u32]) -> usize
        requires { Queue self.kind node.now self.at }
        ensures { result ≡ items self.kind node.now self.at }
    {
        node[self.at + 1] as usize
    }

    // The item at place i, counted from the first.
    pub fn item(self, node: &[u32], i: usize) -> u32
        requires queue { Queue self.kind node.now self.at }
        requires i_lt_slots { i < self.kind.slots }
        ensures { result ≡ item_at self.kind node.now self.at i }
    {
        let first = node[self.at] as usize;
        node[self.slot(first, i)]
    }

    // Puts an item behind the last, or counts that there was no room.
    pub fn append(self, node: &mut [u32], item: u32) -> Result<(), Full>
        requires { Queue self.kind node.old self.at }
        ensures { (node.new ≡ appended self.kind node.old self.at item) × (result ≡ append_answer self.kind node.old self.at) }
    {
        let first = node[self.at] as usize;
        let count = node[self.at + 1];
        if (count as usize) < self.kind.slots {
            let slot = self.slot(first, count as usize);
            node[slot] = item;
            node[self.at + 1] = count + 1;
            Ok(())
        } else {
            count_up(node, self.at + self.kind.full);
            Err(Full)
        }
    }

    // Drops the first item, and answers it; the start moves on to the second slot, which is found by a test.
    pub fn drop_first(self, node: &mut [u32]) -> u32
        requires queue { Queue self.kind node.old self.at }
        requires q_nonzero { 0 < items self.kind node.old self.at }
        ensures { (node.new ≡ dropped self.kind node.old self.at) × (result ≡ item_at self.kind node.old self.at 0) }
    {
        let first = node[self.at] as usize;
        let count = node[self.at + 1];
        let slot = self.slot(first, 0);
        let item = node[slot];
        let second = self.slot(first, 1);
        let next = second - (self.at + self.kind.head);
        node[slot] = 0;
        node[self.at] = next as u32;
        node[self.at + 1] = count - 1;
        item
    }
}

// The count at a word rises by one.
pub fn count_up(node: &mut [u32], at: usize)
    requires { at < length node.old }
    ensures { node.new ≡ counted node.old at }
{
    let count = one_more(node[at]);
    node[at] = count;
}
