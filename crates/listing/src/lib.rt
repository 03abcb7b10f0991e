// List: the call that shows every letter on its way.
#![tactic(auto)]

ghost use Rattle.std.specs.Prelude.{◌≡◌, true, Ok, Err, [], ◌∷◌, ◌*◌, ◌+◌, ◌≤◌, ◌<◌, length};
ghost use Rattle.words.specs.Count.{sum};
ghost use Rattle.layout.specs.Places.{nodes, task_ids, task_queues};
ghost use Rattle.queues.specs.Items.{live};
ghost use Rattle.sound.specs.Reading.{task_items};
ghost use Rattle.sound.specs.Sound.{sound};
ghost use Rattle.showing.specs.List.{from_task, waiting};
ghost use Rattle.listing.specs.Asked.{Asked, laid_at, placed, Low, kept_of, kept_below, sent_from, sent_below, every_letter, numbers, Ranked};
ghost use Rattle.listing.specs.Outcome.{told, list};

use answers::Answer;
use queues::QueueAt;
use settings::Settings;
use showing::Shown;

// What a list that is done answers: the number of letters.
#[derive(Clone, Copy, Debug, PartialEq, Eq)]
pub struct Listed {
    pub letters: u32,
}

// Why a list was refused; the number of letters where out has no room for them.
#[derive(Clone, Copy, Debug, PartialEq, Eq)]
pub enum ListRefusal {
    NotSound,
    OutTooShort(u32),
}

// The number of letters.
impl From<Listed> for Answer {
    ghost from_gives = { λ listed a. a ≡ told (Ok listed) };

    fn from(listed: Listed) -> Answer {
        Answer {
            number: 0,
            first: listed.letters,
            second: 0,
            third: 0,
        }
    }
}

// The number of each refusal, with the number of letters where out has no room for them.
impl From<ListRefusal> for Answer {
    ghost from_gives = { λ refusal a. a ≡ told (Err refusal) };

    fn from(refusal: ListRefusal) -> Answer {
        match refusal {
            ListRefusal::NotSound => answers::bare(1),
            ListRefusal::OutTooShort(letters) => Answer {
                number: 11,
                first: letters,
                second: 0,
                third: 0,
            },
        }
    }
}

// The six words of a letter behind n letters in out, where out has room for them.
#[tactic(auto, unfolding(crate::specs::Asked::laid_at))]
fn lay(out: &mut [u32], n: u32, x: Shown)
    ensures { out.new ≡ laid_at x n out.old }
{
    let at = n as usize * 6;
    if at + 6 <= out.len() {
        let words = [x.destination, x.source, x.place, x.holder, x.block, x.body];
        words::copy(&mut out[at..at + 6], &words);
    }
}

// A letter at its task's rank, which rises by one.
#[tactic(auto, unfolding(crate::specs::Asked::placed))]
fn list_letter(x: Shown, ranks: &mut [u32; 256], out: &mut [u32])
    requires destination_lt_task_ids { x.destination < task_ids }
    requires low { Low ranks.old 1 }
    ensures { record { ranks = ranks.new; out = out.new } ≡ placed (x ∷ []) (record { ranks = ranks.old; out = out.old }) }
{
    let t = x.destination as usize;
    let n = ranks[t];
    ranks[t] = n + 1;
    lay(out, n, x);
}

// The letters of node i's task queue q, which is the task's, first to last; gaps are passed over.
fn list_task_queue(
    memory: &[u32],
    s: Settings,
    task: u32,
    i: u32,
    q: u32,
    ranks: &mut [u32; 256],
    out: &mut [u32],
)
    requires asked { Asked s memory.now }
    requires task_lt_task_ids { task < task_ids }
    requires i_lt_nodes { (i < nodes) × (q < task_queues) }
    requires low { Low ranks.old 255 }
    ensures { record { ranks = ranks.new; out = out.new } ≡ placed (from_task s memory.now task i (live (task_items s memory.now i q))) (record { ranks = ranks.old; out = out.old }) }
{
    let node = layout::stretch(memory, s, i as usize);
    let queue = QueueAt::task(s, q as usize);
    for c in 0..queue.items(node) {
        let b = queue.item(node, c);
        if b != 0 {
            let x = showing::shown_at(memory, s, task, 1, i, b);
            list_letter(x, ranks, out);
        }
    }
}

// The letters of a task's queue; a task that is bound to none has none.
fn list_task(memory: &[u32], s: Settings, task: u32, ranks: &mut [u32; 256], out: &mut [u32])
    requires asked { Asked s memory.now }
    requires task_lt_task_ids { task < task_ids }
    requires low { Low ranks.old 255 }
    ensures { record { ranks = ranks.new; out = out.new } ≡ placed (kept_of s memory.now task) (record { ranks = ranks.old; out = out.old }) }
{
    let Some(seat) = tasks::seat_of(layout::table(memory), task) else {
        return;
    };
    list_task_queue(memory, s, task, seat.node, seat.queue, ranks, out);
}

// The letters of all tasks' queues, task by task.
#[tactic(auto, unfolding(crate::specs::Asked::kept_below, crate::specs::Asked::placed))]
fn list_tasks(memory: &[u32], s: Settings, ranks: &mut [u32; 256], out: &mut [u32])
    requires asked { Asked s memory.now }
    requires low { Low ranks.old (task_ids * 255) }
    ensures { record { ranks = ranks.new; out = out.new } ≡ placed (kept_below s memory.now task_ids) (record { ranks = ranks.old; out = out.old }) }
{
    for task in 0..256 {
        list_task(memory, s, task, ranks, out);
    }
}

// The letters that wait in node j's send queue for node i, first to last.
fn list_send_queue(
    memory: &[u32],
    s: Settings,
    i: u32,
    j: u32,
    ranks: &mut [u32; 256],
    out: &mut [u32],
)
    requires asked { Asked s memory.now }
    requires i_lt_nodes { (i < nodes) × (j < nodes) }
    requires low { Low ranks.old 255 }
    ensures { record { ranks = ranks.new; out = out.new } ≡ placed (sent_from s memory.now j (waiting s memory.now i j)) (record { ranks = ranks.old; out = out.old }) }
{
    let node = layout::stretch(memory, s, j as usize);
    let queue = QueueAt::send(s, i as usize);
    let first = showing::left_out(memory, i, j);
    for c in first..queue.items(node) {
        let b = queue.item(node, c);
        let task = letters::word_of(node, s, b, 2);
        let x = showing::shown_at(memory, s, task, 2, j, b);
        list_letter(x, ranks, out);
    }
}

// The letters that wait in all send queues: for node 0 in nodes 0 to 5, then for node 1, and so on.
#[tactic(auto, unfolding(crate::specs::Asked::sent_below, crate::specs::Asked::placed))]
fn list_nodes(memory: &[u32], s: Settings, ranks: &mut [u32; 256], out: &mut [u32])
    requires asked { Asked s memory.now }
    requires low { Low ranks.old (nodes * nodes * 255) }
    ensures { record { ranks = ranks.new; out = out.new } ≡ placed (sent_below s memory.now (nodes * nodes)) (record { ranks = ranks.old; out = out.old }) }
{
    // 36 send queues by one number: a loop a function
    for c in 0..36 {
        list_send_queue(memory, s, c / 6, c % 6, ranks, out);
    }
}

// All letters, each at its task's rank: those of the tasks' queues, then those that wait.
fn list_letters(memory: &[u32], s: Settings, ranks: &mut [u32; 256], out: &mut [u32])
    requires asked { Asked s memory.now }
    requires low { Low ranks.old ((task_ids + nodes * nodes) * 255) }
    ensures { record { ranks = ranks.new; out = out.new } ≡ placed (every_letter s memory.now) (record { ranks = ranks.old; out = out.old }) }
{
    list_tasks(memory, s, ranks, out);
    list_nodes(memory, s, ranks, out);
}

// Turns each task's number of letters into its rank; answers how many letters there are.
fn add_up(ranks: &mut [u32; 256]) -> u32
    requires ranks_len { length ranks.old ≡ task_ids }
    requires ranks_bound { sum task_ids (numbers ranks.old) ≤ 4294967295 }
    ensures { Ranked (numbers ranks.old) ranks.new result }
{
    let mut n = 0;
    for rank in ranks.iter_mut() {
        let letters = *rank;
        *rank = n;
        n += letters;
    }
    n
}

// List, of a sound memory: a walk with no room lays nothing and counts each task's letters; the same walk then lays each at its place.
fn list_sound(memory: &[u32], out: &mut [u32]) -> Result<Listed, ListRefusal>
    requires { sound memory.now ≡ true }
    ensures { record { answer = result; out = out.new } ≡ list memory.now out.old }
{
    let s = sound::settings_in(memory);
    // in fixed memory, and beside out: a struct of both would lend out twice, no plainer
    let mut ranks = [0u32; 256];
    list_letters(memory, s, &mut ranks, &mut out[0..0]);
    let letters = add_up(&mut ranks);
    if out.len() < letters as usize * 6 {
        return Err(ListRefusal::OutTooShort(letters));
    }
    list_letters(memory, s, &mut ranks, out);
    Ok(Listed { letters })
}

// List, for any memory and any out.
#[tactic(auto, unfolding(crate::specs::Outcome::list))]
pub fn list(memory: &[u32], out: &mut [u32]) -> Result<Listed, ListRefusal>
    ensures { record { answer = result; out = out.new } ≡ list memory.now out.old }
{
    if !soundness::is_sound(memory) {
        return Err(ListRefusal::NotSound);
    }
    list_sound(memory, out)
}
