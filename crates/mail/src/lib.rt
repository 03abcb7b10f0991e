// The door: the five calls, with the document's numbers and values.
#![tactic(auto)]

ghost use Rattle.mail.specs.Door.{SetsUp, Sends, Receives, Turns, Lists};

use answers::Answer;

// Lays out a memory with no letters, by five settings and a table.
pub fn mail_set_up(
    b: u32,
    m: u32,
    s: u32,
    a: u32,
    t: u32,
    table: &[u32],
    memory: &mut [u32],
) -> Answer
    ensures { SetsUp b m s a t table.now memory.old result memory.new }
{
    answers::answer_to(setup::set_up(b, m, s, a, t, table, memory))
}

// Sends a letter from one task to another.
pub fn mail_send(memory: &mut [u32], source: u32, destination: u32, body: &[u32]) -> Answer
    ensures { Sends memory.old source destination body.now result memory.new }
{
    answers::answer_to(send::send(memory, source, destination, body))
}

// Receives a task's first letter, or its first from a source that is not 0.
pub fn mail_receive(memory: &mut [u32], destination: u32, source: u32, out: &mut [u32]) -> Answer
    ensures { Receives memory.old destination source out.old result memory.new out.new }
{
    answers::answer_to(receive::receive(memory, destination, source, out))
}

// Lets the node whose turn it is fetch its mail.
pub fn mail_turn(memory: &mut [u32]) -> Answer
    ensures { Turns memory.old result memory.new }
{
    answers::answer_to(turn::turn(memory))
}

// Lists the letters on their way.
pub fn mail_list(memory: &[u32], out: &mut [u32]) -> Answer
    ensures { Lists memory.now out.old result out.new }
{
    answers::answer_to(listing::list(memory, out))
}
