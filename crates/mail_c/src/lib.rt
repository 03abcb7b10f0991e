// The door for C: the five calls of mail, as include/mail.h declares them; C needs its own exports beside mail's functions.
#![tactic(auto)]

ghost use Rattle.mail.specs.Door.{SetsUp, Sends, Receives, Turns, Lists};

use answers::Answer;

// Lays out a memory with no letters, by five settings and a table.
#[unsafe(no_mangle)]
pub extern "C" fn mail_set_up(
    b: u32,
    m: u32,
    s: u32,
    a: u32,
    t: u32,
    table: &[u32],
    memory: &mut [u32],
) -> Answer
    ensures { SetsUp b m s a t table.now memory.old result memory.new }
{
    mail::mail_set_up(b, m, s, a, t, table, memory)
}

// Sends a letter from one task to another.
#[unsafe(no_mangle)]
pub extern "C" fn mail_send(
    memory: &mut [u32],
    source: u32,
    destination: u32,
    body: &[u32],
) -> Answer
    ensures { Sends memory.old source destination body.now result memory.new }
{
    mail::mail_send(memory, source, destination, body)
}

// Receives a task's first letter, or its first from a source that is not 0.
#[unsafe(no_mangle)]
pub extern "C" fn mail_receive(
    memory: &mut [u32],
    destination: u32,
    source: u32,
    out: &mut [u32],
) -> Answer
    ensures { Receives memory.old destination source out.old result memory.new out.new }
{
    mail::mail_receive(memory, destination, source, out)
}

// Lets the node whose turn it is fetch its mail.
#[unsafe(no_mangle)]
pub extern "C" fn mail_turn(memory: &mut [u32]) -> Answer
    ensures { Turns memory.old result memory.new }
{
    mail::mail_turn(memory)
}

// Lists the letters on their way.
#[unsafe(no_mangle)]
pub extern "C" fn mail_list(memory: &[u32], out: &mut [u32]) -> Answer
    ensures { Lists memory.now out.old result out.new }
{
    mail::mail_list(memory, out)
}
