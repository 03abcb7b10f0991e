// The program: plays records of 8 bytes from standard input and prints a line for each.
#![tactic(auto)]

ghost use Rattle.std.specs.Prelude.{◌≡◌, ◌<◌, length, get_or};
ghost use Rattle.mailrun.specs.Program.{word_from, sent, received, played};

use answers::Answer;
use std::io;

// f: the last four bytes of a record, low byte first.
fn word_from(bytes: &[u8; 8]) -> u32
    ensures { result ≡ word_from bytes.now }
{
    u32::from_le_bytes([bytes[4], bytes[5], bytes[6], bytes[7]])
}

// Sends from the first task to the second; the body fills a side row of its length.
#[tactic(auto, unfolding(crate::specs::Program::sent))]
fn send_through(memory: &mut [u32], bytes: &[u8; 8], side: &mut [u32]) -> Answer
    requires { length side.old ≡ get_or bytes.now 3 0 }
    ensures { record { answer = result; memory = memory.new } ≡ sent memory.old bytes.now }
{
    script::fill(side, word_from(bytes));
    mail::mail_send(memory, u32::from(bytes[1]), u32::from(bytes[2]), side)
}

// Kind 1: first task, second task, body length, f.
fn play_send(memory: &mut [u32], bytes: &[u8; 8]) -> Answer
    ensures { record { answer = result; memory = memory.new } ≡ sent memory.old bytes.now }
{
    let mut side = [0; 255];
    send_through(memory, bytes, &mut side[..usize::from(bytes[3])])
}

// Kind 2: first task, second task; the third value is the body's first word.
fn play_receive(memory: &mut [u32], bytes: &[u8; 8]) -> Answer
    ensures { record { answer = result; memory = memory.new } ≡ received memory.old bytes.now }
{
    let mut out = [0; 255];
    let answer = mail::mail_receive(memory, u32::from(bytes[1]), u32::from(bytes[2]), &mut out);
    Answer {
        third: out[0],
        ..answer
    }
}

// One record; an unknown kind and a short record are refused by 12.
#[tactic(auto, unfolding(crate::specs::Program::played, crate::specs::Program::turned))]
fn play(memory: &mut [u32], bytes: &[u8]) -> Answer
    ensures { record { answer = result; memory = memory.new } ≡ played memory.old bytes.now }
{
    let Ok(bytes) = <&[u8; 8]>::try_from(bytes) else {
        return answers::bare(12);
    };
    // one match on the byte: every other value has its line too, 12, so an enum of kinds would be made by one match and taken apart by another, no plainer
    match bytes[0] {
        1 => play_send(memory, bytes),
        2 => play_receive(memory, bytes),
        3 => mail::mail_turn(memory),
        _ => answers::bare(12),
    }
}

// The line of one event.
fn print_line(to: &impl Print, event: u64, a: Answer) -> io::Result<()> {
    println!(to; "{event} {} {} {} {}", a.number, a.first, a.second, a.third)
}

// Reads and plays the next record, and says whether there was one.
fn step<R: io::Read>(
    from: &mut R,
    to: &impl Print,
    memory: &mut [u32],
    event: u64,
) -> io::Result<bool> {
    let mut bytes = [0; 8];
    let n = script::read_full(from, &mut bytes)?;
    if n == 0 {
        return Ok(false);
    }
    print_line(to, event, play(memory, &bytes[..n]))?;
    Ok(true)
}

// Binds a task to a node and a queue.
fn bind(table: &mut [u32; 512], task: usize, node: u32, queue: u32)
    requires { task < 256 }
{
    table[2 * task] = node;
    table[2 * task + 1] = queue;
}

// No task is bound: each has 255, 0.
fn unbind(table: &mut [u32; 512]) {
    for task in 0..256 {
        bind(table, task, 255, 0);
    }
}

fn main(rt: HostRuntime) -> io::Result<()> {
    let mut memory = [0; 3788];
    let mut table = [0; 512];
    unbind(&mut table);
    bind(&mut table, 7, 2, 5);
    bind(&mut table, 27, 2, 4);
    bind(&mut table, 52, 3, 16);
    mail::mail_set_up(8, 4, 2, 2, 2, &table, &mut memory);
    let mut from = rt.stdin();
    for event in 1..u64::MAX {
        if !step(&mut from, &rt, &mut memory, event)? {
            break;
        }
    }
    Ok(())
}
