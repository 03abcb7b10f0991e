// Plays a script of calls from standard input and prints a line for each call.
#![tactic(auto)]

ghost use Rattle.std.specs.Prelude.{◌≡◌, ◌≤◌, length, IfOk};
ghost use Rattle.mailplay.specs.Limits.{memory_limit, table_limit, paper_limit};

use answers::Answer;
use script::ScriptError;
use std::io;

// The most words of a script's memory.
const MEMORY_WORDS: usize = 512180;

// The most words of its task table.
const TABLE_WORDS: usize = 1024;

// The most words of the out of a list.
const PAPER_WORDS: usize = 40000;

// The most words of a body, or of the out of a receive.
const BODY_WORDS: usize = 2048;

// The kinds of a script: five calls, and three ways to change what they are played on.
#[derive(Clone, Copy)]
enum Kind {
    SetUp,
    Send,
    Receive,
    Turn,
    List,
    Memory,
    Table,
    Word,
}

impl TryFrom<u32> for Kind {
    type Error = ScriptError;

    fn try_from(number: u32) -> Result<Kind, ScriptError> {
        match number {
            1 => Ok(Kind::SetUp),
            2 => Ok(Kind::Send),
            3 => Ok(Kind::Receive),
            4 => Ok(Kind::Turn),
            5 => Ok(Kind::List),
            6 => Ok(Kind::Memory),
            7 => Ok(Kind::Table),
            8 => Ok(Kind::Word),
            _ => Err(ScriptError::Bad),
        }
    }
}

impl Kind {
    // How many arguments it has; 5 is the most.
    fn arguments(self) -> usize
        ensures { result ≤ 5 }
    {
        match self {
            Kind::SetUp => 5,
            Kind::Send | Kind::Receive => 4,
            Kind::Turn => 0,
            Kind::List | Kind::Memory | Kind::Word => 2,
            Kind::Table => 1,
        }
    }
}

// The line of a call: its answer, the sum of the memory and that of its out, 0 where it has none.
fn print_line(
    to: &impl Print,
    answer: Answer,
    memory: &[u32],
    out: u64,
) -> Result<(), ScriptError> {
    script::print_answer(to, answer)?;
    println!(to; "{} {out}", script::sum(memory))?;
    Ok(())
}

// A length that a script may ask for; a greater one makes it bad.
fn within(n: u32, most: usize) -> Result<usize, ScriptError>
    ensures { IfOk result (λ k. k ≤ most) }
{
    let n = n as usize;
    if n <= most {
        Ok(n)
    } else {
        Err(ScriptError::Bad)
    }
}

// The length of the out of a list.
fn within_paper(n: u32) -> Result<usize, ScriptError>
    ensures { IfOk result (λ k. k ≤ paper_limit) }
{
    within(n, PAPER_WORDS)
}

// How many words of the memory and of the table a script has in use.
#[derive(Clone, Copy)]
struct InUse {
    memory: usize,
    table: usize,
    ghost memory_fits: { memory ≤ memory_limit },
    ghost table_fits: { table ≤ table_limit },
}

// What a script is played on, in fixed memory: there is no heap. The paper has the body or the out of a call.
#[derive(Drop)]
struct Player {
    memory: [u32; MEMORY_WORDS],
    table: [u32; TABLE_WORDS],
    paper: [u32; PAPER_WORDS],
    in_use: InUse,
}

// Of two fields lent at a time each is lent whole before its part is taken: two parts are not lent side by side.
impl Player {
    // Kind 1.
    fn set_up(&mut self, to: &impl Print, words: [u32; 5]) -> Result<(), ScriptError> {
        let [b, m, s, a, t] = words;
        let memory = &mut self.memory[..];
        let memory = &mut memory[..self.in_use.memory];
        let table = &self.table[..self.in_use.table];
        let answer = setup::set_up(b, m, s, a, t, table, memory);
        print_line(to, answers::answer_to(answer), memory, 0)
    }

    // Kind 2.
    fn send(&mut self, to: &impl Print, words: [u32; 5]) -> Result<(), ScriptError> {
        let [source, destination, n, f, _] = words;
        let n = within(n, BODY_WORDS)?;
        let memory = &mut self.memory[..];
        let paper = &mut self.paper[..];
        let memory = &mut memory[..self.in_use.memory];
        let body = &mut paper[..n];
        script::fill(body, f);
        let answer = send::send(memory, source, destination, body);
        print_line(to, answers::answer_to(answer), memory, 0)
    }

    // Kind 3.
    fn receive(&mut self, to: &impl Print, words: [u32; 5]) -> Result<(), ScriptError> {
        let [destination, source, n, f, _] = words;
        let n = within(n, BODY_WORDS)?;
        let memory = &mut self.memory[..];
        let paper = &mut self.paper[..];
        let memory = &mut memory[..self.in_use.memory];
        let out = &mut paper[..n];
        script::fill(out, f);
        let answer = receive::receive(memory, destination, source, out);
        print_line(to, answers::answer_to(answer), memory, script::sum(out))
    }

    // Kind 4.
    fn turn(&mut self, to: &impl Print) -> Result<(), ScriptError> {
        let memory = &mut self.memory[..self.in_use.memory];
        let answer = turn::turn(memory);
        print_line(to, answers::answer_to(answer), memory, 0)
    }

    // Kind 5.
    fn list(&mut self, to: &impl Print, words: [u32; 5]) -> Result<(), ScriptError> {
        let [n, f, ..] = words;
        let n = within_paper(n)?;
        let paper = &mut self.paper[..];
        let out = &mut paper[..n];
        script::fill(out, f);
        let memory = &self.memory[..self.in_use.memory];
        let answer = listing::list(memory, out);
        print_line(to, answers::answer_to(answer), memory, script::sum(out))
    }

    // Another memory: n words that rise from f.
    fn change_memory(&mut self, words: [u32; 5]) -> Result<(), ScriptError> {
        let [n, f, ..] = words;
        self.in_use.memory = within(n, MEMORY_WORDS)?;
        script::fill(&mut self.memory[..self.in_use.memory], f);
        Ok(())
    }

    // Another table: the next n words of the script.
    fn change_table<R: io::Read>(
        &mut self,
        from: &mut R,
        words: [u32; 5],
    ) -> Result<(), ScriptError> {
        let [n, ..] = words;
        self.in_use.table = within(n, TABLE_WORDS)?;
        script::read_all(from, &mut self.table[..self.in_use.table])
    }

    // Another word in the memory.
    fn change_word(&mut self, words: [u32; 5]) -> Result<(), ScriptError> {
        let [index, value, ..] = words;
        let memory = &mut self.memory[..self.in_use.memory];
        *memory.get_mut(index as usize).ok_or(ScriptError::Bad)? = value;
        Ok(())
    }

    // One kind with its arguments.
    fn play<R: io::Read>(
        &mut self,
        from: &mut R,
        to: &impl Print,
        kind: Kind,
        words: [u32; 5],
    ) -> Result<(), ScriptError> {
        match kind {
            Kind::SetUp => self.set_up(to, words),
            Kind::Send => self.send(to, words),
            Kind::Receive => self.receive(to, words),
            Kind::Turn => self.turn(to),
            Kind::List => self.list(to, words),
            Kind::Memory => self.change_memory(words),
            Kind::Table => self.change_table(from, words),
            Kind::Word => self.change_word(words),
        }
    }

    // Plays what stands next, and says whether anything did.
    fn step<R: io::Read>(&mut self, from: &mut R, to: &impl Print) -> Result<bool, ScriptError> {
        let Some(number) = script::read_word(from)? else {
            return Ok(false);
        };
        let kind = Kind::try_from(number)?;
        let words = script::read_arguments(from, kind.arguments())?;
        self.play(from, to, kind, words)?;
        Ok(true)
    }
}

// Plays a whole script, from an empty memory and an empty table.
fn play_script<R: io::Read>(from: &mut R, to: &impl Print) -> Result<(), ScriptError> {
    let mut player = Player {
        memory: [0; MEMORY_WORDS],
        table: [0; TABLE_WORDS],
        paper: [0; PAPER_WORDS],
        in_use: InUse {
            memory: 0,
            table: 0,
        },
    };
    // The script ends the run; the range is there because every loop is proved to end.
    for _ in 0..u64::MAX {
        if !player.step(from, to)? {
            break;
        }
    }
    Ok(())
}

// A bad script ends the run with a line that says so.
fn main(rt: HostRuntime) -> io::Result<()> {
    let mut from = rt.stdin();
    match play_script(&mut from, &rt) {
        Ok(()) => Ok(()),
        Err(ScriptError::Io(error)) => Err(error),
        Err(ScriptError::Bad) => script::print_bad(&rt),
    }
}
