// The postman: his position, how a stage ends, and the turn so far.
#![tactic(auto)]

ghost use Rattle.std.specs.Prelude.{◌≡◌, ◌+◌, ◌≤◌, ◌<◌, length};
ghost use Rattle.layout.specs.Places.{nodes, nodes_at};
ghost use Rattle.postman.specs.Position.{stopped_at, rested_at, position_of, kept};
ghost use Rattle.postman.specs.Round.{at_start, stopped, one_letter, blocks_back};

// How a stage ends: done, or stopped with the refusal's number; so the document has it (docs/DECISIONS.md, Forms), and no Result.
#[derive(Clone, Copy, Debug, PartialEq, Eq)]
pub enum Stage {
    Done,
    Stopped(u32),
}

// Where a postman stands: stage, other node, held block, as the memory has them: any memory has words here, so the stage is a number.
#[derive(Clone, Copy, Debug, PartialEq, Eq)]
pub struct Position {
    pub stage: u32,
    pub other: u32,
    pub held: u32,
}

impl Position {
    // The stage becomes 1, 2 or 3: the position amended where it stands.
    pub fn stop_at(&mut self, stage: u32, other: u32, held: u32)
        ensures { self.new ≡ stopped_at self.old stage other held }
    {
        *self = stopped_at(*self, stage, other, held);
    }

    // A turn that finishes sets stage 0: the position amended where it stands.
    pub fn rest(&mut self)
        ensures { self.new ≡ rested_at self.old }
    {
        *self = at_rest(*self);
    }
}

// The position at a stage, by value: the core. That it stands beside its twin by &mut is the document's form (docs/DECISIONS.md, Forms).
fn stopped_at(p: Position, stage: u32, other: u32, held: u32) -> Position
    ensures { result ≡ stopped_at p stage other held }
{
    Position { stage, other, held }
}

// The position at rest, by value: the core.
fn at_rest(p: Position) -> Position
    ensures { result ≡ rested_at p }
{
    Position {
        stage: 0,
        other: 0,
        held: 0,
    }
}

// A turn so far: the position to keep, letters appended, blocks given back, how the last stage ended.
#[derive(Clone, Copy, Debug, PartialEq, Eq)]
pub struct Round {
    pub position: Position,
    pub letters: u32,
    pub back: u32,
    pub how: Stage,
}

impl Round {
    // A turn as it begins, from position p: where no stage stops it, it leaves the postman at rest.
    pub fn start(p: Position) -> Round
        ensures { result ≡ at_start }
    {
        let mut position = p;
        position.rest();
        Round {
            position,
            letters: 0,
            back: 0,
            how: Stage::Done,
        }
    }

    // The turn stopped in a stage, at node i, holding block x.
    pub fn stop(self, stage: u32, i: usize, x: u32, how: Stage) -> Round
        requires { i < nodes }
        ensures { result ≡ stopped self stage i x how }
    {
        let mut position = self.position;
        position.stop_at(stage, i as u32, x);
        Round {
            position,
            how,
            ..self
        }
    }

    // One letter more was appended to a task queue.
    pub fn one_letter(self) -> Round
        requires { self.letters < 4294967295 }
        ensures { result ≡ one_letter self }
    {
        Round {
            letters: self.letters + 1,
            ..self
        }
    }

    // So many blocks more were given back.
    pub fn blocks_back(self, n: usize) -> Round
        requires { self.back + n ≤ 4294967295 }
        ensures { result ≡ blocks_back self n }
    {
        Round {
            back: self.back + n as u32,
            ..self
        }
    }
}

// The position of node j's postman.
pub fn position_of(memory: &[u32], j: usize) -> Position
    requires nodes_at_in_bounds { nodes_at ≤ length memory.now }
    requires j_lt_nodes { j < nodes }
    ensures { result ≡ position_of memory.now j }
{
    let at = 6 + j * 3;
    Position {
        stage: memory[at],
        other: memory[at + 1],
        held: memory[at + 2],
    }
}

// Keeps node j's position, and passes the turn on.
pub fn keep(memory: &mut [u32], j: usize, p: Position)
    requires nodes_at_in_bounds { nodes_at ≤ length memory.old }
    requires j_lt_nodes { j < nodes }
    ensures { memory.new ≡ kept memory.old j p }
{
    let at = 6 + j * 3;
    memory[at] = p.stage;
    memory[at + 1] = p.other;
    memory[at + 2] = p.held;
    if j < 5 {
        memory[5] = (j as u32) + 1;
    } else {
        memory[5] = 0;
    }
}
