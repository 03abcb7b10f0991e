// The postman's turn: the fifth call.
#![tactic(auto)]

ghost use Rattle.std.specs.Prelude.{◌≡◌, true, Ok, Err};
ghost use Rattle.sound.specs.Sound.{sound};
ghost use Rattle.postman.specs.Round.{post, at_start};
ghost use Rattle.postman.specs.Asked.{SoundAt};
ghost use Rattle.stages_keep.specs.Steps.{resumed, gone};
ghost use Rattle.turn.specs.Outcome.{told, answered, turn};

use answers::Answer;
use postman::{Position, Round, Stage};
use settings::Settings;

// What a turn that is done answers: node, letters appended to task queues, blocks given back, and how its last stage ended.
#[derive(Clone, Copy, Debug, PartialEq, Eq)]
pub struct Turned {
    pub node: u32,
    pub letters: u32,
    pub back: u32,
    pub how: Stage,
}

// Why a turn was refused.
#[derive(Clone, Copy, Debug, PartialEq, Eq)]
pub enum TurnRefusal {
    NotSound,
}

// Node, letters and blocks; the number is that of the stage which stopped the turn.
impl From<Turned> for Answer {
    ghost from_gives = { λ turned a. a ≡ told (Ok turned) };

    fn from(turned: Turned) -> Answer {
        let number = match turned.how {
            Stage::Done => 0,
            Stage::Stopped(number) => number,
        };
        Answer {
            number,
            first: turned.node,
            second: turned.letters,
            third: turned.back,
        }
    }
}

// The number of each refusal.
impl From<TurnRefusal> for Answer {
    ghost from_gives = { λ refusal a. a ≡ told (Err refusal) };

    fn from(refusal: TurnRefusal) -> Answer {
        answers::bare(match refusal {
            TurnRefusal::NotSound => 1,
        })
    }
}

// Where the postman stands, he goes on: stages 0 and 1 do step 1, stages 2 and 3 go straight to their append.
fn resume(memory: &mut [u32], s: Settings, j: usize, p: Position, r: Round) -> Round
    requires sound_at { SoundAt s memory.old j p }
    requires r_value { r ≡ at_start }
    ensures { post memory.new result ≡ resumed s j memory.old p r }
{
    let i = p.other as usize;
    // The stage is a word of the memory: a table of closures would say no more than this match.
    match p.stage {
        0 | 1 => carrying::collect_from(memory, s, j, 0, r),
        2 => carrying::deliver(memory, s, j, i, p.held, r),
        _ => carrying::hand_on(memory, s, j, i, r),
    }
}

// Node j's turn up to its end or its stop: all go on through that queue and higher nodes.
fn go(memory: &mut [u32], s: Settings, j: usize, p: Position) -> Round
    requires { SoundAt s memory.old j p }
    ensures { post memory.new result ≡ gone s j memory.old p at_start }
{
    let r = Round::start(p);
    let a = resume(memory, s, j, p, r);
    let how = a.how;
    let Stage::Done = how else {
        return a;
    };
    let i = p.other as usize;
    carrying::carry_from(memory, s, j, i, a)
}

// What a turn of node j answers.
fn answer_of(j: u32, r: Round) -> Turned
    ensures { result ≡ answered j r }
{
    Turned {
        node: j,
        letters: r.letters,
        back: r.back,
        how: r.how,
    }
}

// A turn, in a sound memory.
fn turn_sound(memory: &mut [u32]) -> Result<Turned, TurnRefusal>
    requires { sound memory.old ≡ true }
    ensures { record { answer = result; memory = memory.new } ≡ turn memory.old }
{
    let s = sound::settings_in(memory);
    let node = memory[5];
    let j = node as usize;
    let p = postman::position_of(memory, j);
    let r = go(memory, s, j, p);
    let position = r.position;
    postman::keep(memory, j, position);
    Ok(answer_of(node, r))
}

// A turn, for any memory.
pub fn turn(memory: &mut [u32]) -> Result<Turned, TurnRefusal>
    ensures { record { answer = result; memory = memory.new } ≡ turn memory.old }
{
    if !soundness::is_sound(memory) {
        return Err(TurnRefusal::NotSound);
    }
    turn_sound(memory)
}
