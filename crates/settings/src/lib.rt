// The five settings: each a number with its least and greatest value, and a constructor that refuses.
#![tactic(auto)]

ghost use Rattle.std.specs.Prelude.{◌≡◌, cond};
ghost use Rattle.settings.specs.Limits.{within, block_words, node_blocks, queue_length};
ghost use Rattle.settings.specs.Made.{made_settings};

// Whether x lies between the two, both included.
#[tactic(auto, unfolding(crate::specs::Limits::within))]
fn is_within(least: u32, greatest: u32, x: u32) -> bool
    ensures { result ≡ within (record { least = least; greatest = greatest }) x }
{
    least <= x && x <= greatest
}

// A setting, by the letter that the document gives it: a type each. MIN, MAX and `new` stand at each letter, since no clause can name, and no proof
// hold, a constant that goes by a parameter.
#[derive(Clone, Copy, Debug, PartialEq, Eq)]
pub struct Setting<const LETTER: u8> {
    pub value: usize,
}

// B, words in a block, link included.
pub type BlockWords = Setting<b'B'>;

// M, blocks in a node.
pub type NodeBlocks = Setting<b'M'>;

// S, length of a send queue.
pub type SendLength = Setting<b'S'>;

// A, length of an acknowledge queue.
pub type AcknowledgeLength = Setting<b'A'>;

// T, length of a task queue.
pub type TaskLength = Setting<b'T'>;

impl<const LETTER: u8> Setting<LETTER> {
    // The setting of a number, none where the number is not between the two, both included.
    #[tactic(auto, unfolding(crate::specs::Limits::within))]
    fn between(least: u32, greatest: u32, x: u32) -> Option<Self>
        ensures { result ≡ cond (within (record { least = least; greatest = greatest }) x) (Some (record { value = x })) None }
    {
        if is_within(least, greatest, x) {
            Some(Setting { value: x as usize })
        } else {
            None
        }
    }
}

impl Setting<b'B'> {
    pub const MIN: u32 = 4;

    pub const MAX: u32 = 64;

    pub fn new(x: u32) -> Option<Self>
        ensures { result ≡ cond (within block_words x) (Some (record { value = x })) None }
    {
        Self::between(Self::MIN, Self::MAX, x)
    }
}

impl Setting<b'M'> {
    pub const MIN: u32 = 1;

    pub const MAX: u32 = 1024;

    pub fn new(x: u32) -> Option<Self>
        ensures { result ≡ cond (within node_blocks x) (Some (record { value = x })) None }
    {
        Self::between(Self::MIN, Self::MAX, x)
    }
}

impl Setting<b'S'> {
    pub const MIN: u32 = 2;

    pub const MAX: u32 = 255;

    pub fn new(x: u32) -> Option<Self>
        ensures { result ≡ cond (within queue_length x) (Some (record { value = x })) None }
    {
        Self::between(Self::MIN, Self::MAX, x)
    }
}

impl Setting<b'A'> {
    pub const MIN: u32 = 2;

    pub const MAX: u32 = 255;

    pub fn new(x: u32) -> Option<Self>
        ensures { result ≡ cond (within queue_length x) (Some (record { value = x })) None }
    {
        Self::between(Self::MIN, Self::MAX, x)
    }
}

impl Setting<b'T'> {
    pub const MIN: u32 = 2;

    pub const MAX: u32 = 255;

    pub fn new(x: u32) -> Option<Self>
        ensures { result ≡ cond (within queue_length x) (Some (record { value = x })) None }
    {
        Self::between(Self::MIN, Self::MAX, x)
    }
}

// The five together, by the letters that the document gives them. That they are in range stays a clause: `sound::settings_in` makes one of any memory's words.
#[derive(Clone, Copy, Debug, PartialEq, Eq)]
pub struct Settings {
    pub b: usize,
    pub m: usize,
    pub s: usize,
    pub a: usize,
    pub t: usize,
}

impl Settings {
    // The five of five numbers, none where one is out of range.
    pub fn new(b: u32, m: u32, s: u32, a: u32, t: u32) -> Option<Settings>
        ensures { result ≡ made_settings b m s a t }
    {
        Some(Settings {
            b: BlockWords::new(b)?.value,
            m: NodeBlocks::new(m)?.value,
            s: SendLength::new(s)?.value,
            a: AcknowledgeLength::new(a)?.value,
            t: TaskLength::new(t)?.value,
        })
    }
}
