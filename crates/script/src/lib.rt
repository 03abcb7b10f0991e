// A script of words from a reader, and the lines that answer it. An error is that of the read or the write that failed; what was read before it is gone.
#![tactic(auto)]

ghost use Rattle.std.specs.Prelude.{◌≡◌, ◌≤◌, length, IfOk, OnErr};
ghost use Rattle.script.specs.Words.{rising, sum_of};

use answers::Answer;
use std::io;

// Why a script is not read or played on: a read or a write failed, or the script is not of its format.
#[derive(Debug, Drop)]
pub enum ScriptError {
    Io(io::Error),
    Bad,
}

impl From<io::Error> for ScriptError {
    fn from(error: io::Error) -> ScriptError {
        ScriptError::Io(error)
    }
}

// Fills the bytes as far as the reader goes, and tells how far that is.
pub fn read_full<R: io::Read>(from: &mut R, bytes: &mut [u8]) -> io::Result<usize>
    ensures ok { IfOk result (λ n. n ≤ length bytes.new) }
    ensures err { OnErr result (length bytes.new ≡ length bytes.old) }
{
    // Each read fills as many bytes as it likes, so no range counts them.
    let mut at = 0;
    while at < bytes.len() {
        match from.read(&mut bytes[at..])? {
            0 => break,
            n => at += n,
        }
    }
    Ok(at)
}

// The next word, low byte first, or none at the end. (What is read no contract can say.)
pub fn read_word<R: io::Read>(from: &mut R) -> Result<Option<u32>, ScriptError> {
    let mut bytes = [0; 4];
    match read_full(from, &mut bytes)? {
        0 => Ok(None),
        4 => Ok(Some(u32::from_le_bytes(bytes))),
        _ => Err(ScriptError::Bad),
    }
}

// Reads words until the slice is full.
pub fn read_all<R: io::Read>(from: &mut R, words: &mut [u32]) -> Result<(), ScriptError>
    ensures { OnErr result (length words.new ≡ length words.old) }
{
    for word in words.iter_mut() {
        *word = read_word(from)?.ok_or(ScriptError::Bad)?;
    }
    Ok(())
}

// The next n words, with zeroes behind them.
pub fn read_arguments<R: io::Read>(from: &mut R, n: usize) -> Result<[u32; 5], ScriptError>
    requires { n ≤ 5 }
{
    let mut words = [0; 5];
    read_all(from, &mut words[..n])?;
    Ok(words)
}

// Each word i becomes f + i.
pub fn fill(words: &mut [u32], f: u32)
    ensures { words.new ≡ rising f (length words.old) }
{
    let mut next = f;
    for word in words.iter_mut() {
        *word = next;
        next = next.wrapping_add(1);
    }
}

// The sum of all the words.
pub fn sum(words: &[u32]) -> u64
    ensures { result ≡ sum_of words.now }
{
    let mut h: u64 = 7;
    for &word in words {
        h = (h * 31 + u64::from(word)) % 4294967291;
    }
    h
}

// The number and the three values of an answer, a blank behind each.
pub fn print_answer(to: &impl Print, a: Answer) -> io::Result<()> {
    print!(to; "{} {} {} {} ", a.number, a.first, a.second, a.third)
}

// What a bad script is answered with.
pub fn print_bad(to: &impl Print) -> io::Result<()> {
    println!(to; "bad")
}
