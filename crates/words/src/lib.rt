// Words: counts that stop at the greatest word, and a stretch of words copied.
#![tactic(auto)]

ghost use Rattle.std.specs.Prelude.{◌≡◌, length};
ghost use Rattle.words.specs.Words.{more};

// A count one higher; at the greatest word it stays.
pub fn one_more(x: u32) -> u32
    ensures { result ≡ more x }
{
    x.saturating_add(1)
}

// The words of one stretch, copied over another of the same length: a loop, since std's `copy_from_slice` asks C's host for `memmove` (README).
pub fn copy(to: &mut [u32], from: &[u32])
    requires { length to.old ≡ length from.now }
    ensures { to.new ≡ from.now }
{
    for i in 0..to.len() {
        to[i] = from[i];
    }
}
