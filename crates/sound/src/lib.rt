// The settings that a memory tells; the definitions of a sound memory stand in specs/.
#![tactic(auto)]

ghost use Rattle.std.specs.Prelude.{◌≡◌, ◌≤◌, length};
ghost use Rattle.layout.specs.Places.{setting_words};
ghost use Rattle.sound.specs.Reading.{settings_in};

use settings::Settings;

// The settings that words 0-4 tell.
pub fn settings_in(memory: &[u32]) -> Settings
    requires { setting_words ≤ length memory.now }
    ensures { result ≡ settings_in memory.now }
{
    Settings {
        b: memory[0] as usize,
        m: memory[1] as usize,
        s: memory[2] as usize,
        a: memory[3] as usize,
        t: memory[4] as usize,
    }
}
