// Loads and stores of single words; beyond the words there is 0, and nothing is stored.
#![tactic(auto)]

ghost use Rattle.std.specs.Prelude.{◌≡◌, slice_index, slice_set};

pub fn load(words: &[u32], address: u32) -> u32
    ensures { result ≡ slice_index words.now address }
{
    words.get(address as usize).copied().unwrap_or(0)
}

// By a test: after a write through `get_mut` nothing is known of the words.
pub fn store(words: &mut [u32], address: u32, word: u32)
    ensures { words.new ≡ slice_set words.old address word }
{
    let a = address as usize;
    if a < words.len() {
        words[a] = word;
    }
}
