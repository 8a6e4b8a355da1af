// Words looked up in a list of words with one space between.
ghost use Rattle.std.specs.Prelude.{◌≡◌, ◌+◌, ◌≤◌, ◌<◌, length, drop, MatchOption, MatchResult};
ghost use Rattle.text.specs.Names.{head_length, words_of, Placed};

// Where the word that starts at `at` ends.
fn end_of(names: &[u8], at: usize) -> usize
    requires { at ≤ length names.now }
    ensures { (result ≡ at + head_length (drop at names.now)) × (result ≤ length names.now) }
{
    for i in at..names.len() {
        if names[i] == b' ' {
            return i;
        }
    }
    names.len()
}

// The place of a word in a list, from 0; the number of the list's words where it is none of them.
fn search(names: &[u8], word: &[u8]) -> Result<usize, usize>
    ensures { MatchResult result (λ place. (place < length (words_of names.now)) × Placed (words_of names.now) word.now place) (λ words. (words ≡ length (words_of names.now)) × Placed (words_of names.now) word.now words) }
{
    let mut k = 0;
    let mut at = 0;
    while at < names.len() {
        let end = end_of(names, at);
        if &names[at..end] == word {
            return Ok(k);
        }
        at = end + 1;
        k += 1;
    }
    Err(k)
}

// The place of a word in a list, from 0.
pub fn find(names: &[u8], word: &[u8]) -> Option<usize>
    ensures { MatchOption result (Placed (words_of names.now) word.now (length (words_of names.now))) (λ place. (place < length (words_of names.now)) × Placed (words_of names.now) word.now place) }
{
    search(names, word).ok()
}

// The same, or the number of the list's words where it is none of them.
pub fn place_of(names: &[u8], word: &[u8]) -> usize
    ensures { Placed (words_of names.now) word.now result }
{
    match search(names, word) {
        Ok(place) => place,
        Err(words) => words,
    }
}
