//! Tables of words.

ghost use Rattle.std.specs.Prelude.{◌≡◌, map};
ghost use Rattle.std.specs.Option.{option_copied};
ghost use Rattle.strm_script.specs.Named.{after, is_whole, named, row_of};

/// What follows a word at the front of a text.
pub fn after<'a>(text: &'a [u8], word: &[u8]) -> Option<&'a [u8]>
    ensures { option_copied result ≡ after word.now text.now }
{
    text.strip_prefix(word)
}

/// Whether a text is this word and no more.
fn is_whole(word: &[u8], text: &[u8]) -> bool
    ensures { result ≡ is_whole word.now text.now }
{
    match after(text, word) {
        Some(rest) => rest.is_empty(),
        None => false,
    }
}

/// What a word names: the value of the first row that has it.
pub fn named<T: Copy>(rows: &[(&[u8], T)], word: &[u8]) -> Option<T>
    ensures { result ≡ named (map row_of rows.now) word.now }
{
    for row in rows {
        let (name, value) = *row;
        if is_whole(name, word) {
            return Some(value);
        }
    }
    None
}
