// One word of a slice set. What the words say is not known here.

// An index that is not there is ignored.
pub fn set_word(words: &mut [u32], index: u32, value: u32) {
    if let Some(word) = words.get_mut(index as usize) {
        *word = value;
    }
}
