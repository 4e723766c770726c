// Words in a row of bytes.
ghost use Rattle.memory.specs.Bytes.{WordIs};

/// The word at an index, least significant byte first, if the row does not end before it does.
pub fn word_at(bytes: &[u8], index: usize) -> Option<u32>
    ensures { WordIs bytes.now index result }
{
    let (words, _) = bytes.as_chunks::<4>();
    words.get(index).copied().map(u32::from_le_bytes)
}
