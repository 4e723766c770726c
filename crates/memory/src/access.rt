// Looks and puts that refuse nothing: a word past the end is 0, and a put there changes nothing.
ghost use Rattle.std.specs.Prelude.{◌≡◌, slice_set};
ghost use Rattle.memory.specs.Contents.{word as word_of};

use crate::Memory;

/// The word at an index, 0 past the end.
pub fn word_at<M: Memory>(memory: &M, index: usize) -> u32
    ensures { result ≡ word_of (M.Memory.words memory.now) index }
{
    memory.look(index).unwrap_or(0)
}

/// Makes the word at an index equal `word`; past the end it changes no word.
pub fn put_at<M: Memory>(memory: &mut M, index: usize, word: u32)
    ensures put { M.Memory.words memory.new ≡ slice_set (M.Memory.words memory.old) index word }
    ensures home { M.Memory.fixed memory.new ≡ M.Memory.fixed memory.old }
{
    let _ = memory.put(index, word);
}
