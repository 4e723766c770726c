// A section memory that is lent.
use crate::Refusal;
use crate::section::Section;

/// It is the section memory behind the reference.
// Calls are handed on one by one: Rust delegates none, and a macro may write no impl.
impl<'a, S: Section> Section for &'a mut S {
    const H: usize = S::H;

    ghost most = { S.Section.most };

    ghost view = { λ s. S.Section.view s.now };

    ghost facts = { λ s. S.Section.facts s.now };

    fn limit() -> usize {
        S::limit()
    }

    fn read(&mut self, index: usize) -> Result<u32, Refusal> {
        (**self).read(index)
    }

    fn write(&mut self, index: usize, word: u32, lanes: u32) -> Result<(), Refusal> {
        (**self).write(index, word, lanes)
    }

    fn held(&self, k: usize) -> Result<(u32, u32), Refusal> {
        (**self).held(k)
    }

    fn pair_count(&self) -> usize {
        (**self).pair_count()
    }

    fn forget(&mut self) {
        (**self).forget()
    }
}
