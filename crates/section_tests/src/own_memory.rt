// A memory of a user's own, over an array that it holds: section memories ask nothing of it but what its calls promise.
ghost use Rattle.std.specs.Prelude.{[]};

use index_sets::table::Table;
use memory::{Memory, Refusal};
use section::Refusal as SectionRefusal;
use section::detector::Detector;
use section::section::Section;

/// A page of words.
#[derive(Drop)]
struct Page {
    cells: [u32; 64],
}

impl Memory for Page {
    ghost words = { λ s. s.cells };

    ghost fixed = { λ _. [] };

    fn size(&self) -> usize {
        self.cells.len()
    }

    fn look(&self, index: usize) -> Result<u32, Refusal> {
        if index >= self.cells.len() {
            return Err(Refusal::OutOfRange);
        }
        Ok(self.cells[index])
    }

    fn put(&mut self, index: usize, word: u32) -> Result<(), Refusal> {
        if index >= self.cells.len() {
            return Err(Refusal::OutOfRange);
        }
        self.cells[index] = word;
        Ok(())
    }
}

#[test]
fn detector_over_a_page(rt: HostRuntime) {
    let mut detector = Detector::new(Page { cells: [5; 64] }, Table::new(), Table::new());
    assert_eq!(rt; detector.read(63), Ok(5));
    assert_eq!(rt; detector.read(64), Err(SectionRefusal::OutOfRange));
    assert_eq!(rt; detector.write(0, 7, 15), Ok(()));
    assert_eq!(rt; detector.write(63, 7, 15), Err(SectionRefusal::Due));
    assert_eq!(rt; detector.look(0), Ok(7));
    assert_eq!(rt; detector.look(63), Ok(5));
}
