// Words and the instructions that they are.
use crate::rows::Decoded;
use crate::words::{DECODINGS, REFUSED};
use rv32i::decode::decode;
use rv32i::instruction::Refusal;

#[test]
fn instructions(rt: HostRuntime) {
    for Decoded(text, word, instruction) in &DECODINGS {
        assert_eq!(rt; decode(*word), Ok(*instruction), "{}", text);
    }
}

#[test]
fn no_instructions(rt: HostRuntime) {
    assert_eq!(rt; Refusal::NoInstruction.number(), 27);
    for word in &REFUSED {
        assert_eq!(rt; decode(*word), Err(Refusal::NoInstruction), "{word:#010x}");
    }
}
