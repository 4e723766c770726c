// What a caller's row holds, of words or of bytes, after a put and after a store through a pile.
use memory::bank::put_in;
use write_back::piles::store_in;

#[test]
fn puts(rt: HostRuntime) {
    let mut words = [1u32, 2, 3];
    assert_eq!(rt; put_in(&mut words, 1, 0x0403_0201), Ok(()));
    assert_eq!(rt; words, [1, 0x0403_0201, 3]);
    let mut bytes = [9u8; 11];
    assert_eq!(rt; put_in(&mut bytes, 1, 0x0403_0201), Ok(()));
    assert_eq!(rt; bytes, [9, 9, 9, 9, 1, 2, 3, 4, 9, 9, 9]);
    assert_eq!(rt; put_in(&mut bytes, 2, 0), Err(memory::Refusal::OutOfRange));
    assert_eq!(rt; bytes, [9, 9, 9, 9, 1, 2, 3, 4, 9, 9, 9]);
}

// Bytes 0 and 2 of the first word are named.
#[test]
fn stores(rt: HostRuntime) {
    let mut words = [0xaabb_ccddu32, 5];
    assert_eq!(rt; store_in(&mut words, 0, 0x1122_3344, 0b0101), Ok(()));
    assert_eq!(rt; words, [0xaa22_cc44, 5]);
    let mut bytes = [0xddu8, 0xcc, 0xbb, 0xaa, 7];
    assert_eq!(rt; store_in(&mut bytes, 0, 0x1122_3344, 0b0101), Ok(()));
    assert_eq!(rt; bytes, [0x44, 0xcc, 0x22, 0xaa, 7]);
    assert_eq!(rt;
        store_in(&mut bytes, 0, 0x1122_3344, 16),
        Err(section::Refusal::Lanes)
    );
    assert_eq!(rt; bytes, [0x44, 0xcc, 0x22, 0xaa, 7]);
}
