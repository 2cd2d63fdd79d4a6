// Strings that the Inform 6 compiler writes.
use crate::checks::same;
use std::test::Fail;
use z_text::{decode, encode};

const BYTES: &[u8] = &[
    0x11, 0xD9, 0x01, 0x14, 0x63, 0x38, 0x00, 0xAD, 0x14, 0xC1, 0x10, 0xB3, 0x02, 0x25, 0x60, 0xA6,
    0x15, 0x59, 0x28, 0xB2, 0x94, 0xE5,
];

// "It costs 5$, l'", and é, t, e, a full stop and a newline.
const CODES: &[u16] = &[
    73, 116, 32, 99, 111, 115, 116, 115, 32, 53, 36, 44, 32, 108, 39, 170, 116, 101, 46, 13,
];

#[test]
fn decodes_what_inform_writes(rt: HostRuntime) -> Result<(), Fail> {
    let (codes, end) = decode(rt.alloc(), BYTES, 0)?;
    same(&rt, &(codes.as_slice(), end), &(CODES, 22), "codes");
    Ok(())
}

#[test]
fn encodes_as_inform_does(rt: HostRuntime) -> Result<(), Fail> {
    let string = encode(rt.alloc(), b"Hello")?;
    let wanted: &[u8] = &[0x11, 0xAA, 0xC6, 0x34];
    same(&rt, &string.as_slice(), &wanted, "Hello");
    Ok(())
}

const WRONG: &[&[u8]] = &[&[0x84, 0x05], &[0x11, 0xAA], &[0x11]];

#[test]
fn refuses_abbreviations_and_missing_ends(rt: HostRuntime) -> Result<(), Fail> {
    for bytes in WRONG {
        let refused = decode(rt.alloc(), bytes, 0).is_err();
        same(&rt, &refused, &true, "refused");
    }
    Ok(())
}
