//! What no clause says: known vectors, and that calls succeed where there is memory.

use q_base::{Name, SharedText, positions_of};
use std::test::Fail;

// The size that the README gives.
const _: () = prove!(size_of::<Name>() == 24);

#[test]
fn positions_are_those_of_the_vectors(rt: HostRuntime) -> Result<(), Fail> {
    let cases: [(&[u8], u8, u8, &[u32]); 14] = [
        (b"abc", 10, 8, &[1002, 525, 48, 595, 118, 665, 188, 735]),
        (b"r/shop/p4923", 10, 5, &[702, 258, 838, 394, 974]),
        (b"r/shop/p8198", 11, 3, &[1905, 1717, 1529]),
        (
            b"r/shop/p9231",
            12,
            9,
            &[1149, 1689, 2229, 2769, 3309, 3849, 293, 833, 1373],
        ),
        (
            b"r/shop/p426",
            13,
            15,
            &[
                6445, 5450, 4455, 3460, 2465, 1470, 475, 7672, 6677, 5682, 4687, 3692, 2697, 1702,
                707,
            ],
        ),
        (
            b"r/shop/p2996",
            14,
            8,
            &[12416, 10598, 8780, 6962, 5144, 3326, 1508, 16074],
        ),
        (b"r/shop/p4465", 15, 2, &[28837, 25447]),
        (b"r/shop/p8621", 16, 5, &[56186, 49433, 42680, 35927, 29174]),
        (b"r/shop/p9294", 17, 2, &[51608, 26300]),
        (b"r/shop/p2262", 18, 4, &[201379, 247781, 32039, 78441]),
        (b"r/shop/p5959", 19, 3, &[116833, 217265, 317697]),
        (b"r/shop/p5253", 20, 1, &[163336]),
        (
            b"r/shop/p4551",
            21,
            12,
            &[
                1582394, 259393, 1033544, 1807695, 484694, 1258845, 2032996, 709995, 1484146,
                161145, 935296, 1709447,
            ],
        ),
        (
            b"r/shop/p9709",
            22,
            10,
            &[
                3768329, 1468370, 3362715, 1062756, 2957101, 657142, 2551487, 251528, 2145873,
                4040218,
            ],
        ),
    ];
    for (text, log2_bits, hashes, want) in cases {
        assert!(rt; log2_bits <= 22 && hashes <= 16);
        let positions = positions_of(text, log2_bits, hashes);
        assert_eq!(rt; positions.as_slice(), want);
    }
    Ok(())
}

#[test]
fn names_are_read_and_cloned_from_the_shortest_to_the_longest(rt: HostRuntime) -> Result<(), Fail> {
    let longest = [b'z'; 64];
    let cases: [&[u8]; 5] = [b"0", b"shop-1_a", &longest[..22], &longest[..23], &longest];
    for text in cases {
        let name = Name::read(rt.alloc(), text)?;
        assert_eq!(rt; name.as_slice(), text);
        assert_eq!(rt; name.clone()?.as_slice(), text);
    }
    Ok(())
}

#[test]
fn a_shared_text_and_its_clone_have_the_bytes(rt: HostRuntime) -> Result<(), Fail> {
    let text = SharedText::of(rt.alloc(), b"abc".to_vec(rt.alloc())?)?;
    let clone = text.clone()?;
    assert_eq!(rt; text.as_slice(), b"abc".as_slice());
    assert_eq!(rt; clone.as_slice(), b"abc".as_slice());
    Ok(())
}
