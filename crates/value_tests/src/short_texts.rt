//! What no clause says: the size of a text, and that calls succeed where there is memory.

use short_text::ShortText;
use std::test::Fail;

// The size that the README gives.
const _: () = prove!(size_of::<ShortText>() == 24);

#[test]
fn texts_are_kept_on_both_sides_of_the_inline_length(rt: HostRuntime) -> Result<(), Fail> {
    let longest = [b'z'; 64];
    let cases: [&[u8]; 5] = [b"", b"0", &longest[..22], &longest[..23], &longest];
    for bytes in cases {
        let text = ShortText::from_slice(rt.alloc(), bytes)?;
        assert_eq!(rt; text.as_slice(), bytes);
        assert_eq!(rt; text.clone()?.as_slice(), bytes);
        let kept = ShortText::from_vec(rt.alloc(), bytes.to_vec(rt.alloc())?)?;
        assert_eq!(rt; kept.as_slice(), bytes);
    }
    Ok(())
}
