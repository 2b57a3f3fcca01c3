//! Words from outside, which the clauses of `xs_cm32` have to mean.

use std::test::Fail;
use xs_cm32::{Cm32, colour};
use xs_pixel::Pixel;

#[test]
fn words_mix_ink_and_paint(rt: HostRuntime) -> Result<(), Fail> {
    let red = Pixel::new(255, 0, 0, 255).ok_or("red is no pixel")?;
    let blue = Pixel::new(0, 0, 255, 255).ok_or("blue is no pixel")?;
    let colours = [
        (0x0010_0264, [155, 0, 100, 255]),
        (0x0010_0200, [255, 0, 0, 255]),
        (0x0010_02ff, [0, 0, 255, 255]),
        (0x0010_0201, [254, 0, 1, 255]),
        (0x0010_0280, [127, 0, 128, 255]),
    ];
    for (word, bytes) in colours {
        assert_eq!(rt;
            colour(Cm32(word), red, blue).to_bytes(),
            bytes,
            "at {word:x}"
        );
    }
    let faint = Pixel::new(1, 0, 0, 1).ok_or("a faint red is no pixel")?;
    assert_eq!(rt;
        colour(Cm32(0x80), faint, Pixel::CLEAR).to_bytes(),
        [0, 0, 0, 0]
    );
    Ok(())
}

#[test]
fn words_have_three_parts(rt: HostRuntime) {
    let parts = [
        (0x0010_0264, (1, 2, 100)),
        (0xffff_ffff, (4095, 4095, 255)),
        (0xfff0_0000, (4095, 0, 0)),
        (0x000f_ff00, (0, 4095, 0)),
        (0x0000_00ff, (0, 0, 255)),
    ];
    for (word, expected) in parts {
        let w = Cm32(word);
        assert_eq!(rt; (w.ink(), w.paint(), w.tone()), expected, "at {word:x}");
    }
}
