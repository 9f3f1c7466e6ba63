//! Conversions and hashes of colours, hashes of enums.
use cell_base::{
    AnsiColor, ColorAttribute, ColorSpec, CursorShape, CursorVisibility, RgbColor, SrgbaTuple,
    Underline,
};
use std::hash::{DefaultHasher, Hash, Hasher};

fn hash_of<T: Hash>(x: &T) -> u64 {
    let mut state = DefaultHasher::new();
    x.hash(&mut state);
    state.finish()
}

#[test]
fn numbers_of_colors(rt: HostRuntime) {
    for (color, want) in [
        (AnsiColor::Black, 0u8),
        (AnsiColor::Maroon, 1),
        (AnsiColor::Silver, 7),
        (AnsiColor::Grey, 8),
        (AnsiColor::Yellow, 11),
        (AnsiColor::White, 15),
    ] {
        assert_eq!(rt; u8::from(color), want);
        assert_eq!(rt; ColorSpec::from(color), ColorSpec::PaletteIndex(want));
        assert_eq!(rt;
            ColorAttribute::from(color),
            ColorAttribute::PaletteIndex(want)
        );
    }
}

#[test]
fn forms_of_a_color(rt: HostRuntime) {
    let color = RgbColor::new_8bpc(1, 2, 3);
    let tuple = SrgbaTuple(1, 2, 3, 255);
    assert_eq!(rt; color.to_tuple_rgb8(), (1, 2, 3));
    assert_eq!(rt; color.to_tuple_rgba(), tuple);
    assert_eq!(rt; SrgbaTuple::from(color), tuple);
    assert_eq!(rt; RgbColor::from(SrgbaTuple(1, 2, 3, 4)), color);
    assert_eq!(rt; ColorSpec::from(color), ColorSpec::TrueColor(tuple));
    assert_eq!(rt; ColorSpec::from(tuple), ColorSpec::TrueColor(tuple));
}

#[test]
fn specs_as_attributes(rt: HostRuntime) {
    let tuple = SrgbaTuple(1, 2, 3, 4);
    for (spec, want) in [
        (
            ColorSpec::TrueColor(tuple),
            ColorAttribute::TrueColorWithDefaultFallback(tuple),
        ),
        (ColorSpec::PaletteIndex(9), ColorAttribute::PaletteIndex(9)),
        (ColorSpec::default(), ColorAttribute::default()),
        (ColorSpec::Default, ColorAttribute::Default),
    ] {
        assert_eq!(rt; ColorAttribute::from(spec), want);
    }
    assert_eq!(rt; RgbColor::default(), RgbColor::new_8bpc(0, 0, 0));
    assert_eq!(rt; SrgbaTuple::default(), SrgbaTuple(0, 0, 0, 0));
}

#[test]
fn equal_colors_hash_alike(rt: HostRuntime) {
    assert_eq!(rt;
        hash_of(&RgbColor::new_8bpc(1, 2, 3)),
        hash_of(&RgbColor::new_8bpc(1, 2, 3))
    );
    assert_eq!(rt;
        hash_of(&SrgbaTuple::default()),
        hash_of(&SrgbaTuple(0, 0, 0, 0))
    );
    assert_eq!(rt;
        hash_of(&ColorAttribute::Default),
        hash_of(&ColorAttribute::default())
    );
}

#[test]
fn equal_enums_hash_alike(rt: HostRuntime) {
    let underline = hash_of(&Underline::default());
    assert_eq!(rt; underline, hash_of(&Underline::None));
    assert_ne!(rt; underline, hash_of(&Underline::Curly));
    let shape = hash_of(&CursorShape::default());
    assert_eq!(rt; shape, hash_of(&CursorShape::Default));
    assert_ne!(rt; shape, hash_of(&CursorShape::SteadyBar));
    let visibility = hash_of(&CursorVisibility::default());
    assert_eq!(rt; visibility, hash_of(&CursorVisibility::Visible));
    assert_ne!(rt; visibility, hash_of(&CursorVisibility::Hidden));
}
