// Formats of FFmpeg's table: what the check answers, and what rows of bytes read as.
use crate::{Comp, Desc, DescFault, Layout, check, read_comp, write_comp};

const NONE: Comp = Comp {
    plane: 0,
    step: 0,
    offset: 0,
    shift: 0,
    depth: 0,
};

const RGB24: Desc = Desc {
    count: 3,
    comps: [
        Comp {
            plane: 0,
            step: 3,
            offset: 0,
            shift: 0,
            depth: 8,
        },
        Comp {
            plane: 0,
            step: 3,
            offset: 1,
            shift: 0,
            depth: 8,
        },
        Comp {
            plane: 0,
            step: 3,
            offset: 2,
            shift: 0,
            depth: 8,
        },
        NONE,
    ],
    be: false,
    rgb: true,
    alpha: false,
    palette: false,
};

const RGB565LE: Desc = Desc {
    count: 3,
    comps: [
        Comp {
            plane: 0,
            step: 2,
            offset: 1,
            shift: 3,
            depth: 5,
        },
        Comp {
            plane: 0,
            step: 2,
            offset: 0,
            shift: 5,
            depth: 6,
        },
        Comp {
            plane: 0,
            step: 2,
            offset: 0,
            shift: 0,
            depth: 5,
        },
        NONE,
    ],
    be: false,
    rgb: true,
    alpha: false,
    palette: false,
};

const RGB565BE: Desc = Desc {
    count: 3,
    comps: [
        Comp {
            plane: 0,
            step: 2,
            offset: -1,
            shift: 3,
            depth: 5,
        },
        Comp {
            plane: 0,
            step: 2,
            offset: 0,
            shift: 5,
            depth: 6,
        },
        Comp {
            plane: 0,
            step: 2,
            offset: 0,
            shift: 0,
            depth: 5,
        },
        NONE,
    ],
    be: true,
    rgb: true,
    alpha: false,
    palette: false,
};

const X2RGB10LE: Desc = Desc {
    count: 3,
    comps: [
        Comp {
            plane: 0,
            step: 4,
            offset: 2,
            shift: 4,
            depth: 10,
        },
        Comp {
            plane: 0,
            step: 4,
            offset: 1,
            shift: 2,
            depth: 10,
        },
        Comp {
            plane: 0,
            step: 4,
            offset: 0,
            shift: 0,
            depth: 10,
        },
        NONE,
    ],
    be: false,
    rgb: true,
    alpha: false,
    palette: false,
};

/// rgb24 with other components.
fn rgb24_of(red: Comp, green: Comp, blue: Comp) -> Desc {
    Desc {
        comps: [red, green, blue, NONE],
        ..RGB24
    }
}

#[test]
fn gives_layout_or_first_fault(rt: HostRuntime) {
    let [red, green, blue, _] = RGB24.comps;
    for (name, desc, want) in [
        ("rgb24", RGB24, Ok(Layout::Elements)),
        ("rgb565le", RGB565LE, Ok(Layout::Word)),
        ("rgb565be", RGB565BE, Ok(Layout::Word)),
        ("x2rgb10le", X2RGB10LE, Ok(Layout::Word)),
        (
            "two components",
            Desc { count: 2, ..RGB24 },
            Err(DescFault::ComponentCount),
        ),
        (
            "255 components",
            Desc {
                count: 255,
                ..RGB24
            },
            Err(DescFault::ComponentCount),
        ),
        (
            "red of 17 bits",
            rgb24_of(Comp { depth: 17, ..red }, green, blue),
            Err(DescFault::DepthRange),
        ),
        (
            "green over red",
            rgb24_of(red, Comp { offset: 0, ..green }, blue),
            Err(DescFault::Overlap),
        ),
        (
            "blue behind the pixel",
            rgb24_of(red, green, Comp { offset: 3, ..blue }),
            Err(DescFault::OutsideStep),
        ),
        (
            "red of 7 bits",
            rgb24_of(
                Comp {
                    shift: 1,
                    depth: 7,
                    ..red
                },
                green,
                blue,
            ),
            Err(DescFault::MixedLayout),
        ),
        (
            "no plane 0",
            rgb24_of(
                Comp { plane: 1, ..red },
                Comp { plane: 1, ..green },
                Comp { plane: 1, ..blue },
            ),
            Err(DescFault::PlaneCount),
        ),
    ] {
        assert_eq!(rt; check(&desc), want, "{name}");
    }
}

#[test]
#[tactic(auto, unfolding(crate::specs::Layouts::checked))]
fn reads_both_byte_orders(rt: HostRuntime) {
    let (le, be) = ([0xFF, 0xFF, 0x10, 0x84], [0xFF, 0xFF, 0x84, 0x10]);
    for (j, want) in [(0, 16), (1, 32), (2, 16)] {
        assert_eq!(rt; read_comp(&RGB565LE, j, &le, 1), want);
        assert_eq!(rt; read_comp(&RGB565BE, j, &be, 1), want);
    }
    assert_eq!(rt; read_comp(&X2RGB10LE, 0, &[0x03, 0xF8, 0x1F, 0xC0], 0), 1);
    assert_eq!(rt;
        read_comp(&X2RGB10LE, 1, &[0x03, 0xF8, 0x1F, 0xC0], 0),
        1022
    );
    assert_eq!(rt; read_comp(&X2RGB10LE, 2, &[0x03, 0xF8, 0x1F, 0xC0], 0), 3);
}

#[test]
#[tactic(auto, unfolding(crate::specs::Layouts::checked))]
fn writes_one_component(rt: HostRuntime) {
    let mut row = [0xFF, 0xFF];
    write_comp(&RGB565LE, 1, &mut row, 0, 0);
    assert_eq!(rt; row, [0x1F, 0xF8]);
}
