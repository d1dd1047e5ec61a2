use super::*;
use pix_desc::Comp;

const NONE: Comp = Comp {
    plane: 0,
    step: 0,
    offset: 0,
    shift: 0,
    depth: 0,
};

// Three planes of one byte a pixel, as yuv444p has them.
const PLANAR: Desc = Desc {
    count: 3,
    comps: [
        Comp {
            plane: 0,
            step: 1,
            offset: 0,
            shift: 0,
            depth: 8,
        },
        Comp {
            plane: 1,
            step: 1,
            offset: 0,
            shift: 0,
            depth: 8,
        },
        Comp {
            plane: 2,
            step: 1,
            offset: 0,
            shift: 0,
            depth: 8,
        },
        NONE,
    ],
    be: false,
    rgb: false,
    alpha: false,
    palette: false,
};

// An index of one byte a pixel, as pal8 has it.
const INDEXED: Desc = Desc {
    count: 1,
    comps: [
        Comp {
            plane: 0,
            step: 1,
            offset: 0,
            shift: 0,
            depth: 8,
        },
        NONE,
        NONE,
        NONE,
    ],
    be: false,
    rgb: false,
    alpha: true,
    palette: true,
};

// The lengths are those of FFmpeg's av_image_get_buffer_size at align 1.
#[test]
#[tactic(auto, unfolding(pix_desc::specs::Layouts::checked))]
fn measures_frames(rt: HostRuntime) {
    assert_eq!(rt; frame_len(&PLANAR, 3, 2), 18);
    assert_eq!(rt; row_start(&PLANAR, 3, 2, 2, 1), 15);
    assert_eq!(rt; frame_len(&INDEXED, 3, 2), 1030);
    assert_eq!(rt; row_start(&INDEXED, 3, 2, 0, 1), 3);
}
