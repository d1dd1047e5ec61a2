// Pairs that are accepted and pairs that are not.
use super::{Pair, Side, pair_valid};
use colour_matrix::{Matrix, Range, named};
use pix_desc::{Comp, Desc};
use std::test::Fail;

const NO_COMPONENT: Comp = Comp {
    plane: 0,
    step: 0,
    offset: 0,
    shift: 0,
    depth: 0,
};

fn byte(offset: i8) -> Comp {
    Comp {
        plane: 0,
        step: 3,
        offset,
        shift: 0,
        depth: 8,
    }
}

fn three_bytes(r: i8, g: i8, b: i8) -> Desc {
    Desc {
        count: 3,
        comps: [byte(r), byte(g), byte(b), NO_COMPONENT],
        be: false,
        rgb: true,
        alpha: false,
        palette: false,
    }
}

fn with_matrix(q: u32, r: u32, b: u32) -> Side {
    Side {
        desc: three_bytes(0, 1, 2),
        matrix: Matrix { q, r, b },
        range: Range::Full,
    }
}

#[test]
fn valid_pairs(rt: HostRuntime) -> Result<(), Fail> {
    let matrix = named("bt601").ok_or("bt601")?;
    let range = Range::Full;
    let rgb24 = with_matrix(1000, 299, 114);
    let bgr24 = Side {
        desc: three_bytes(2, 1, 0),
        matrix,
        range,
    };
    let overlapping = Side {
        desc: three_bytes(0, 0, 2),
        matrix,
        range,
    };
    let table = [
        (rgb24, bgr24, 4, true),
        (rgb24, bgr24, 5, false),
        (rgb24, overlapping, 0, false),
        (overlapping, bgr24, 0, false),
        (with_matrix(16777216, 1, 1), bgr24, 0, true),
        (with_matrix(16777217, 1, 1), bgr24, 0, false),
        (with_matrix(1000, 0, 114), bgr24, 0, false),
        (rgb24, with_matrix(1000, 299, 0), 0, false),
        (rgb24, with_matrix(1000, 299, 701), 0, false),
        (rgb24, with_matrix(1000, 4294967295, 2), 0, false),
    ];
    for (from, to, dither, wanted) in table {
        let pair = Pair { from, to, dither };
        assert_eq!(rt; pair_valid(&pair), wanted, "{pair:?}");
    }
    Ok(())
}
