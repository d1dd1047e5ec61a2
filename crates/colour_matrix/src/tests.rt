// Coefficients and levels beside values worked out from the standard's equations.
use super::{Class, Range, from_rgb, levels, named, to_rgb};
use frac_math::Frac;
use std::process::Abort;
use std::test::Fail;

fn assert_rows(rt: &impl Abort, name: &str, rows: [[Frac; 3]; 3], wanted: [[(i128, i128); 3]; 3]) {
    for (row, wanted_row) in rows.iter().zip(wanted.iter()) {
        for (coefficient, pair) in row.iter().zip(wanted_row.iter()) {
            assert_eq!(rt; (coefficient.num(), coefficient.den()), *pair, "{name}");
        }
    }
}

// Worked out by exact fractions: from RGB by K_R and K_B, to RGB as the inverse of that.
#[test]
fn coefficients_are_the_standards(rt: HostRuntime) -> Result<(), Fail> {
    let bt601 = named("bt601").ok_or("bt601")?;
    assert_rows(
        &rt,
        "bt601 to RGB",
        to_rgb(&bt601),
        [
            [(1, 1), (0, 1), (701, 500)],
            [(1, 1), (-25251, 73375), (-209599, 293500)],
            [(1, 1), (443, 250), (0, 1)],
        ],
    );
    assert_rows(
        &rt,
        "bt601 from RGB",
        from_rgb(&bt601),
        [
            [(299, 1000), (587, 1000), (57, 500)],
            [(-299, 1772), (-587, 1772), (1, 2)],
            [(1, 2), (-587, 1402), (-57, 701)],
        ],
    );
    let bt2020 = named("bt2020").ok_or("bt2020")?;
    assert_rows(
        &rt,
        "bt2020 to RGB",
        to_rgb(&bt2020),
        [
            [(1, 1), (0, 1), (7373, 5000)],
            [(1, 1), (-5578351, 33900000), (-19368871, 33900000)],
            [(1, 1), (9407, 5000), (0, 1)],
        ],
    );
    assert_rows(
        &rt,
        "bt2020 from RGB",
        from_rgb(&bt2020),
        [
            [(2627, 10000), (339, 500), (593, 10000)],
            [(-2627, 18814), (-3390, 9407), (1, 2)],
            [(1, 2), (-3390, 7373), (-593, 14746)],
        ],
    );
    Ok(())
}

#[test]
fn levels_are_the_standards(rt: HostRuntime) {
    for (class, depth, range, scale, base) in [
        (Class::Chroma, 10, Range::Limited, (896, 1), (512, 1)),
        (Class::Chroma, 8, Range::Full, (255, 1), (128, 1)),
        (Class::Luma, 8, Range::Limited, (219, 1), (16, 1)),
        (Class::Luma, 5, Range::Limited, (219, 8), (2, 1)),
        (Class::Luma, 16, Range::Full, (65535, 1), (0, 1)),
        (Class::Direct, 5, Range::Limited, (31, 1), (0, 1)),
    ] {
        let found = levels(class, depth, range);
        assert_eq!(rt;
            (found.scale.num(), found.scale.den()),
            scale,
            "scale at depth {depth}"
        );
        assert_eq!(rt;
            (found.base.num(), found.base.den()),
            base,
            "base at depth {depth}"
        );
    }
}

#[test]
fn names_are_five(rt: HostRuntime) {
    for (name, parts) in [
        ("bt601", Some((1000, 299, 114))),
        ("bt709", Some((10000, 2126, 722))),
        ("bt2020", Some((10000, 2627, 593))),
        ("smpte240m", Some((1000, 212, 87))),
        ("fcc", Some((100, 30, 11))),
        ("bt470", None),
        ("", None),
    ] {
        assert_eq!(rt; named(name).map(|m| (m.q, m.r, m.b)), parts, "{name}");
    }
}
