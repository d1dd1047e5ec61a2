// Values from outside: worked by hand, and at the edge of i128 by another program's exact
// fractions.
use crate::{Frac, dither_at};
use std::cmp::Ordering;

const MIN: i128 = i128::MIN;

const ABOVE_MIN: i128 = i128::MIN + 1;

const BELOW_MAX: i128 = i128::MAX - 1;

const MAX: i128 = i128::MAX;

const TWO_63: i128 = 9223372036854775808;

const TWO_64: i128 = 18446744073709551616;

const TWO_126: i128 = 85070591730234615865843651857942052864;

// A fraction in lowest terms, as its two numbers.
type Pair = (i128, i128);

fn pair(value: Option<Frac>) -> Option<Pair> {
    let value = value?;
    Some((value.num(), value.den()))
}

fn sum(x: Pair, y: Pair) -> Option<Pair> {
    pair(Frac::new(x.0, x.1)?.checked_add(&Frac::new(y.0, y.1)?))
}

fn product(x: Pair, y: Pair) -> Option<Pair> {
    pair(Frac::new(x.0, x.1)?.checked_mul(&Frac::new(y.0, y.1)?))
}

fn quotient(x: Pair, y: Pair) -> Option<Pair> {
    pair(Frac::new(x.0, x.1)?.checked_div(&Frac::new(y.0, y.1)?))
}

fn order(x: Pair, y: Pair) -> Option<Ordering> {
    Some(Frac::new(x.0, x.1)?.cmp(&Frac::new(y.0, y.1)?))
}

fn floor(x: Pair) -> Option<i128> {
    Some(Frac::new(x.0, x.1)?.floor())
}

fn dither(k: u8, x: u32, y: u32) -> Option<Pair> {
    if k > 4 {
        return None;
    }
    pair(Some(dither_at(k, x, y)))
}

#[test]
fn reduces(rt: HostRuntime) {
    for (num, den, want) in [
        (6, -4, Some((-3, 2))),
        (1, 0, None),
        (MIN, -1, None),
        (MIN, 1, Some((MIN, 1))),
        (MIN, MIN, Some((1, 1))),
        (1, MIN, None),
        (2, MIN, Some((-1, TWO_126))),
        (0, MIN, Some((0, 1))),
        (MAX, -MAX, Some((-1, 1))),
    ] {
        assert_eq!(rt; pair(Frac::new(num, den)), want);
    }
}

#[test]
fn floors(rt: HostRuntime) {
    for (x, want) in [
        ((6, -4), -2),
        ((3, 2), 1),
        ((-1, 3), -1),
        ((0, 5), 0),
        ((-8, 2), -4),
        ((MIN, 3), -56713727820156410577229101238628035243),
        ((MIN, 1), MIN),
    ] {
        assert_eq!(rt; floor(x), Some(want));
    }
}

#[test]
fn adds(rt: HostRuntime) {
    for (x, y, want) in [
        ((MAX, 1), (0, 1), Some((MAX, 1))),
        ((MAX, 1), (1, 1), None),
        ((MAX, 1), (-1, 1), Some((BELOW_MAX, 1))),
        ((MIN, 1), (-1, 1), None),
        ((MIN, 1), (1, 1), Some((ABOVE_MIN, 1))),
        ((MAX, 2), (1, 2), None),
        ((170141183460469231731687303715884105725, 3), (1, 3), None),
        ((TWO_126, 1), (TWO_126, 1), None),
        ((-TWO_126, 1), (-TWO_126, 1), Some((MIN, 1))),
        ((1, TWO_63), (1, TWO_64), None),
        ((1, TWO_64), (-1, TWO_64), None),
        ((TWO_64, 3), (1, TWO_63), None),
        (
            (TWO_64, 3),
            (1, 9223372036854775807),
            Some((
                170141183460469231713240559642174554115,
                27670116110564327421,
            )),
        ),
        ((1, 6), (1, 10), Some((4, 15))),
        ((-5, 12), (3, 20), Some((-4, 15))),
    ] {
        assert_eq!(rt; sum(x, y), want);
    }
}

#[test]
fn multiplies(rt: HostRuntime) {
    for (x, y, want) in [
        ((MAX, 1), (1, 1), Some((MAX, 1))),
        ((MIN, 1), (1, 1), Some((MIN, 1))),
        ((MIN, 1), (-1, 1), None),
        ((MAX, 1), (-1, 1), Some((ABOVE_MIN, 1))),
        ((TWO_63, 1), (TWO_64, 1), None),
        ((TWO_63, 1), (-TWO_64, 1), Some((MIN, 1))),
        ((1, TWO_63), (1, TWO_64), None),
        (
            (1, TWO_63),
            (1, 18446744073709551615),
            Some((1, 170141183460469231722463931679029329920)),
        ),
        ((TWO_126, 3), (3, TWO_126), None),
        ((TWO_64, 3), (9, TWO_63), Some((6, 1))),
        ((TWO_64, 3), (5, 4611686018427387904), Some((20, 3))),
        ((TWO_126, 7), (7, 2), None),
        ((TWO_126, 7), (7, 4), None),
        ((TWO_126, 1), (1, 3), Some((TWO_126, 3))),
        ((-6, 35), (14, 9), Some((-4, 15))),
    ] {
        assert_eq!(rt; product(x, y), want);
    }
}

#[test]
fn divides(rt: HostRuntime) {
    for (x, y, want) in [
        ((1, 2), (0, 1), None),
        ((1, 2), (-3, 4), Some((-2, 3))),
        ((MIN, 1), (1, 1), Some((MIN, 1))),
        ((MIN, 1), (-1, 1), None),
        ((MAX, 1), (-1, 1), Some((ABOVE_MIN, 1))),
        ((1, 1), (MIN, 1), None),
        ((1, 1), (MAX, 1), Some((1, MAX))),
        ((0, 1), (MIN, 1), None),
        ((TWO_63, 1), (-1, TWO_64), Some((MIN, 1))),
        ((TWO_63, 1), (1, TWO_64), None),
        ((-TWO_63, 1), (1, TWO_64), Some((MIN, 1))),
        ((-TWO_63, 1), (-1, TWO_64), None),
        ((1, TWO_63), (TWO_64, 1), None),
        (
            (1, TWO_63),
            (18446744073709551615, 1),
            Some((1, 170141183460469231722463931679029329920)),
        ),
        ((-7, 12), (-35, 18), Some((3, 10))),
    ] {
        assert_eq!(rt; quotient(x, y), want, "at {x:?} over {y:?}");
    }
}

#[test]
fn compares(rt: HostRuntime) {
    for (x, y, want) in [
        (
            (BELOW_MAX, MAX),
            (170141183460469231731687303715884105725, BELOW_MAX),
            Ordering::Greater,
        ),
        (
            (170141183460469231731687303715884105725, BELOW_MAX),
            (BELOW_MAX, MAX),
            Ordering::Less,
        ),
        ((MIN, MAX), (-1, 1), Ordering::Less),
        (
            (MIN, MAX),
            (MIN, 170141183460469231731687303715884105725),
            Ordering::Greater,
        ),
        ((1, MAX), (1, BELOW_MAX), Ordering::Less),
        ((-1, MAX), (0, 1), Ordering::Less),
        ((MAX, 2), (MAX, 2), Ordering::Equal),
        ((MIN, 3), (MAX, 2), Ordering::Less),
        ((1, 3), (1, 3), Ordering::Equal),
    ] {
        assert_eq!(rt; order(x, y), Some(want), "at {x:?} and {y:?}");
    }
}

#[test]
fn dithers(rt: HostRuntime) {
    for (k, x, y, want) in [
        (2, 3, 2, (19, 32)),
        (2, 7, 6, (19, 32)),
        (0, 5, 9, (1, 2)),
        (1, 0, 0, (1, 8)),
        (1, 1, 1, (3, 8)),
        (1, 1, 0, (5, 8)),
        (1, 0, 1, (7, 8)),
        (2, 1, 2, (23, 32)),
        (2, 2, 1, (29, 32)),
        (3, 5, 6, (91, 128)),
        (3, 6, 5, (115, 128)),
        (4, 15, 15, (171, 512)),
        (4, 0, 15, (511, 512)),
        (4, 9, 4, (285, 512)),
        (4, 4294967295, 4294967294, (299, 512)),
    ] {
        assert_eq!(rt; dither(k, x, y), Some(want));
    }
}
