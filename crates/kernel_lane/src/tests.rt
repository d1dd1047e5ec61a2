// Rows by hand, and each call beside its plain rule at lengths below, at and above the lanes.
ghost use Rattle.std.specs.Prelude.{◌≡◌, ◌+◌, ◌*◌, ◌/◌, ◌%◌, ◌≤◌, ◌<◌, ◌^◌, ◌≤ℤ◌, ◌<ℤ◌, pos, length, ⊤};
ghost use Rattle.std.specs.Prelude.{slice_index};
ghost use Rattle.std.proofs.Common.{rules};
ghost use Rattle.kernel_lane.specs.Rows.{ForEach};
ghost use Rattle.kernel_lane.specs.Rules.{IsLaneCount};

use crate::{
    Change, Combine, Element, Merge, change_front, change_part, clamp, combine_part, expand,
    fill_between, fill_part, floor_div, join_pixels, merge_few, merge_front, merge_part,
    merge_within, mul_add, narrow, pick, put_elements, shift_left, shift_right, split_pixels,
    swap_u16, swap_u32, take_elements, widen,
};
use std::process::Abort;

const MOST: usize = 70;

// Numbers of 16 bits without order.
fn sample(i: usize) -> u16
    requires { i < 1000 }
{
    (i * 40503 % 65536) as u16
}

// Those numbers from one on, in 64 bits.
fn fill(v: &mut [i64], first: usize)
    requires short { (length v.old ≤ 70) × (first ≤ 900) }
    ensures { ForEach (λ x. (pos 0 ≤ℤ x) × (x <ℤ pos (2 ^ 16))) v.new }
{
    for i in 0..v.len() {
        v[i] = i64::from(sample(first + i));
    }
}

#[test]
fn rows_by_hand(rt: HostRuntime) {
    let mut words = [0x1234u16];
    swap_u16::<8>(&mut words);
    assert_eq!(rt; words, [0x3412]);
    let mut longs = [0x12345678u32];
    swap_u32::<8>(&mut longs);
    assert_eq!(rt; longs, [0x78563412]);
    let mut bytes = [0x81u8];
    shift_left::<u8, 8>(&mut bytes, 1);
    assert_eq!(rt; bytes, [0x02]);
    shift_right::<u8, 8>(&mut bytes, 1);
    assert_eq!(rt; bytes, [0x01]);
    let mut words = [0u16; 3];
    expand::<16>(&[0x00, 0x80, 0xFF], &mut words);
    assert_eq!(rt; words, [0x0000, 0x8080, 0xFFFF]);
    let mut bytes = [0u8; 2];
    pick::<u8, 32>(&[1, 2, 3, 4, 5, 6], 3, 1, &mut bytes);
    assert_eq!(rt; bytes, [2, 5]);
    let mut numbers = [-1i64, 7, -4];
    floor_div::<8>(&mut numbers, 2);
    assert_eq!(rt; numbers, [-1, 3, -2]);
    let mut numbers = [-1i64, 256, 9];
    clamp::<8>(&mut numbers, 0, 255);
    assert_eq!(rt; numbers, [0, 255, 9]);
}

fn check_swaps<const N: usize>(rt: &impl Abort, len: usize)
    requires lanes { IsLaneCount N }
    requires short { len ≤ 70 }
{
    let mut words = [0u16; MOST];
    let mut longs = [0u32; MOST];
    for i in 0..MOST {
        words[i] = sample(i);
        longs[i] = u32::from(sample(i)) * 65536 + u32::from(sample(i + 1));
    }
    swap_u16::<N>(&mut words[..len]);
    swap_u32::<N>(&mut longs[..len]);
    for i in 0..MOST {
        let [high, low] = sample(i).to_be_bytes();
        let [last, first] = sample(i + 1).to_be_bytes();
        let word = if i < len { [low, high] } else { [high, low] };
        let long = if i < len {
            [first, last, low, high]
        } else {
            [high, low, last, first]
        };
        assert_eq!(rt; words[i].to_be_bytes(), word);
        assert_eq!(rt; longs[i].to_be_bytes(), long);
    }
}

fn check_shifts<const N: usize>(rt: &impl Abort, len: usize)
    requires lanes { IsLaneCount N }
    requires short { len ≤ 70 }
{
    let mut up = [0u16; MOST];
    let mut down = [0u16; MOST];
    for i in 0..MOST {
        up[i] = sample(i);
        down[i] = sample(i);
    }
    shift_left::<u16, N>(&mut up[..len], 3);
    shift_right::<u16, N>(&mut down[..len], 3);
    for i in 0..MOST {
        let x = u32::from(sample(i));
        let (higher, lower) = if i < len {
            (x * 8 % 65536, x / 8)
        } else {
            (x, x)
        };
        assert_eq!(rt; (u32::from(up[i]), u32::from(down[i])), (higher, lower));
    }
}

fn check_widths<const N: usize>(rt: &impl Abort, len: usize)
    requires lanes { IsLaneCount N }
    requires short { len ≤ 70 }
{
    let mut bytes = [0u8; MOST];
    for i in 0..MOST {
        bytes[i] = (sample(i) / 256) as u8;
    }
    let mut words = [9u16; MOST];
    let mut wide = [9i64; MOST];
    let mut back = [9u16; MOST];
    expand::<N>(&bytes[..len], &mut words[..len]);
    widen::<u8, N>(&bytes[..len], &mut wide[..len]);
    let mut numbers = [0i64; MOST];
    fill(&mut numbers[..len], 0);
    narrow::<u16, N>(&numbers[..len], &mut back[..len]);
    for i in 0..MOST {
        let x = sample(i);
        let (word, number, same) = if i < len {
            (x / 256 * 257, i64::from(x / 256), x)
        } else {
            (9, 9, 9)
        };
        assert_eq!(rt; (words[i], wide[i], back[i]), (word, number, same));
    }
}

fn check_picks<const N: usize>(rt: &impl Abort, len: usize)
    requires lanes { IsLaneCount N }
    requires short { len ≤ 70 }
{
    let mut from = [0u32; 3 * MOST];
    for i in 0..3 * MOST {
        from[i] = u32::from(sample(i));
    }
    let mut to = [9u32; MOST];
    pick::<u32, N>(&from, 3, 2, &mut to[..len]);
    for i in 0..MOST {
        let x = if i < len {
            u32::from(sample(3 * i + 2))
        } else {
            9
        };
        assert_eq!(rt; to[i], x);
    }
}

#[tactic(auto, unfolding(crate::specs::Rules::with_product))]
fn check_numerators<const N: usize>(rt: &impl Abort, len: usize)
    requires lanes { IsLaneCount N }
    requires short { len ≤ 70 }
{
    let mut sum = [9i64; MOST];
    let mut numbers = [0i64; MOST];
    fill(&mut numbers[..len], 0);
    fill(&mut sum[..len], 100);
    mul_add::<N>(&mut sum[..len], &numbers[..len], -3);
    let mut quotients = sum;
    floor_div::<N>(&mut quotients[..len], 7);
    let mut near = sum;
    clamp::<N>(&mut near[..len], -90000, 1234);
    for i in 0..MOST {
        let y = if i < len {
            i64::from(sample(100 + i)) - 3 * i64::from(sample(i))
        } else {
            9
        };
        assert_eq!(rt; sum[i], y);
        let parts = if i < len { 7 } else { 1 };
        let steps = i128::from(quotients[i]) * parts;
        assert!(rt; steps <= i128::from(y) && i128::from(y) < steps + parts);
        let nearest = match y {
            _ if i >= len => y,
            _ if y < -90000 => -90000,
            _ if y > 1234 => 1234,
            _ => y,
        };
        assert_eq!(rt; near[i], nearest);
    }
}

// Half of a number.
#[derive(Clone, Copy)]
struct Half;

impl Change<u32> for Half {
    ghost takes = { λ _ _. ⊤ };

    ghost makes = { λ _ x y. y ≡ x / 2 };

    fn changed(self, x: u32) -> u32 {
        x / 2
    }
}

// The remainder of a number by one more than another.
#[derive(Clone, Copy)]
struct Remainder;

impl Merge<u16, u32> for Remainder {
    ghost takes = { λ _ _ _. ⊤ };

    ghost makes = { λ _ s x y. y ≡ s % (x + 1) };

    fn merged(self, old: u32, from: u16) -> u32 {
        old % (u32::from(from) + 1)
    }
}

// Half of a number, and half of another.
#[derive(Clone, Copy)]
struct Mean;

impl Merge<u32, u32> for Mean {
    ghost takes = { λ _ _ _. ⊤ };

    ghost makes = { λ _ s x y. y ≡ s / 2 + x / 2 };

    fn merged(self, old: u32, from: u32) -> u32 {
        old / 2 + from / 2
    }
}

// Numbers of two bytes, the higher one first.
#[derive(Clone, Copy)]
struct HighFirst;

impl Element<u16> for HighFirst {
    ghost size = { 2 };

    ghost element = { λ bytes k. 256 * slice_index bytes (2 * k) + slice_index bytes (2 * k + 1) };

    ghost number = { λ x. x };

    ghost holds = { ⊤ };

    ghost fits = { λ _. ⊤ };

    fn taken(self, from: &[u8], k: usize) -> u16 {
        u16::from(from[2 * k]) * 256 + u16::from(from[2 * k + 1])
    }

    fn put(self, to: &mut [u8], k: usize, x: u16) {
        to[2 * k] = (x / 256) as u8;
        to[2 * k + 1] = (x % 256) as u8;
    }

    ghost some = { Prim.search rules };
}

// Half of a number, a third of another and a quarter of one more.
#[derive(Clone, Copy)]
struct Shares;

impl Combine<u16, u32> for Shares {
    ghost takes = { λ _ _ _ _. ⊤ };

    ghost makes = { λ _ x y z s. s ≡ x / 2 + y / 3 + z / 4 };

    fn combined(self, x: u16, y: u16, z: u16) -> u32 {
        u32::from(x) / 2 + u32::from(y) / 3 + u32::from(z) / 4
    }
}

const PLACE: usize = 33;

const START: usize = 7;

// The parts of N elements: the elements in front of them and behind them stay.
fn check_parts<const N: usize>(rt: &impl Abort)
    requires short { N ≤ 70 }
{
    let mut from = [0u16; 2 * MOST];
    let mut changed = [0u32; 2 * MOST];
    for i in 0..2 * MOST {
        from[i] = sample(i + 200);
        changed[i] = u32::from(sample(i)) * 65536;
    }
    let mut merged = changed;
    let mut few = changed;
    change_part::<u32, Half, N>(Half, &mut changed, PLACE);
    merge_part::<u16, u32, Remainder, N>(Remainder, &mut merged, PLACE, &from, START);
    merge_few::<u16, u32, Remainder, N>(Remainder, &mut few, PLACE, &from, START);
    for i in 0..2 * MOST {
        let x = u32::from(sample(i)) * 65536;
        let (half, rest) = if PLACE <= i && i < PLACE + N {
            let by = u32::from(sample(i - PLACE + START + 200)) + 1;
            (x / 2, x % by)
        } else {
            (x, x)
        };
        assert_eq!(rt; (changed[i], merged[i], few[i]), (half, rest, rest));
    }
}

// N elements that become the same, and N that take those of the same row behind them.
fn check_own_parts<const N: usize>(rt: &impl Abort)
    requires short { N ≤ 70 }
{
    let mut filled = [0u32; 2 * MOST];
    for i in 0..2 * MOST {
        filled[i] = u32::from(sample(i)) * 65536;
    }
    let mut within = filled;
    fill_part::<u32, N>(&mut filled, PLACE, 5);
    merge_within::<u32, Mean, N>(Mean, &mut within, 0, MOST);
    for i in 0..2 * MOST {
        let x = u32::from(sample(i)) * 65536;
        let same = if PLACE <= i && i < PLACE + N { 5 } else { x };
        let mean = if i < N {
            x / 2 + u32::from(sample(i + MOST)) * 32768
        } else {
            x
        };
        assert_eq!(rt; (filled[i], within[i]), (same, mean));
    }
}

// N elements that are made of those at three places of another row.
fn check_combined_parts<const N: usize>(rt: &impl Abort)
    requires short { N ≤ 70 }
{
    let mut from = [0u16; 2 * MOST];
    let mut combined = [0u32; 2 * MOST];
    for i in 0..2 * MOST {
        from[i] = sample(i + 200);
        combined[i] = u32::from(sample(i)) * 65536;
    }
    combine_part::<u16, u32, Shares, N>(Shares, &mut combined, PLACE, &from, MOST, START, 0);
    for i in 0..2 * MOST {
        let shares = if PLACE <= i && i < PLACE + N {
            let k = i - PLACE + 200;
            let first = u32::from(sample(k + MOST)) / 2;
            first + u32::from(sample(k + START)) / 3 + u32::from(sample(k)) / 4
        } else {
            u32::from(sample(i)) * 65536
        };
        assert_eq!(rt; combined[i], shares);
    }
}

// The first elements, so many of them: those behind them stay.
fn check_fronts(rt: &impl Abort, len: usize)
    requires short { len ≤ 70 }
{
    let mut from = [0u16; MOST];
    let mut changed = [0u32; MOST];
    for i in 0..MOST {
        from[i] = sample(i + 200);
        changed[i] = u32::from(sample(i)) * 65536;
    }
    let mut merged = changed;
    let mut filled = changed;
    change_front::<u32, Half>(Half, &mut changed, len);
    merge_front::<u16, u32, Remainder>(Remainder, &mut merged, &from, len);
    fill_between(&mut filled, START, len, 5);
    for i in 0..MOST {
        let x = u32::from(sample(i)) * 65536;
        let (half, rest) = if i < len {
            (x / 2, x % (u32::from(sample(i + 200)) + 1))
        } else {
            (x, x)
        };
        let same = if START <= i && i < len { 5 } else { x };
        assert_eq!(rt; (changed[i], merged[i], filled[i]), (half, rest, same));
    }
}

const ELEMENTS: usize = START + 4 * MOST;

// Every C-th element taken, and put: other numbers stay, and so do other elements.
fn check_elements<const C: usize>(rt: &impl Abort, len: usize)
    requires step { (1 ≤ C) × (C ≤ 4) }
    requires short { len ≤ 70 }
{
    let mut bytes = [0u8; 2 * ELEMENTS];
    for k in 0..ELEMENTS {
        let [high, low] = sample(k).to_be_bytes();
        bytes[2 * k] = high;
        bytes[2 * k + 1] = low;
    }
    let mut numbers = [0u16; 2 * MOST];
    for i in 0..2 * MOST {
        numbers[i] = sample(i + 500);
    }
    let mut taken = numbers;
    let mut put = bytes;
    take_elements::<u16, HighFirst, C>(HighFirst, &bytes, START, len, &mut taken, PLACE);
    put_elements::<u16, HighFirst, C>(HighFirst, &numbers, PLACE, len, &mut put, START);
    for i in 0..2 * MOST {
        let number = if PLACE <= i && i < PLACE + len {
            sample(START + (i - PLACE) * C)
        } else {
            numbers[i]
        };
        assert_eq!(rt; taken[i], number);
    }
    for k in 0..ELEMENTS {
        let number = if START <= k && (k - START) % C == 0 && (k - START) / C < len {
            numbers[PLACE + (k - START) / C]
        } else {
            sample(k)
        };
        assert_eq!(rt; [put[2 * k], put[2 * k + 1]], number.to_be_bytes());
    }
}

#[test]
fn fronts_equal_their_plain_rules(rt: HostRuntime) {
    for len in [0, 1, 7, 8, 9, 31, 32, 33, 70usize] {
        assert!(rt; len <= MOST);
        check_fronts(&rt, len);
    }
}

#[test]
fn elements_equal_their_plain_rules(rt: HostRuntime) {
    for len in [0, 1, 7, 8, 9, 31, 32, 33, 70usize] {
        assert!(rt; len <= MOST);
        check_elements::<1>(&rt, len);
        check_elements::<2>(&rt, len);
        check_elements::<3>(&rt, len);
        check_elements::<4>(&rt, len);
    }
}

#[test]
fn own_parts_equal_their_plain_rules(rt: HostRuntime) {
    check_own_parts::<0>(&rt);
    check_own_parts::<1>(&rt);
    check_own_parts::<7>(&rt);
    check_own_parts::<8>(&rt);
    check_own_parts::<9>(&rt);
    check_own_parts::<31>(&rt);
    check_own_parts::<32>(&rt);
    check_own_parts::<33>(&rt);
    check_own_parts::<70>(&rt);
}

#[test]
fn parts_equal_their_plain_rules(rt: HostRuntime) {
    check_parts::<0>(&rt);
    check_parts::<1>(&rt);
    check_parts::<7>(&rt);
    check_parts::<8>(&rt);
    check_parts::<9>(&rt);
    check_parts::<31>(&rt);
    check_parts::<32>(&rt);
    check_parts::<33>(&rt);
    check_parts::<70>(&rt);
}

#[test]
fn combined_parts_equal_their_plain_rules(rt: HostRuntime) {
    check_combined_parts::<0>(&rt);
    check_combined_parts::<1>(&rt);
    check_combined_parts::<7>(&rt);
    check_combined_parts::<8>(&rt);
    check_combined_parts::<9>(&rt);
    check_combined_parts::<31>(&rt);
    check_combined_parts::<32>(&rt);
    check_combined_parts::<33>(&rt);
    check_combined_parts::<70>(&rt);
}

// Bytes of C values for each of 64 pixels, taken apart and put together again.
fn check_pixels<const C: usize>(rt: &impl Abort)
    requires count { (2 ≤ C) × (C ≤ 4) }
{
    let mut pixels = [0u8; 256];
    for i in 0..256 {
        pixels[i] = (sample(i) / 256) as u8;
    }
    let mut values = [9u8; 256];
    let mut back = [9u8; 256];
    split_pixels::<C>(&pixels[..64 * C], &mut values[..64 * C]);
    join_pixels::<C>(&values[..64 * C], &mut back[..64 * C]);
    for k in 0..64 * C {
        let i = k / C;
        let v = k % C;
        assert_eq!(rt; values[64 * v + i], pixels[k]);
        assert_eq!(rt; back[k], pixels[k]);
    }
    for k in 64 * C..256 {
        assert_eq!(rt; (values[k], back[k]), (9, 9));
    }
}

#[test]
fn pixels_equal_their_plain_rules(rt: HostRuntime) {
    check_pixels::<2>(&rt);
    check_pixels::<3>(&rt);
    check_pixels::<4>(&rt);
}

fn check_all<const N: usize>(rt: &impl Abort)
    requires lanes { IsLaneCount N }
{
    for len in [0, 1, 7, 8, 9, 31, 32, 33, 70usize] {
        assert!(rt; len <= MOST);
        check_swaps::<N>(rt, len);
        check_shifts::<N>(rt, len);
        check_widths::<N>(rt, len);
        check_picks::<N>(rt, len);
        check_numerators::<N>(rt, len);
    }
}

#[test]
fn calls_equal_their_plain_rules(rt: HostRuntime) {
    check_all::<8>(&rt);
    check_all::<16>(&rt);
    check_all::<32>(&rt);
}
