ghost use Rattle.std.specs.Prelude.{◌≡◌, ◌+◌, ◌*◌, ◌/◌, ◌%◌, ◌^◌, ◌<◌, ◌≤◌, ◌⊎◌, [], ◌∷◌};
ghost use Rattle.std.specs.Prelude.{if◌then◌else◌, nat_lt, sum, slice_index, All};
ghost use Rattle.op_list.specs.Values.{four};
ghost use Rattle.op_list.specs.Whole.{reversed_bytes, bits_below, field, placed};

/// The sum of four counts.
pub fn total(counts: &[u8; 4]) -> u32
    ensures { result ≡ sum counts.now }
{
    let [first, second, third, fourth] = *counts;
    u32::from(first) + u32::from(second) + u32::from(third) + u32::from(fourth)
}

// Values 0 to 3 with the bytes of each in the other order.
pub fn swapped(values: &[u32; 4], bits: u32) -> [u32; 4]
    requires { (bits ≡ 16) ⊎ (bits ≡ 32) }
    ensures { result ≡ four (λ i. reversed_bytes (bits / 8) (slice_index values.now i)) }
{
    [
        reversed_bytes(values[0], bits),
        reversed_bytes(values[1], bits),
        reversed_bytes(values[2], bits),
        reversed_bytes(values[3], bits),
    ]
}

/// The number whose lowest 16 or 32 bits, in bytes, are those of another one in the other order.
pub fn reversed_bytes(value: u32, bits: u32) -> u32
    requires { (bits ≡ 16) ⊎ (bits ≡ 32) }
    ensures { result ≡ reversed_bytes (bits / 8) value }
{
    value.swap_bytes() >> (32 - bits)
}

// 2^n
fn power(n: u32) -> u64
    requires { n ≤ 32 }
    ensures { result ≡ 2 ^ n }
{
    1 << n
}

// The fields of a number.
pub fn unpacked(widths: &[u8; 4], value: u32) -> [u32; 4]
    requires { sum widths.now ≤ 32 }
    ensures { result ≡ four (λ i. field widths.now value i) }
{
    let [first, second, third, fourth] = *widths;
    let below_third = u32::from(fourth);
    let below_second = below_third + u32::from(third);
    let below_first = below_second + u32::from(second);
    [
        field(value, below_first, first),
        field(value, below_second, second),
        field(value, below_third, third),
        field(value, 0, fourth),
    ]
}

/// The field of a number that has `width` bits above the lowest `below`.
pub fn field(value: u32, below: u32, width: u8) -> u32
    requires below { below ≤ 32 }
    requires width { width ≤ 32 }
    ensures { result ≡ value / 2 ^ below % 2 ^ width }
{
    ((u64::from(value) >> below) % power(u32::from(width))) as u32
}

/// The values as the fields of one number, the first as its most significant ones.
pub fn packed(widths: &[u8; 4], values: &[u32; 4]) -> u32
    requires { sum widths.now ≤ 32 }
    ensures { result ≡ placed widths.now (slice_index values.now 0) 0
        + placed widths.now (slice_index values.now 1) 1
        + placed widths.now (slice_index values.now 2) 2
        + placed widths.now (slice_index values.now 3) 3 }
{
    let [first, second, third, fourth] = *widths;
    let below_third = u32::from(fourth);
    let below_second = below_third + u32::from(third);
    let below_first = below_second + u32::from(second);
    let first = placed(values[0], first, below_first);
    let second = placed(values[1], second, below_second);
    let third = placed(values[2], third, below_third);
    let fourth = placed(values[3], fourth, 0);
    (first + second + third + fourth) as u32
}

fn placed(value: u32, width: u8, below: u32) -> u64
    requires { width + below ≤ 32 }
    ensures value { result ≡ value % 2 ^ width * 2 ^ below }
    ensures small { result + 2 ^ below ≤ 2 ^ (width + below) }
{
    u64::from(value) % power(u32::from(width)) * power(below)
}

// Every value times 2^n, modulo 2^bits.
pub fn shifted_left(values: &[u32; 4], n: u8, bits: u32) -> [u32; 4]
    requires n { n < bits }
    requires bits { bits ≤ 32 }
    ensures { result ≡ four (λ i. slice_index values.now i * 2 ^ n % 2 ^ bits) }
{
    [
        shifted(values[0], n, bits),
        shifted(values[1], n, bits),
        shifted(values[2], n, bits),
        shifted(values[3], n, bits),
    ]
}

/// The value times 2^n, modulo 2^bits.
pub fn shifted(value: u32, n: u8, bits: u32) -> u32
    requires n { n < bits }
    requires bits { bits ≤ 32 }
    ensures { result ≡ value * 2 ^ n % 2 ^ bits }
{
    (u64::from(value) * power(u32::from(n)) % power(bits)) as u32
}

// Every value divided by 2^n, floored.
pub fn shifted_right(values: &[u32; 4], n: u8) -> [u32; 4]
    requires { n < 32 }
    ensures { result ≡ four (λ i. slice_index values.now i / 2 ^ n) }
{
    [
        values[0] >> n,
        values[1] >> n,
        values[2] >> n,
        values[3] >> n,
    ]
}

// Every value times a factor, modulo 2^bits.
pub fn multiplied(values: &[u32; 4], factor: u32, bits: u32) -> [u32; 4]
    requires { bits ≤ 32 }
    ensures { result ≡ four (λ i. slice_index values.now i * factor % 2 ^ bits) }
{
    [
        product_modulo(values[0], factor, bits),
        product_modulo(values[1], factor, bits),
        product_modulo(values[2], factor, bits),
        product_modulo(values[3], factor, bits),
    ]
}

/// The value times a factor, modulo 2^bits.
pub fn product_modulo(value: u32, factor: u32, bits: u32) -> u32
    requires { bits ≤ 32 }
    ensures { result ≡ value * factor % 2 ^ bits }
{
    (u64::from(value) * u64::from(factor) % power(bits)) as u32
}

// The first elements, as many as the planes have, and 0 for the others.
pub fn written(planes: &[u8; 4], values: &[u32; 4]) -> [u32; 4]
    ensures { result
        ≡ four (λ i. if nat_lt i (sum planes.now) then slice_index values.now i else 0) }
{
    let count = total(planes);
    [
        written_value(values[0], 0, count),
        written_value(values[1], 1, count),
        written_value(values[2], 2, count),
        written_value(values[3], 3, count),
    ]
}

fn written_value(value: u32, i: u32, count: u32) -> u32
    ensures { result ≡ (if nat_lt i count then value else 0) }
{
    if i < count { value } else { 0 }
}

// New value i is old value from[i].
pub fn swizzled_numbers(from: &[u8; 4], values: &[u32; 4]) -> [u32; 4]
    requires { All (λ i. i < 4) from.now }
    ensures { result ≡ four (λ i. slice_index values.now (slice_index from.now i)) }
{
    [
        values[usize::from(from[0])],
        values[usize::from(from[1])],
        values[usize::from(from[2])],
        values[usize::from(from[3])],
    ]
}
