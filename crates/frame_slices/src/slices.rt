// All slices of a frame, one after the other.
ghost use Rattle.std.specs.Prelude.{◌≡◌, ◌≢◌, ◌+◌, ◌<◌, ◌≤◌, ◌^◌, ◌++◌, ℕ, List, true, false, All, length};
ghost use Rattle.std.specs.Prelude.{map, sum, IfSome, IfOk, OnOk, OnErr};
ghost use Rattle.pix_desc.specs.Layouts.{IsValid};
ghost use Rattle.pix_io.specs.Faults.{HasCause};
ghost use Rattle.pix_io.specs.Streams.{Writes, WritesPart};
ghost use Rattle.frame_slices.specs.declared.frame_slice.FrameSlice.{FrameSlice};
ghost use Rattle.frame_slices.specs.FrameSlices.{place_of, rows_of, places_from};
ghost use Rattle.frame_slices.specs.FrameSlices.{plane_of, plane_in, planes_in, target_plane_in};
ghost use Rattle.frame_slices.specs.FrameSlices.{target_planes_in, behind_of, behind_in};
ghost use Rattle.frame_slices.specs.FrameSlices.{got_behind, count_in, source_in, HaveOnePalette};
ghost use Rattle.frame_slices.specs.FrameSlices.{Reads};
ghost use Rattle.frame_slices.specs.Handing.{part_in, front_in, IsPart, IfWhole, AreOfFrame};

use crate::frame_slice::{FrameSlice, Place, plane_at};
use pix_io::{Failed, Got, Sink, Source, frame_len, read_whole};

/// How a read ended that met the end of the input after so many bytes.
pub fn ended(filled: usize) -> Got
    ensures value { result ≡ got_behind filled Got.End }
    ensures count { count_in result ≤ filled }
{
    if filled == 0 {
        Got::End
    } else {
        Got::Short(filled)
    }
}

/// Reads a plane of the source, slice after slice.
pub fn read_plane<In: Source>(
    slices: &mut [FrameSlice],
    plane: u8,
    input: &mut In,
) -> Result<Got, Failed>
    requires plane { plane < 4 }
    requires few { length slices.old ≤ 16384 }
    ensures read { Reads (In.shown input.old) (In.shown input.new) result
        (plane_in plane slices.new) }
    ensures small { IfOk result (λ got. count_in got ≤ 2 ^ 50) }
    ensures others { (q : ℕ) → q < 4 → q ≢ plane → map (plane_of q) slices.new
        ≡ map (plane_of q) slices.old }
    ensures behind { map behind_of slices.new ≡ map behind_of slices.old }
    ensures places { map place_of slices.new ≡ map place_of slices.old }
{
    let mut filled = 0;
    for k in 0..slices.len() {
        match slices[k].read_plane(plane, input) {
            Ok(Got::Whole) => filled += slices[k].plane_len(plane),
            Ok(Got::End) => return Ok(ended(filled)),
            Ok(Got::Short(n)) => return Ok(Got::Short(filled + n)),
            Err(failed) => return Err(failed),
        }
    }
    Ok(Got::Whole)
}

// Writes a plane of the target, slice after slice.
fn write_plane<Out: Sink>(slices: &[FrameSlice], plane: u8, output: &mut Out) -> Result<(), Failed>
    requires { plane < 4 }
    ensures written { OnOk result
        (Writes (Out.shown output.old) (Out.shown output.new) (target_plane_in plane slices.now)) }
    ensures part_written { OnErr result
        (WritesPart (Out.shown output.old) (Out.shown output.new)
        (target_plane_in plane slices.now)) }
    ensures cause { HasCause (Out.shown output.old) (Out.shown output.new) result }
{
    for k in 0..slices.len() {
        match slices[k].write_plane(plane, output) {
            Ok(()) => {}
            Err(failed) => return Err(failed),
        }
    }
    Ok(())
}

/// Writes the planes of the target, plane after plane.
pub fn write_planes<Out: Sink>(slices: &[FrameSlice], output: &mut Out) -> Result<(), Failed>
    ensures written { OnOk result
        (Writes (Out.shown output.old) (Out.shown output.new) (target_planes_in 4 slices.now)) }
    ensures part_written { OnErr result
        (WritesPart (Out.shown output.old) (Out.shown output.new) (target_planes_in 4 slices.now)) }
    ensures cause { HasCause (Out.shown output.old) (Out.shown output.new) result }
{
    for plane in 0..4 {
        match write_plane(slices, plane, output) {
            Ok(()) => {}
            Err(failed) => return Err(failed),
        }
    }
    Ok(())
}

/// Sets the palettes of all slices to one of 1,024 bytes.
pub fn set_palettes(slices: &mut [FrameSlice], palette: &[u8])
    requires have { All (λ place. place.source.palette ≡ true) (map place_of slices.old) }
    requires size { length palette.now ≡ 1024 }
    ensures planes { (q : ℕ) → q < 4 → map (plane_of q) slices.new ≡ map (plane_of q) slices.old }
    ensures behind { map behind_of slices.new ≡ map (λ _. palette.now) slices.old }
    ensures places { map place_of slices.new ≡ map place_of slices.old }
{
    for k in 0..slices.len() {
        slices[k].set_palette(palette);
    }
}

/// Reads the first planes of the source, plane after plane.
pub fn read_planes<In: Source>(
    slices: &mut [FrameSlice],
    whole: &Place,
    count: u8,
    input: &mut In,
) -> Result<Got, Failed>
    requires count { count ≤ 4 }
    requires few { length slices.old ≤ 16384 }
    requires places { map place_of slices.old
        ≡ places_from whole.now.source whole.now.target whole.now.width 0 (map rows_of slices.old) }
    requires covers { sum (map rows_of slices.old) ≡ whole.now.rows }
    requires source { IsValid whole.now.source }
    requires width { whole.now.width ≤ 16384 }
    requires some { 0 < whole.now.rows }
    requires rows { whole.now.rows ≤ 16384 }
    ensures read { Reads (In.shown input.old) (In.shown input.new) result
        (planes_in count slices.new) }
    ensures small { IfOk result (λ got. count_in got ≤ 2 ^ 52) }
    ensures behind { map behind_of slices.new ≡ map behind_of slices.old }
    ensures places { map place_of slices.new ≡ map place_of slices.old }
{
    for plane in 0..count {
        let filled = plane_at(&whole.source, whole.width, whole.rows, plane);
        match read_plane(slices, plane, input) {
            Ok(Got::Whole) => {}
            Ok(Got::End) => return Ok(ended(filled)),
            Ok(Got::Short(n)) => return Ok(Got::Short(filled + n)),
            Err(failed) => return Err(failed),
        }
    }
    Ok(Got::Whole)
}

// Reads the palette, which all slices then have.
fn read_palette<In: Source>(slices: &mut [FrameSlice], input: &mut In) -> Result<Got, Failed>
    requires some { 0 < length slices.old }
    requires have { All (λ place. place.source.palette ≡ true) (map place_of slices.old) }
    ensures read { Reads (In.shown input.old) (In.shown input.new) result (behind_in slices.new) }
    ensures small { IfOk result (λ got. count_in got ≤ 1024) }
    ensures planes { planes_in 4 slices.new ≡ planes_in 4 slices.old }
    ensures behind { HaveOnePalette slices.new }
    ensures places { map place_of slices.new ≡ map place_of slices.old }
{
    let mut palette = [0u8; 1024];
    let read = read_whole(input, &mut palette);
    set_palettes(slices, &palette);
    read
}

// Reads the planes of the source, and its palette where it has one.
fn read_bytes<In: Source>(
    slices: &mut [FrameSlice],
    whole: &Place,
    input: &mut In,
) -> Result<Got, Failed>
    requires few { length slices.old ≤ 16384 }
    requires filled { 0 < length slices.old }
    requires places { map place_of slices.old
        ≡ places_from whole.now.source whole.now.target whole.now.width 0 (map rows_of slices.old) }
    requires covers { sum (map rows_of slices.old) ≡ whole.now.rows }
    requires source { IsValid whole.now.source }
    requires width { whole.now.width ≤ 16384 }
    requires some { 0 < whole.now.rows }
    requires rows { whole.now.rows ≤ 16384 }
    ensures read { Reads (In.shown input.old) (In.shown input.new) result
        (planes_in 4 slices.new ++ behind_in slices.new) }
    ensures behind { IfWhole result (HaveOnePalette slices.new) }
    ensures places { map place_of slices.new ≡ map place_of slices.old }
{
    match read_planes(slices, whole, 4, input) {
        Ok(Got::Whole) => {}
        Ok(Got::End) => return Ok(Got::End),
        Ok(Got::Short(n)) => return Ok(Got::Short(n)),
        Err(failed) => return Err(failed),
    }
    if !whole.source.palette {
        return Ok(Got::Whole);
    }
    let filled = plane_at(&whole.source, whole.width, whole.rows, 4);
    match read_palette(slices, input) {
        Ok(Got::Whole) => Ok(Got::Whole),
        Ok(Got::End) => Ok(ended(filled)),
        Ok(Got::Short(n)) => Ok(Got::Short(filled + n)),
        Err(failed) => Err(failed),
    }
}

// Reads a frame: the planes of the source, and its palette where it has one.
fn read_frame<In: Source>(
    slices: &mut [FrameSlice],
    whole: &Place,
    input: &mut In,
) -> Result<Got, Failed>
    requires few { length slices.old ≤ 16384 }
    requires filled { 0 < length slices.old }
    requires places { map place_of slices.old
        ≡ places_from whole.now.source whole.now.target whole.now.width 0 (map rows_of slices.old) }
    requires covers { sum (map rows_of slices.old) ≡ whole.now.rows }
    requires source { IsValid whole.now.source }
    requires width { whole.now.width ≤ 16384 }
    requires some { 0 < whole.now.rows }
    requires rows { whole.now.rows ≤ 16384 }
    ensures read { Reads (In.shown input.old) (In.shown input.new) result
        (source_in whole.now slices.new) }
    ensures behind { IfWhole result (HaveOnePalette slices.new) }
    ensures places { map place_of slices.new ≡ map place_of slices.old }
{
    read_bytes(slices, whole, input)
}

// Whether no slice has rows of a plane.
fn is_bare(slices: &[FrameSlice], plane: u8) -> bool
    requires { plane < 4 }
    ensures { result ≡ true → All (λ slice. length (plane_of plane slice) ≡ 0) slices.now }
{
    for k in 0..slices.len() {
        if slices[k].plane_len(plane) != 0 {
            return false;
        }
    }
    true
}

// The last plane of which slices have rows.
fn last_plane(slices: &[FrameSlice]) -> u8
    ensures plane { result < 4 }
    ensures last { (q : ℕ) → result < q → q < 4
        → All (λ slice. length (plane_of q slice) ≡ 0) slices.now }
{
    if !is_bare(slices, 3) {
        return 3;
    }
    if !is_bare(slices, 2) {
        return 2;
    }
    if !is_bare(slices, 1) {
        return 1;
    }
    0
}

/// What is read of each slice last, while others are converted: the rows of the last plane, or
/// nothing where a palette stands behind the planes, which each slice needs.
pub fn last_part(slices: &[FrameSlice], whole: &Place) -> Option<u8>
    requires places { map place_of slices.now
        ≡ places_from whole.now.source whole.now.target whole.now.width 0 (map rows_of slices.now) }
    ensures part { IsPart result }
    ensures bare { IfSome result (λ _. whole.now.source.palette ≡ false) }
    ensures splits { (all : List FrameSlice) → map place_of all ≡ map place_of slices.now
        → source_in whole.now all ≡ front_in whole.now result all ++ part_in result all }
{
    if whole.source.palette {
        return None;
    }
    Some(last_plane(slices))
}

/// How many bytes of a frame are read before the part.
pub fn front_len(whole: &Place, part: Option<u8>) -> usize
    requires part { IsPart part }
    requires source { IsValid whole.now.source }
    requires width { whole.now.width ≤ 16384 }
    requires some { 0 < whole.now.rows }
    requires rows { whole.now.rows ≤ 16384 }
    ensures value { (all : List FrameSlice) → AreOfFrame whole.now all
        → result ≡ length (front_in whole.now part all) }
    ensures small { result ≤ 2 ^ 34 }
{
    match part {
        Some(plane) => plane_at(&whole.source, whole.width, whole.rows, plane),
        None => frame_len(&whole.source, whole.width, whole.rows) as usize,
    }
}

/// Reads what is read before the part.
pub fn read_front<In: Source>(
    slices: &mut [FrameSlice],
    whole: &Place,
    part: Option<u8>,
    input: &mut In,
) -> Result<Got, Failed>
    requires part { IsPart part }
    requires bare { IfSome part (λ _. whole.now.source.palette ≡ false) }
    requires few { length slices.old ≤ 16384 }
    requires filled { 0 < length slices.old }
    requires places { map place_of slices.old
        ≡ places_from whole.now.source whole.now.target whole.now.width 0 (map rows_of slices.old) }
    requires covers { sum (map rows_of slices.old) ≡ whole.now.rows }
    requires source { IsValid whole.now.source }
    requires width { whole.now.width ≤ 16384 }
    requires some { 0 < whole.now.rows }
    requires rows { whole.now.rows ≤ 16384 }
    ensures read { Reads (In.shown input.old) (In.shown input.new) result
        (front_in whole.now part slices.new) }
    ensures behind { IfWhole result (HaveOnePalette slices.new) }
    ensures places { map place_of slices.new ≡ map place_of slices.old }
{
    match part {
        Some(plane) => read_planes(slices, whole, plane, input),
        None => read_frame(slices, whole, input),
    }
}
