// Some rows of a frame, held as raw frames of their own.
ghost use Rattle.std.specs.Prelude.{◌≡◌, ◌≢◌, ◌+◌, ◌<◌, ◌≤◌, ◌^◌, ℕ, false, true, vec_len, length};
ghost use Rattle.std.specs.Prelude.{replicate, OnOk, OnErr, IfOk};
ghost use Rattle.std.proofs.Props.{props};
ghost use Rattle.pix_desc.specs.Layouts.{IsValid};
ghost use Rattle.pix_desc.specs.Frame.{frame_length, plane_start, plane_length};

use frac_math::OutOfMemory;
use pix_desc::Desc;
use pix_io::{Failed, Got, Sink, Source, frame_len, read_whole, row_start, write_all};
use std::alloc::Global;

/// Where some rows of a frame lie.
#[derive(Clone, Copy, Debug, PartialEq, Eq)]
pub struct Place {
    /// What describes the source.
    pub source: Desc,
    /// What describes the target, which has no palette.
    pub target: Desc,
    /// In pixels, at most 16,384.
    pub width: u32,
    /// The row of the whole frame at which they begin.
    pub first: u32,
    /// How many there are, at least one.
    pub rows: u32,
}

/// Some rows of a frame: a raw frame of the source, with the whole palette where it has one, and a
/// raw frame of the target.
#[derive(Drop)]
pub struct FrameSlice {
    pub(crate) place: Place,
    pub(crate) input: Vec<u8>,
    pub(crate) output: Vec<u8>,
    pub ghost source: { IsValid place.source } by { Prim.hlevel props },
    pub ghost target: { IsValid place.target } by { Prim.hlevel props },
    pub ghost plain: { place.target.palette ≡ false },
    pub ghost width: { place.width ≤ 16384 },
    pub ghost some: { 0 < place.rows },
    pub ghost last: { place.first + place.rows ≤ 16384 },
    pub ghost input_size: { vec_len input ≡ frame_length place.source place.width place.rows },
    pub ghost output_size: { vec_len output ≡ frame_length place.target place.width place.rows },
}

// Where a plane begins in a raw frame, and for plane 4 where the planes end.
#[tactic(auto, unfolding(pix_desc::specs::Frame::frame_length, pix_desc::specs::Frame::row_start))]
pub fn plane_at(desc: &Desc, width: u32, rows: u32, plane: u8) -> usize
    requires valid { IsValid desc.now }
    requires width { width ≤ 16384 }
    requires some { 0 < rows }
    requires rows { rows ≤ 16384 }
    requires plane { plane ≤ 4 }
    ensures value { result ≡ plane_start desc.now width rows plane }
    ensures inside { result ≤ frame_length desc.now width rows }
    ensures small { result ≤ 2 ^ 34 }
{
    let all = frame_len(desc, width, rows) as usize;
    if plane < 4 {
        return row_start(desc, width, rows, plane, 0) as usize;
    }
    if desc.palette { all - 1024 } else { all }
}

impl FrameSlice {
    ghost use Rattle.pix_io.specs.Faults.{HasCause};
    ghost use Rattle.pix_io.specs.Streams.{Writes, WritesPart};
    ghost use Rattle.frame_slices.specs.FrameSlices.{plane_of, target_plane_of, behind_of, Reads};

    /// The slice at a place, with all bytes 0.
    pub fn new(alloc: Global, place: &Place) -> Result<Self, OutOfMemory>
        requires source { IsValid place.now.source }
        requires target { IsValid place.now.target }
        requires plain { place.now.target.palette ≡ false }
        requires width { place.now.width ≤ 16384 }
        requires some { 0 < place.now.rows }
        requires last { place.now.first + place.now.rows ≤ 16384 }
        ensures place { IfOk result (λ slice. slice.place ≡ place.now) }
        ensures zeros { IfOk result (λ slice. slice.input.items
            ≡ replicate (vec_len slice.input) 0) }
    {
        let input = frame_len(&place.source, place.width, place.rows) as usize;
        let output = frame_len(&place.target, place.width, place.rows) as usize;
        Ok(FrameSlice {
            place: *place,
            input: vec![in alloc; 0u8; input]?,
            output: vec![in alloc; 0u8; output]?,
        })
    }

    // How many bytes a plane of the source has.
    pub(crate) fn plane_len(&self, plane: u8) -> usize
        requires { plane < 4 }
        ensures value { result ≡ length (plane_of plane self.now) }
        ensures small { result ≤ 2 ^ 34 }
    {
        let place = &self.place;
        let start = plane_at(&place.source, place.width, place.rows, plane);
        plane_at(&place.source, place.width, place.rows, plane + 1) - start
    }

    // Reads a plane of the source.
    pub(crate) fn read_plane<In: Source>(
        &mut self,
        plane: u8,
        input: &mut In,
    ) -> Result<Got, Failed>
        requires { plane < 4 }
        ensures read { Reads (In.shown input.old) (In.shown input.new) result
            (plane_of plane self.new) }
        ensures small { length (plane_of plane self.new) ≤ 2 ^ 34 }
        ensures others { (q : ℕ) → q < 4 → q ≢ plane → plane_of q self.new ≡ plane_of q self.old }
        ensures behind { behind_of self.new ≡ behind_of self.old }
        ensures place { self.new.place ≡ self.old.place }
    {
        let place = self.place;
        let start = plane_at(&place.source, place.width, place.rows, plane);
        let end = plane_at(&place.source, place.width, place.rows, plane + 1);
        if start == end {
            return Ok(Got::Whole);
        }
        read_whole(input, &mut self.input[start..end])
    }

    // A plane of the target.
    pub(crate) fn target_plane(&self, plane: u8) -> &[u8]
        requires { plane < 4 }
        ensures value { result.now ≡ target_plane_of plane self.now }
        ensures small { length result.now ≤ 2 ^ 34 }
    {
        let place = &self.place;
        let start = plane_at(&place.target, place.width, place.rows, plane);
        let end = plane_at(&place.target, place.width, place.rows, plane + 1);
        &self.output[start..end]
    }

    // Writes a plane of the target.
    pub(crate) fn write_plane<Out: Sink>(&self, plane: u8, output: &mut Out) -> Result<(), Failed>
        requires { plane < 4 }
        ensures written { OnOk result
            (Writes (Out.shown output.old) (Out.shown output.new)
            (target_plane_of plane self.now)) }
        ensures part_written { OnErr result
            (WritesPart (Out.shown output.old) (Out.shown output.new)
            (target_plane_of plane self.now)) }
        ensures cause { HasCause (Out.shown output.old) (Out.shown output.new) result }
    {
        write_all(output, self.target_plane(plane))
    }

    // Sets the palette, which has 1,024 bytes.
    pub(crate) fn set_palette(&mut self, palette: &[u8])
        requires has { self.old.place.source.palette ≡ true }
        requires size { length palette.now ≡ 1024 }
        ensures planes { (q : ℕ) → q < 4 → plane_of q self.new ≡ plane_of q self.old }
        ensures behind { behind_of self.new ≡ palette.now }
        ensures place { self.new.place ≡ self.old.place }
    {
        let place = self.place;
        let start = plane_at(&place.source, place.width, place.rows, 4);
        self.input[start..].copy_from_slice(palette);
    }
}
