// A frame held as slices of its rows.
ghost use Rattle.std.specs.Prelude.{◌≡◌, ◌+◌, ◌<◌, ◌≤◌, ◌^◌, false, sum, map, vec_len, IfOk, IfErr, OnOk};
ghost use Rattle.std.specs.Prelude.{OnErr};
ghost use Rattle.std.specs.Coded.{Coded-set};
ghost use Rattle.std.proofs.Props.{props};
ghost use Rattle.pix_desc.specs.Layouts.{IsValid};
ghost use Rattle.frame_slices.specs.FrameSlices.{place_of, rows_of, places_from};

use crate::converting::convert_frame;
use crate::cutting::cut;
use crate::frame_slice::{FrameSlice, Place};
use crate::gate::Gate;
use crate::slices::write_planes;
use crate::sums::sum_planes;
use crate::unfinished::Unfinished;
use frac_math::OutOfMemory;
use pix_desc::Desc;
use pix_io::{Failed, Sink, Source};
use row_plan::Plan;
use std::alloc::Global;
use std::sync::Wait;
use std::thread::Threads;

/// A frame held as slices of its rows: of each the bytes of the source and those of the target.
/// They serve one frame after the other, and no whole frame stands beside them.
#[derive(Drop)]
pub struct SlicedFrame {
    /// All rows of the frame.
    pub(crate) whole: Place,
    pub(crate) slices: Vec<FrameSlice>,
    pub ghost source: { IsValid whole.source } by { Prim.hlevel props },
    pub ghost target: { IsValid whole.target } by { Prim.hlevel props },
    pub ghost plain: { whole.target.palette ≡ false },
    pub ghost width: { whole.width ≤ 16384 },
    pub ghost height: { whole.rows ≤ 16384 },
    pub ghost tall: { 0 < whole.rows },
    pub ghost some: { 0 < vec_len slices },
    pub ghost few: { vec_len slices ≤ 16384 },
    pub ghost places: { map place_of slices.items
        ≡ places_from whole.source whole.target whole.width 0 (map rows_of slices.items) },
    pub ghost covers: { sum (map rows_of slices.items) ≡ whole.rows },
}

impl SlicedFrame {
    ghost use Rattle.pix_desc.specs.Frame.{frame_length};
    ghost use Rattle.pix_io.specs.Faults.{HasCause};
    ghost use Rattle.pix_io.specs.Streams.{Writes, WritesPart};
    ghost use Rattle.frame_slices.specs.FrameSlices.{target_in, AreCut};
    ghost use Rattle.frame_slices.specs.Converting.{ConvertsNext, LeavesOff};

    /// The slices of a frame of that size, each of `slice_height` rows, the last one shorter where
    /// it must be.
    pub fn new(
        alloc: Global,
        source: &Desc,
        target: &Desc,
        width: u32,
        height: u32,
        slice_height: u32,
    ) -> Result<Self, OutOfMemory>
        requires source { IsValid source.now }
        requires target { IsValid target.now }
        requires plain { target.now.palette ≡ false }
        requires width { width ≤ 16384 }
        requires some { 0 < height }
        requires height { height ≤ 16384 }
        requires slice_height { 0 < slice_height }
        ensures source { IfOk result (λ frame. frame.whole.source ≡ source.now) }
        ensures target { IfOk result (λ frame. frame.whole.target ≡ target.now) }
        ensures width { IfOk result (λ frame. frame.whole.width ≡ width) }
        ensures height { IfOk result (λ frame. frame.whole.rows ≡ height) }
        ensures slices { IfOk result (λ frame. AreCut frame.whole slice_height frame.slices.items) }
    {
        let whole = Place {
            source: *source,
            target: *target,
            width,
            first: 0,
            rows: height,
        };
        let slices = cut(alloc, &whole, slice_height)?;
        Ok(SlicedFrame { whole, slices })
    }

    /// Reads the next frame of the input straight into the slices, plane after plane, and its palette
    /// where it has one, and converts it. So many workers, and no more than there are slices, claim
    /// the slices on a board; each waits until its slice is read, passes the gate with it, and
    /// converts it. The caller's thread reads, and then works too.
    ///
    /// One worker, or one slice, costs no thread, and the bytes are the same for every number of
    /// workers. Memory is taken before the last plane is read; where it is refused, or where the
    /// read stops, the frame is dropped. `Failed` comes only where the input's count of faults
    /// rises; fewer bytes than the frame has were then taken.
    pub fn convert_next<R: Threads + Wait + Sync, In: Source, G: Gate>(
        self,
        rt: &R,
        alloc: Global,
        plan: &Plan,
        workers: u32,
        gate: &G,
        input: &mut In,
    ) -> Result<Self, Unfinished>
        requires source { plan.now.pair.from.desc ≡ self.whole.source }
        requires target { plan.now.pair.to.desc ≡ self.whole.target }
        requires workers { 0 < workers }
        ensures converted { IfOk result (λ frame. ConvertsNext plan.now.pair self.whole.width
            self.whole.rows (In.shown input.old) (In.shown input.new)
            (target_in frame.whole frame.slices.items)) }
        ensures left { IfErr result (LeavesOff (frame_length self.whole.source self.whole.width
            self.whole.rows) (In.shown input.old) (In.shown input.new)) }
        ensures whole { IfOk result (λ frame. frame.whole ≡ self.whole) }
    {
        let SlicedFrame { whole, slices } = self;
        match convert_frame(rt, alloc, plan, workers, gate, &whole, slices, input) {
            Ok(slices) => Ok(SlicedFrame { whole, slices }),
            Err(why) => Err(why),
        }
    }

    /// Writes the target frame straight from the slices.
    ///
    /// `Failed` comes only where the output's count of faults rises; a front of the frame, shorter
    /// than it, was then written.
    pub fn write<Out: Sink>(&self, output: &mut Out) -> Result<(), Failed>
        ensures written { OnOk result
            (Writes (Out.shown output.old) (Out.shown output.new)
            (target_in self.now.whole self.now.slices.items)) }
        ensures part_written { OnErr result
            (WritesPart (Out.shown output.old) (Out.shown output.new)
            (target_in self.now.whole self.now.slices.items)) }
        ensures cause { HasCause (Out.shown output.old) (Out.shown output.new) result }
    {
        write_planes(&self.slices, output)
    }

    /// The sum of the bytes of the target frame.
    pub fn sum(&self) -> u64
        ensures { result ≡ sum (target_in self.now.whole self.now.slices.items) }
    {
        sum_planes(&self.slices)
    }
}

#[cfg(test)]
mod tests;
