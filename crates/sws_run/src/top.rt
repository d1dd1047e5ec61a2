// The run of the program, from its words to its ending.
ghost use Rattle.std.specs.Prelude.{◌≡◌, map, string_bytes, Ok, Err};
ghost use Rattle.pix_io.specs.Shown.{Shown};
ghost use Rattle.sws_run.specs.Request.{asked_by, IsSoundReport};
ghost use Rattle.sws_run.specs.Run.{GivesAnswer, GivesReadFault, GivesWriteFault, GivesOutOfMemory};
ghost use Rattle.sws_run.specs.Run.{GivesNotes, IsComplete};

use crate::Ended;
use crate::convert::convert;
use crate::notes_line::notes_line;
use crate::report::{report_frames, report_text};
use crate::request::{Report, Request, request_of};
use frame_slices::Gate;
use pix_io::{Sink, Source, write_all};
use std::alloc::Global;
use std::sync::Wait;
use std::thread::Threads;
use sws_words::{WordsEnd, read_words};

// Writes a report.
fn write_report<R: Threads + Wait + Sync, Out: Sink, G: Gate>(
    rt: &R,
    alloc: Global,
    report: &Report,
    output: &mut Out,
    gate: &G,
) -> Ended
    requires { IsSoundReport report.now }
    ensures answer { (source : Shown) → GivesAnswer (Ok (Request.Report report.now)) source source
        (Out.shown output.old)
        (Out.shown output.new) result }
    ensures read_fault { (source : Shown) → GivesReadFault (Ok (Request.Report report.now))
        source source
        (Out.shown output.old)
        (Out.shown output.new) result }
    ensures write_fault { (source : Shown) → GivesWriteFault (Ok (Request.Report report.now))
        source source
        (Out.shown output.old)
        (Out.shown output.new) result }
    ensures memory { (source : Shown) → GivesOutOfMemory (Ok (Request.Report report.now))
        source source
        (Out.shown output.old)
        (Out.shown output.new) result }
    ensures complete { (source : Shown) → IsComplete source source (Out.shown output.old)
        (Out.shown output.new) result }
{
    let Ok(text) = report_text(rt, alloc, report, gate) else {
        return Ended::OutOfMemory { frames: 0 };
    };
    match write_all(output, text.as_bytes()) {
        Ok(()) => Ended::Done {
            frames: report_frames(report),
        },
        Err(_) => Ended::WriteFault { frames: 0 },
    }
}

// Does what the words ask for.
fn run_words<R: Threads + Wait + Sync, In: Source, Out: Sink, G: Gate>(
    rt: &R,
    alloc: Global,
    words: &[String],
    input: &mut In,
    output: &mut Out,
    gate: &G,
) -> Ended
    ensures answer { GivesAnswer (asked_by (map string_bytes words.now)) (In.shown input.old)
        (In.shown input.new) (Out.shown output.old) (Out.shown output.new) result }
    ensures read_fault { GivesReadFault (asked_by (map string_bytes words.now)) (In.shown input.old)
        (In.shown input.new) (Out.shown output.old) (Out.shown output.new) result }
    ensures write_fault { GivesWriteFault (asked_by (map string_bytes words.now))
        (In.shown input.old)
        (In.shown input.new) (Out.shown output.old) (Out.shown output.new) result }
    ensures memory { GivesOutOfMemory (asked_by (map string_bytes words.now)) (In.shown input.old)
        (In.shown input.new) (Out.shown output.old) (Out.shown output.new) result }
    ensures complete { IsComplete (In.shown input.old) (In.shown input.new) (Out.shown output.old)
        (Out.shown output.new) result }
{
    let task = match read_words(alloc, words) {
        Ok(task) => task,
        Err(WordsEnd::Usage(fault)) => return Ended::Usage(fault),
        Err(WordsEnd::OutOfMemory) => return Ended::OutOfMemory { frames: 0 },
    };
    match request_of(&task) {
        Ok(Request::Convert(conversion)) => convert(rt, alloc, &conversion, input, output, gate),
        Ok(Request::Report(report)) => write_report(rt, alloc, &report, output, gate),
        Err(refusal) => refusal,
    }
}

/// Runs the converter on the words after the program's name: converts a stream of frames from the
/// input to the output, or writes a report. The line of the ending is written to
/// `notes`, whose faults change nothing else.
///
/// The six clauses are records in `specs/Run.antt`.
pub fn run_sws<R: Threads + Wait + Sync, In: Source, Out: Sink, Notes: Sink, G: Gate>(
    rt: &R,
    alloc: Global,
    words: &[String],
    input: &mut In,
    output: &mut Out,
    notes: &mut Notes,
    gate: &G,
) -> Ended
    ensures answer { GivesAnswer (asked_by (map string_bytes words.now)) (In.shown input.old)
        (In.shown input.new) (Out.shown output.old) (Out.shown output.new) result }
    ensures read_fault { GivesReadFault (asked_by (map string_bytes words.now)) (In.shown input.old)
        (In.shown input.new) (Out.shown output.old) (Out.shown output.new) result }
    ensures write_fault { GivesWriteFault (asked_by (map string_bytes words.now))
        (In.shown input.old)
        (In.shown input.new) (Out.shown output.old) (Out.shown output.new) result }
    ensures memory { GivesOutOfMemory (asked_by (map string_bytes words.now)) (In.shown input.old)
        (In.shown input.new) (Out.shown output.old) (Out.shown output.new) result }
    ensures notes { GivesNotes (Notes.shown notes.old) (Notes.shown notes.new) result }
    ensures complete { IsComplete (In.shown input.old) (In.shown input.new) (Out.shown output.old)
        (Out.shown output.new) result }
{
    let ended = run_words(rt, alloc, words, input, output, gate);
    write_notes(notes, &ended);
    ended
}

// Writes the line of an ending. That it fails changes nothing else.
fn write_notes<Notes: Sink>(notes: &mut Notes, ended: &Ended)
    ensures { GivesNotes (Notes.shown notes.old) (Notes.shown notes.new) ended.now }
{
    let mut room = [0; 128];
    let line = notes_line(ended, &mut room);
    let _written = write_all(notes, line);
}
