// Reports: what is put out by a run that reads nothing.
ghost use Rattle.std.specs.Prelude.{◌≡◌, IfOk, string_bytes};
ghost use Rattle.op_build.specs.Recipe.{recipe};
ghost use Rattle.op_opt.specs.Normal.{normal};
ghost use Rattle.op_text.specs.Line.{text_of};
ghost use Rattle.sws_run.specs.Report.{report_text, report_frames};
ghost use Rattle.sws_run.specs.Request.{IsSoundReport, IsTablePair};

use crate::format_list::list_text;
use crate::making::sum_text;
use crate::planning::plan_of;
use crate::request::Report;
use frac_math::OutOfMemory;
use frame_slices::Gate;
use pix_meaning::Pair;
use std::alloc::Global;
use std::sync::Wait;
use std::thread::Threads;

// The text of the normal list of a pair.
fn list_of_operations(alloc: Global, pair: &Pair) -> Result<String, OutOfMemory>
    requires { IsTablePair pair.now }
    ensures { IfOk result (λ text. string_bytes text ≡ text_of (normal (recipe pair.now))) }
{
    let plan = plan_of(alloc, pair)?;
    Ok(String::from_str(alloc, plan.text())?)
}

/// The text of a report.
pub fn report_text<R: Threads + Wait + Sync, G: Gate>(
    rt: &R,
    alloc: Global,
    report: &Report,
    gate: &G,
) -> Result<String, OutOfMemory>
    requires { IsSoundReport report.now }
    ensures { IfOk result (λ text. string_bytes text ≡ report_text report.now) }
{
    match report {
        Report::List => list_text(alloc),
        Report::Ops(pair) => list_of_operations(alloc, pair),
        Report::Generate(making) => sum_text(rt, alloc, making, gate),
    }
}

/// How many frames a report is made of.
pub fn report_frames(report: &Report) -> u32
    ensures { result ≡ report_frames report.now }
{
    match report {
        Report::List | Report::Ops(_) => 0,
        Report::Generate(_) => 4,
    }
}
