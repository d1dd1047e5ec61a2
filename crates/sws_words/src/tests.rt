// Lines of words, with what a reference that was written apart from this program makes of them.
use crate::UsageFault::{
    FixedRange, Missing, NotStreamFormat, RgbRange, Size, Unwanted, Value, Words,
};
use crate::{Convert, Form, Generate, Named, Sides, Task, UsageFault, WordsEnd, read_words};
use colour_matrix::{Matrix, Range, named};
use desc_table::find;
use std::alloc::{AllocError, Global};
use std::process::Abort;
use std::test::Fail;

// What the words between single spaces ask for.
fn read(alloc: Global, line: &str) -> Result<Result<Task, WordsEnd>, AllocError> {
    let mut words = Vec::new(alloc);
    for word in line.split(' ') {
        words.push(String::from_str(alloc, word)?)?;
    }
    Ok(read_words(alloc, &words))
}

// Each line breaks this rule first.
fn refuses<R: Abort>(
    rt: &R,
    alloc: Global,
    fault: UsageFault,
    lines: &[&str],
) -> Result<(), AllocError> {
    for line in lines {
        let expected = Err(WordsEnd::Usage(fault));
        assert_eq!(rt; read(alloc, line)?, expected, "{line}");
    }
    Ok(())
}

#[test]
fn refuses_words(rt: HostRuntime) -> Result<(), Fail> {
    let lines = [
        "--colour red",
        "stray",
        "--in gray --in rgb24 --out gray --size 1x1",
        "--in gray --in=gray --out gray --size 1x1",
        "--in gray --size 1x1 --out",
        "--out -x --in gray --size 1x1",
        "--out -- --in gray --size 1x1",
        "-x",
        "---out",
        "--=x",
        "--help",
        "--version",
        "--ou gray",
        "--in gray --out gray --size 1x1 -- x",
        "--in gray --out gray --size 1x1 -",
        "--task paint --colour red",
    ];
    refuses(&rt, rt.alloc(), Words, &lines)?;
    Ok(())
}

#[test]
fn refuses_options(rt: HostRuntime) -> Result<(), Fail> {
    let alloc = rt.alloc();
    let unknown = ["--task paint", "--task Ops", "--task generated", "--task="];
    refuses(&rt, alloc, UsageFault::Task, &unknown)?;
    let missing = [
        "--task convert",
        "--in gray --size 1x1",
        "--in gray --out gray",
        "--out gray --size 1x1",
        "--from y4m",
        "--from y4m --seed 1",
        "--seed 1 --in gray --size 1x1",
        "--task ops --in gray",
        "--task ops --out gray --workers 1",
        "--task generate --in gray --out gray",
        "--task generate --in gray --seed 1",
    ];
    refuses(&rt, alloc, Missing, &missing)?;
    let unwanted = [
        "--in gray --out gray --size 1x1 --seed 1",
        "--in gray --out gray --size 1x1 --seed 1 --dither 9",
        "--task list --out gray",
        "--task list --workers 1",
        "--task list --size 1x1",
        "--from y4m --in gray --out gray",
        "--from y4m --size 1x1 --out gray",
        "--task ops --in gray --out gray --workers 1",
        "--task ops --in gray --out gray --seed 1",
        "--task ops --in gray --out gray --size 1x1",
        "--task ops --in gray --out gray --to raw",
        "--task ops --from y4m --in gray --out gray --dither 9",
        "--task generate --in gray --out gray --seed 1 --size 1x1",
        "--task generate --in gray --out gray --seed x --from raw",
    ];
    refuses(&rt, alloc, Unwanted, &unwanted)?;
    Ok(())
}

#[test]
fn refuses_values(rt: HostRuntime) -> Result<(), Fail> {
    let alloc = rt.alloc();
    let values = [
        "--from foo --in gray --out gray --size 1x1",
        "--to foo --in gray --out gray --size 1x1",
        "--in gray --out gray --size 1x1 --in-matrix bt602",
        "--in gray --out gray --size 1x1 --out-matrix=",
        "--in gray --out gray --size 1x1 --in-range Full",
        "--in gray --out gray --size 1x1 --out-range none",
        "--in gray --out gray --size 1x1 --dither 5",
        "--in gray --out gray --size 1x1 --dither 000000000000000000004",
        "--in gray --out gray --size 1x1 --dither +1",
        "--in gray --out gray --size 1x1 --dither=",
        "--in gray --out gray --size 1x1 --workers 0",
        "--in gray --out gray --size 1x1 --workers 65",
        "--in gray --out gray --size 1x1 --slice 0",
        "--in gray --out gray --size 1x1 --slice 16385",
        "--in gray --out gray --size 1",
        "--in gray --out gray --size 1x",
        "--in gray --out gray --size x1",
        "--in gray --out gray --size 1x1x1",
        "--in gray --out gray --size 1X1",
        "--in gray --out gray --size 000000000000000000001x1",
        "--in gray --out gray --size 0x0 --dither 9",
        "--task ops --in gray --out gray --dither 5",
        "--task generate --in gray --out gray --seed 18446744073709551616",
        "--task generate --in gray --out gray --seed 1 --workers 0",
    ];
    refuses(&rt, alloc, Value, &values)?;
    let sizes = [
        "--in gray --out gray --size 0x1",
        "--in gray --out gray --size 1x0",
        "--in gray --out gray --size 16385x1",
        "--in gray --out gray --size 1x16385",
        "--in gray --out gray --size 16384x2049",
        "--in gray --out gray --size 99999999999999999999x1",
        "--in gray --out yuvj444p --size 0x1 --out-range limited",
    ];
    refuses(&rt, alloc, Size, &sizes)?;
    Ok(())
}

#[test]
fn refuses_sides(rt: HostRuntime) -> Result<(), Fail> {
    let alloc = rt.alloc();
    let fixed = [
        "--in gray --out yuvj444p --size 1x1 --out-range limited",
        "--in yuvj444p --out gray --size 1x1 --in-range limited",
        "--in yuvj444p --out rgb24 --size 1x1 --in-range limited --out-range limited",
        "--in rgb24 --out yuvj444p --size 1x1 --in-range limited --out-range limited",
        "--task ops --in yuvj444p --out gray --in-range limited",
    ];
    refuses(&rt, alloc, FixedRange, &fixed)?;
    let rgb = [
        "--in gray --out rgb24 --size 1x1 --out-range limited",
        "--in pal8 --out gray --size 1x1 --in-range limited",
        "--in gray --out rgb24 --size 1x1 --out-range limited --to y4m",
        "--task generate --in pal8 --out gray --seed 0 --in-range limited",
    ];
    refuses(&rt, alloc, RgbRange, &rgb)?;
    let forms = [
        "--in gray --out rgb24 --size 1x1 --to y4m",
        "--in gray --out gray14le --size 1x1 --to y4m",
        "--in gray --out pal8 --size 1x1 --to y4m",
    ];
    refuses(&rt, alloc, NotStreamFormat, &forms)?;
    Ok(())
}

fn matrix<R: Abort>(rt: &R, name: &str) -> Matrix {
    named(name).expect(rt, "a matrix")
}

fn side<R: Abort>(rt: &R, format: &str, matrix_name: &str, range: Option<Range>) -> Named {
    Named {
        format: find(format),
        matrix: matrix(rt, matrix_name),
        range,
    }
}

// One pixel of gray to this format, where nothing else is given.
fn from_gray<R: Abort>(rt: &R, target: &str) -> Convert {
    Convert {
        source: Some(side(rt, "gray", "bt601", None)),
        source_matrix: matrix(rt, "bt601"),
        source_range: None,
        width: 1,
        height: 1,
        source_form: Form::Raw,
        target: side(rt, target, "bt601", None),
        target_form: Form::Raw,
        dither: 0,
        workers: 1,
        slice: 16,
    }
}

#[test]
fn takes_defaults(rt: HostRuntime) -> Result<(), Fail> {
    let lines = [
        "--in gray --out gray --size 1x1",
        "--in gray --out gray --size 1x1 --",
        "--in=gray --out=gray --size=1x1",
        "--task convert --size 1x1 --out gray --in gray",
    ];
    for line in lines {
        let expected = Ok(Task::Convert(from_gray(&rt, "gray")));
        assert_eq!(rt; read(rt.alloc(), line)?, expected, "{line}");
    }
    let names = ["-", "", "-x"];
    let refused = [
        "--in gray --out - --size 1x1",
        "--in gray --out= --size 1x1",
        "--in gray --out=-x --size 1x1",
    ];
    for (line, name) in refused.iter().zip(names.iter()) {
        let expected = Ok(Task::Convert(from_gray(&rt, name)));
        assert_eq!(rt; read(rt.alloc(), line)?, expected, "{line}");
    }
    assert_eq!(rt; read(rt.alloc(), "--task list")?, Ok(Task::List));
    assert_eq!(rt; read(rt.alloc(), "--task=list")?, Ok(Task::List));
    Ok(())
}

#[test]
fn takes_every_option(rt: HostRuntime) -> Result<(), Fail> {
    let line = "--task convert --from raw --to y4m --size 16384x2048 --in yuv444p \
        --out yuv444p10le --in-matrix bt709 --out-matrix bt2020 --in-range full \
        --out-range limited --dither 4 --workers 64 --slice 16384";
    let expected = Convert {
        source: Some(side(&rt, "yuv444p", "bt709", Some(Range::Full))),
        source_matrix: matrix(&rt, "bt709"),
        source_range: Some(Range::Full),
        width: 16384,
        height: 2048,
        source_form: Form::Raw,
        target: side(&rt, "yuv444p10le", "bt2020", Some(Range::Limited)),
        target_form: Form::Y4m,
        dither: 4,
        workers: 64,
        slice: 16384,
    };
    assert_eq!(rt; read(rt.alloc(), line)?, Ok(Task::Convert(expected)));
    Ok(())
}

#[test]
fn takes_a_stream(rt: HostRuntime) -> Result<(), Fail> {
    let line = "--from y4m --out yuvj444p --to=y4m --in-matrix fcc --in-range full";
    let expected = Convert {
        source: None,
        source_matrix: matrix(&rt, "fcc"),
        source_range: Some(Range::Full),
        width: 0,
        height: 0,
        source_form: Form::Y4m,
        target: side(&rt, "yuvj444p", "bt601", None),
        target_form: Form::Y4m,
        dither: 0,
        workers: 1,
        slice: 16,
    };
    assert_eq!(rt; read(rt.alloc(), line)?, Ok(Task::Convert(expected)));
    Ok(())
}

#[test]
fn takes_names_that_find_nothing(rt: HostRuntime) -> Result<(), Fail> {
    let line = "--in yuv420p --out rgb25 --in-range limited --to y4m \
        --size 00000000000000000001x00000000000000016384 --dither 00000000000000000004";
    let mut expected = from_gray(&rt, "rgb25");
    expected.source = Some(side(&rt, "yuv420p", "bt601", Some(Range::Limited)));
    expected.source_range = Some(Range::Limited);
    expected.height = 16384;
    expected.target_form = Form::Y4m;
    expected.dither = 4;
    assert_eq!(rt; read(rt.alloc(), line)?, Ok(Task::Convert(expected)));
    Ok(())
}

#[test]
fn takes_tasks_on_two_sides(rt: HostRuntime) -> Result<(), Fail> {
    let alloc = rt.alloc();
    let plain = Sides {
        source: side(&rt, "gray16le", "bt601", None),
        target: side(&rt, "gray", "bt601", None),
        dither: 0,
    };
    let full = Sides {
        source: side(&rt, "yuv444p", "bt709", Some(Range::Full)),
        target: side(&rt, "yuva444p", "fcc", Some(Range::Limited)),
        dither: 3,
    };
    let options = "--in yuv444p --out yuva444p --in-matrix bt709 --out-matrix fcc \
        --in-range full --out-range limited --dither 3";
    let small = Generate {
        sides: plain,
        workers: 1,
        slice: 16,
        seed: 0,
    };
    let large = Generate {
        sides: full,
        workers: 64,
        slice: 16384,
        seed: 18446744073709551615,
    };
    let seeded = "--task generate --seed 18446744073709551615 --workers 64 --slice 16384";
    for (task, more, expected) in [
        ("--task ops", "--in gray16le --out gray", Task::Ops(plain)),
        ("--task ops", options, Task::Ops(full)),
        (
            "--task=generate --seed=0",
            "--in gray16le --out gray",
            Task::Generate(small),
        ),
        (seeded, options, Task::Generate(large)),
    ] {
        let mut line = String::from_str(alloc, task)?;
        line.push_str(" ")?;
        line.push_str(more)?;
        assert_eq!(rt; read(alloc, line.as_str())?, Ok(expected), "{task}");
    }
    Ok(())
}
