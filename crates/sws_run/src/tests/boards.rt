// Frames whose slices two workers claim on a board.
use super::*;
use slice_claim::Held;
use std::sync::atomic::Ordering::SeqCst;
use std::sync::atomic::{AtomicBool, AtomicU64};

const LINE: &str = "--in gray --out gray --size 2x2 --slice 1 --workers 2";

const MOST_TURNS: u64 = 200_000_000;

// It holds the i-th pass of slice 0 until i passes of slice 1 have come, and gives up after many
// turns.
#[derive(Drop)]
struct Turnstile {
    first: AtomicU64,
    second: AtomicU64,
    others: AtomicU64,
    gave_up: AtomicBool,
}

impl Turnstile {
    fn new() -> Turnstile {
        Turnstile {
            first: AtomicU64::new(0),
            second: AtomicU64::new(0),
            others: AtomicU64::new(0),
            gave_up: AtomicBool::new(false),
        }
    }

    fn hold(&self, passes: u64) {
        for _ in 0..MOST_TURNS {
            if self.gave_up.load(SeqCst) || self.second.load(SeqCst) >= passes {
                return;
            }
        }
        self.gave_up.store(true, SeqCst);
    }
}

impl Gate for Turnstile {
    fn pass<J>(&self, held: &Held<J>) {
        match held.number() {
            0 => self.hold(self.first.fetch_add(1, SeqCst).wrapping_add(1)),
            1 => {
                self.second.fetch_add(1, SeqCst);
            }
            _ => {
                self.others.fetch_add(1, SeqCst);
            }
        }
    }
}

// So many gray frames of 2x2 pixels, no two neighbours alike.
fn gray_frames(alloc: Global, count: usize) -> Result<Vec<u8>, AllocError> {
    let mut bytes = Vec::new(alloc);
    for number in 0..count {
        bytes.extend_from_slice(&[(number % 251) as u8, 1, 2, 3])?;
    }
    Ok(bytes)
}

// One worker alone would be held at slice 0 of the first frame.
#[test]
fn two_workers_share_each_frame(rt: HostRuntime) -> Result<(), Fail> {
    let input = gray_frames(rt.alloc(), 300)?;
    let gate = Turnstile::new();
    let outcome = run_through(&rt, rt.alloc(), LINE, &input, &QUIET, &gate)?;
    assert_eq!(rt; outcome.ended, Ended::Done { frames: 300 });
    assert_eq!(rt; outcome.output.as_slice(), input.as_slice());
    assert!(rt; !gate.gave_up.load(SeqCst));
    let passes = (
        gate.first.load(SeqCst),
        gate.second.load(SeqCst),
        gate.others.load(SeqCst),
    );
    assert_eq!(rt; passes, (300, 300, 0));
    Ok(())
}

// Also where an allocation of the run is refused, that of a board among them: then the frames
// before it are written, and it says how many.
#[test]
fn writes_the_frames_before_memory_is_refused(rt: HostRuntime) -> Result<(), Fail> {
    let input = gray_frames(rt.alloc(), 3)?;
    let Ok(outcome) = run(&rt, rt.alloc(), LINE, &input, &QUIET) else {
        return Ok(());
    };
    match outcome.ended {
        Ended::OutOfMemory { frames } => {
            let whole = input.get(..4 * frames as usize).ok_or("three frames")?;
            assert_eq!(rt; outcome.output.as_slice(), whole);
            assert_eq!(rt; outcome.ended.status(), 7);
        }
        ended => {
            assert_eq!(rt; ended, Ended::Done { frames: 3 });
            assert_eq!(rt; outcome.output.as_slice(), input.as_slice());
        }
    }
    Ok(())
}
