// The conversion of rows that stand in planes.
ghost use Rattle.std.specs.Prelude.{◌≡◌, ◌≢◌, [], ◌∷◌, IfSome, IsSome};
ghost use Rattle.kernel_planes.specs.Planes.{row_list};
ghost use Rattle.frame_calls.specs.Planes.{planes_asked, AreRowsConverted};
ghost use Rattle.sws_c.specs.Kept.{plan_kept};
ghost use Rattle.sws_c.specs.Status.{status_of};

use crate::numbers::status_of;
use crate::owner::PlanOwner;
use crate::plans::take;
use frame_calls::{Rows, convert_planes};
use row_plan::Planes;
use std::alloc::Global;

/// Converts some rows by a plan, whose owner keeps it, from planes with strides to planes with
/// strides. The bytes between rows stay. It takes no memory.
#[unsafe(no_mangle)]
pub extern "C" fn sws_plan_convert_planes(
    alloc: Global,
    plan: &mut PlanOwner,
    row: u32,
    width: u32,
    rows: u32,
    in_first: &[u8],
    in_second: &[u8],
    in_third: &[u8],
    in_fourth: &[u8],
    in_stride_first: usize,
    in_stride_second: usize,
    in_stride_third: usize,
    in_stride_fourth: usize,
    palette: &[u8],
    first: &mut [u8],
    second: &mut [u8],
    third: &mut [u8],
    fourth: &mut [u8],
    stride_first: usize,
    stride_second: usize,
    stride_third: usize,
    stride_fourth: usize,
) -> u32
    requires open { IsSome plan.old.kept }
    ensures kept { plan.new.kept ≡ plan.old.kept }
    ensures status { IfSome (plan_kept plan.old.kept) (λ kept. result ≡ status_of (planes_asked
        kept.pair
        (record { first = row; width = width; count = rows })
        (record {
          first = in_first.entry;
          second = in_second.entry;
          third = in_third.entry;
          fourth = in_fourth.entry;
          palette = palette.entry;
        })
        (in_stride_first ∷ in_stride_second ∷ in_stride_third ∷ in_stride_fourth ∷ [])
        (row_list first.old second.old third.old fourth.old)
        (stride_first ∷ stride_second ∷ stride_third ∷ stride_fourth ∷ []))) }
    ensures converted { result ≡ 0 → IfSome (plan_kept plan.old.kept) (λ kept. AreRowsConverted
        kept.pair
        (record { first = row; width = width; count = rows })
        (record {
          first = in_first.entry;
          second = in_second.entry;
          third = in_third.entry;
          fourth = in_fourth.entry;
          palette = palette.entry;
        })
        (in_stride_first ∷ in_stride_second ∷ in_stride_third ∷ in_stride_fourth ∷ [])
        (stride_first ∷ stride_second ∷ stride_third ∷ stride_fourth ∷ [])
        (row_list first.old second.old third.old fourth.old)
        (row_list first.new second.new third.new fourth.new) rows) }
    ensures unchanged { result ≢ 0 → row_list first.new second.new third.new fourth.new
        ≡ row_list first.old second.old third.old fourth.old }
{
    let rows = Rows {
        first: row,
        width,
        count: rows,
    };
    let source = Planes {
        first: in_first,
        second: in_second,
        third: in_third,
        fourth: in_fourth,
        palette,
    };
    let shared = take(alloc, plan);
    let status = status_of(convert_planes(
        &shared.plan,
        &rows,
        &source,
        &[
            in_stride_first,
            in_stride_second,
            in_stride_third,
            in_stride_fourth,
        ],
        first,
        second,
        third,
        fourth,
        &[stride_first, stride_second, stride_third, stride_fourth],
    ));
    *plan = PlanOwner::of(shared);
    status
}
