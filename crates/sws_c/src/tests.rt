// Exports as C calls them.
use crate::names::{
    sws_format_count, sws_format_find, sws_format_name, sws_format_range, sws_matrix,
};
use crate::owner::PlanOwner;
use crate::plans::{sws_plan_close, sws_plan_open};
use crate::rows::{sws_check, sws_convert, sws_frame_bytes};
use frame_calls::{Conversion, ConversionSide};
use std::test::Fail;

fn side(name: &[u8], range: u32) -> ConversionSide {
    let mut format = 0;
    let _status = sws_format_find(name, &mut format);
    ConversionSide {
        format,
        q: 1000,
        r: 299,
        b: 114,
        range,
    }
}

#[test]
fn converts_a_pixel(rt: HostRuntime) -> Result<(), Fail> {
    let conversion = Conversion {
        from: side(b"yuv444p", 1),
        to: side(b"rgb24", 0),
        dither: 0,
    };
    let mut output = [0; 3];
    assert_eq!(rt; sws_check(&conversion), 0);
    assert_eq!(rt;
        sws_convert(
            rt.alloc(),
            &conversion,
            0,
            1,
            1,
            &[81, 90, 240],
            &mut output
        ),
        0
    );
    assert_eq!(rt; output, [254, 0, 0]);
    assert_eq!(rt;
        sws_convert(rt.alloc(), &conversion, 0, 1, 1, &[81, 90], &mut output),
        7
    );
    let mut owner = PlanOwner::closed(rt.alloc());
    assert_eq!(rt; sws_plan_open(rt.alloc(), &conversion, &mut owner), 0);
    sws_plan_close(rt.alloc(), &mut owner);
    Ok(())
}

#[test]
fn finds_and_names(rt: HostRuntime) -> Result<(), Fail> {
    let mut format = 0;
    let mut room = [7; 6];
    let mut bytes = 0;
    let (mut q, mut r, mut b) = (0, 0, 0);
    assert_eq!(rt; sws_format_count(), 109);
    assert_eq!(rt; sws_format_find(b"yuv420p", &mut format), 12);
    assert_eq!(rt; sws_format_find(&[255, 254], &mut format), 11);
    assert_eq!(rt; sws_format_find(b"gray", &mut format), 0);
    assert_eq!(rt; sws_format_name(format, &mut room), 0);
    assert_eq!(rt; room, [103, 114, 97, 121, 0, 7]);
    assert_eq!(rt; sws_format_name(format, &mut room[..4]), 10);
    assert_eq!(rt; sws_frame_bytes(format, 2, 3, &mut bytes), 0);
    assert_eq!(rt; bytes, 6);
    assert_eq!(rt; sws_matrix(b"bt709", &mut q, &mut r, &mut b), 0);
    assert_eq!(rt; (q, r, b), (10000, 2126, 722));
    Ok(())
}

// The range of the format of a name, or 7 where there is none.
fn range_named(name: &[u8]) -> u32 {
    let mut format = 4294967295;
    let mut range = 7;
    let _found = sws_format_find(name, &mut format);
    let _status = sws_format_range(format, &mut range);
    range
}

#[test]
fn knows_ranges(rt: HostRuntime) -> Result<(), Fail> {
    let mut range = 7;
    assert_eq!(rt; range_named(b"yuv444p"), 1);
    assert_eq!(rt; range_named(b"nv24"), 1);
    assert_eq!(rt; range_named(b"vuya"), 1);
    assert_eq!(rt; range_named(b"yuvj444p"), 0);
    assert_eq!(rt; range_named(b"gray"), 0);
    assert_eq!(rt; range_named(b"ya8"), 0);
    assert_eq!(rt; range_named(b"gbrap"), 0);
    assert_eq!(rt; range_named(b"pal8"), 0);
    assert_eq!(rt; range_named(b"yuv420p"), 7);
    assert_eq!(rt; sws_format_range(0, &mut range), 0);
    assert_eq!(rt; sws_format_range(109, &mut range), 1);
    Ok(())
}
