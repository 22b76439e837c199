// Each function by position, in the header's order, with the answers of another implementation. That an exported function has its parameters in another order no
// contract sees; here it gives another answer, but where two parameters mean the same to it.
use crate::mosaics::{rokzimp_mosaic_back, rokzimp_mosaic_back_check};
use crate::pieces::{rokzimp_piece_rows, rokzimp_piece_start};
use crate::previews::{
    rokzimp_preview, rokzimp_preview_check, rokzimp_preview_smoothed,
    rokzimp_preview_smoothed_check,
};
use crate::strips::{
    rokzimp_strip, rokzimp_strip_check, rokzimp_strip_smoothed, rokzimp_strip_smoothed_check,
};
use crate::test_readings::{rokzimp_jump, rokzimp_test_frame, rokzimp_test_row};
use crate::views::{
    rokzimp_partner_view_check, rokzimp_partner_view_length, rokzimp_partner_view_plane,
    rokzimp_partner_view_start, rokzimp_row_view_check, rokzimp_row_view_length,
    rokzimp_row_view_start,
};

fn checksum(plane: &[u16]) -> u32 {
    plane.iter().fold(0u32, |sum, sample| {
        ((31 * u64::from(sum) + u64::from(*sample)) % 0x1_0000_0000) as u32
    })
}

// The test frame of seed 3, 6 by 20: the piece of rows 4 to 6 is its rows 0 to 13.
fn piece() -> [u16; 84] {
    let mut frame = [0u16; 120];
    rokzimp_test_frame(3, 6, 20, &mut frame);
    let mut piece = [0u16; 84];
    for (reading, framed) in piece.iter_mut().zip(frame) {
        *reading = framed;
    }
    piece
}

#[test]
fn strips(rt: HostRuntime) {
    let piece = piece();
    let mut red = [0u16; 18];
    let mut green = [0u16; 18];
    let mut blue = [0u16; 18];
    assert_eq!(rt; rokzimp_strip_check(6, 20, 2, 4, 3, &piece, 18, 18, 18), 0);
    assert_eq!(rt;
        rokzimp_strip(6, 20, 2, 4, 3, &piece, &mut red, &mut green, &mut blue),
        0
    );
    assert_eq!(rt; checksum(&red), 1552657334);
    assert_eq!(rt; checksum(&green), 1504789249);
    assert_eq!(rt; checksum(&blue), 60090341);
    assert_eq!(rt;
        rokzimp_strip_smoothed_check(6, 20, 2, 0, 4, 3, &piece, 18, 18, 18),
        0
    );
    assert_eq!(rt;
        rokzimp_strip_smoothed_check(6, 20, 0, 2, 4, 3, &piece, 18, 18, 18),
        10
    );
    assert_eq!(rt;
        rokzimp_strip_smoothed(6, 20, 2, 0, 4, 3, &piece, &mut red, &mut green, &mut blue),
        0
    );
    assert_eq!(rt; checksum(&red), 3748461733);
    assert_eq!(rt; checksum(&green), 2997609659);
    assert_eq!(rt; checksum(&blue), 919465468);
}

#[test]
fn previews(rt: HostRuntime) {
    let piece = piece();
    let mut red = [0u16; 18];
    let mut green = [0u16; 18];
    let mut blue = [0u16; 18];
    assert_eq!(rt;
        rokzimp_preview_check(6, 20, 2, 4, 3, &piece, 18, 18, 18),
        0
    );
    assert_eq!(rt;
        rokzimp_preview(6, 20, 2, 4, 3, &piece, &mut red, &mut green, &mut blue),
        0
    );
    assert_eq!(rt; checksum(&red), 1552657334);
    assert_eq!(rt; checksum(&green), 1504789249);
    assert_eq!(rt; checksum(&blue), 60090341);
    assert_eq!(rt;
        rokzimp_preview_smoothed_check(6, 20, 2, 0, 4, 3, &piece, 18, 18, 18),
        0
    );
    assert_eq!(rt;
        rokzimp_preview_smoothed_check(6, 20, 0, 2, 4, 3, &piece, 18, 18, 18),
        10
    );
    assert_eq!(rt;
        rokzimp_preview_smoothed(6, 20, 2, 0, 4, 3, &piece, &mut red, &mut green, &mut blue),
        0
    );
    assert_eq!(rt; checksum(&red), 3748461733);
    assert_eq!(rt; checksum(&green), 2997609659);
    assert_eq!(rt; checksum(&blue), 919465468);
}

#[test]
fn mosaics(rt: HostRuntime) {
    let piece = piece();
    let mut red = [0u16; 18];
    let mut green = [0u16; 18];
    let mut blue = [0u16; 18];
    assert_eq!(rt;
        rokzimp_strip(6, 20, 2, 4, 3, &piece, &mut red, &mut green, &mut blue),
        0
    );
    let mut mosaic = [0u16; 18];
    assert_eq!(rt;
        rokzimp_mosaic_back_check(6, 20, 2, 4, 3, &red, &green, &blue, 18),
        0
    );
    assert_eq!(rt;
        rokzimp_mosaic_back(6, 20, 2, 4, 3, &red, &green, &blue, &mut mosaic),
        0
    );
    assert_eq!(rt; checksum(&mosaic), 2359667046);
}

#[test]
fn pieces_and_test_readings(rt: HostRuntime) {
    assert_eq!(rt; rokzimp_piece_start(9), 2);
    assert_eq!(rt; rokzimp_piece_rows(20, 9, 3), 17);
    let mut row = [0u16; 6];
    assert_eq!(rt; rokzimp_test_row(3, 6, 20, 7, &mut row), 0);
    assert_eq!(rt; checksum(&row), 4002836157);
    assert_eq!(rt; rokzimp_jump(3, 5), 1647017498);
}

#[test]
fn views(rt: HostRuntime) {
    let plane = [0u16; 120];
    assert_eq!(rt; rokzimp_row_view_check(&plane, 6, 19), 0);
    assert_eq!(rt; rokzimp_row_view_start(&plane, 6, 19), 114);
    assert_eq!(rt; rokzimp_row_view_length(&plane, 6, 19), 6);
    assert_eq!(rt; rokzimp_partner_view_check(&plane, &plane, 6, 20, 2, 19), 0);
    assert_eq!(rt;
        rokzimp_partner_view_start(&plane, &plane, 6, 20, 2, 19),
        114
    );
    assert_eq!(rt;
        rokzimp_partner_view_length(&plane, &plane, 6, 20, 2, 19),
        6
    );
    assert_eq!(rt; rokzimp_partner_view_plane(2, 0), 2);
}
