//! Words and colours.
use gang_types::FaultName;

/// A fault's number and name.
pub(crate) fn fault_words(name: FaultName) -> &'static [u8] {
    match name {
        FaultName::DivideByZero => b"F1 DivideByZero",
        FaultName::Index => b"F2 Index",
        FaultName::LaneIndex => b"F3 LaneIndex",
        FaultName::Assert => b"F4 Assert",
        FaultName::CallDepth => b"F5 CallDepth",
    }
}

/// The colour of a lane. The eight are told apart by those who are colour-blind too (Okabe and Ito, with grey for yellow, which is
/// faint on white); the lanes from 8 on have them again, with dots that are not filled.
pub(crate) fn lane_colour(lane: usize) -> &'static [u8] {
    match lane % 8 {
        0 => b"#0072b2",
        1 => b"#e69f00",
        2 => b"#009e73",
        3 => b"#cc79a7",
        4 => b"#56b4e9",
        5 => b"#d55e00",
        6 => b"#000000",
        _ => b"#999999",
    }
}

/// What fills the dots of a lane.
pub(crate) fn lane_fill(lane: usize) -> &'static [u8] {
    if lane < 8 {
        lane_colour(lane)
    } else {
        b"#ffffff"
    }
}

/// The colour of a value: its lane's, if it is that of a lane.
pub(crate) fn value_colour(is_of_lane: bool, lane: usize) -> &'static [u8] {
    if is_of_lane {
        lane_colour(lane)
    } else {
        b"#333333"
    }
}
