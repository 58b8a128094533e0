//! The refusals and faults that have a page.
use crate::{command_texts, fault_texts, run_texts, source_texts};

/// A refusal or a fault.
#[derive(Clone, Copy, Debug, PartialEq, Eq)]
pub(crate) enum Topic {
    BadByte,
    BadNumber,
    Unexpected,
    TooDeep,
    UnknownName,
    Duplicate,
    Rate,
    Type,
    NoOverload,
    Ambiguous,
    BadControl,
    NestedCall,
    Limit,
    NoEntry,
    NoScript,
    BadLine,
    Missing,
    Range,
    TooLarge,
    DivideByZero,
    Index,
    LaneIndex,
    Assert,
    CallDepth,
    BadCommand,
    NoSuchName,
    NoHistory,
    Ended,
    Outermost,
    NoLine,
    OutOfRange,
    Constant,
    NoSuchNumber,
    TableFull,
    Memory,
}

/// What a refusal or a fault is called.
#[derive(Clone, Copy, Debug)]
pub(crate) struct Heading {
    pub(crate) topic: Topic,
    pub(crate) number: &'static [u8],
    pub(crate) name: &'static [u8],
}

/// All of them, in the order of docs/REFUSALS.md.
pub(crate) const HEADINGS: [Heading; 35] = [
    Heading {
        topic: Topic::BadByte,
        number: b"S1",
        name: b"BadByte",
    },
    Heading {
        topic: Topic::BadNumber,
        number: b"S2",
        name: b"BadNumber",
    },
    Heading {
        topic: Topic::Unexpected,
        number: b"S3",
        name: b"Unexpected",
    },
    Heading {
        topic: Topic::TooDeep,
        number: b"S4",
        name: b"TooDeep",
    },
    Heading {
        topic: Topic::UnknownName,
        number: b"S5",
        name: b"UnknownName",
    },
    Heading {
        topic: Topic::Duplicate,
        number: b"S6",
        name: b"Duplicate",
    },
    Heading {
        topic: Topic::Rate,
        number: b"S7",
        name: b"Rate",
    },
    Heading {
        topic: Topic::Type,
        number: b"S8",
        name: b"Type",
    },
    Heading {
        topic: Topic::NoOverload,
        number: b"S9",
        name: b"NoOverload",
    },
    Heading {
        topic: Topic::Ambiguous,
        number: b"S10",
        name: b"Ambiguous",
    },
    Heading {
        topic: Topic::BadControl,
        number: b"S11",
        name: b"BadControl",
    },
    Heading {
        topic: Topic::NestedCall,
        number: b"S12",
        name: b"NestedCall",
    },
    Heading {
        topic: Topic::Limit,
        number: b"S13",
        name: b"Limit",
    },
    Heading {
        topic: Topic::NoEntry,
        number: b"E1",
        name: b"NoEntry",
    },
    Heading {
        topic: Topic::NoScript,
        number: b"E2",
        name: b"NoScript",
    },
    Heading {
        topic: Topic::BadLine,
        number: b"I1",
        name: b"BadLine",
    },
    Heading {
        topic: Topic::Missing,
        number: b"I2",
        name: b"Missing",
    },
    Heading {
        topic: Topic::Range,
        number: b"I3",
        name: b"Range",
    },
    Heading {
        topic: Topic::TooLarge,
        number: b"I4",
        name: b"TooLarge",
    },
    Heading {
        topic: Topic::DivideByZero,
        number: b"F1",
        name: b"DivideByZero",
    },
    Heading {
        topic: Topic::Index,
        number: b"F2",
        name: b"Index",
    },
    Heading {
        topic: Topic::LaneIndex,
        number: b"F3",
        name: b"LaneIndex",
    },
    Heading {
        topic: Topic::Assert,
        number: b"F4",
        name: b"Assert",
    },
    Heading {
        topic: Topic::CallDepth,
        number: b"F5",
        name: b"CallDepth",
    },
    Heading {
        topic: Topic::BadCommand,
        number: b"C1",
        name: b"BadCommand",
    },
    Heading {
        topic: Topic::NoSuchName,
        number: b"C2",
        name: b"NoSuchName",
    },
    Heading {
        topic: Topic::NoHistory,
        number: b"C3",
        name: b"NoHistory",
    },
    Heading {
        topic: Topic::Ended,
        number: b"C4",
        name: b"Ended",
    },
    Heading {
        topic: Topic::Outermost,
        number: b"C6",
        name: b"Outermost",
    },
    Heading {
        topic: Topic::NoLine,
        number: b"C7",
        name: b"NoLine",
    },
    Heading {
        topic: Topic::OutOfRange,
        number: b"C8",
        name: b"OutOfRange",
    },
    Heading {
        topic: Topic::Constant,
        number: b"C9",
        name: b"Constant",
    },
    Heading {
        topic: Topic::NoSuchNumber,
        number: b"C10",
        name: b"NoSuchNumber",
    },
    Heading {
        topic: Topic::TableFull,
        number: b"C11",
        name: b"TableFull",
    },
    Heading {
        topic: Topic::Memory,
        number: b"C12",
        name: b"Memory",
    },
];

/// What is said of a refusal or a fault.
pub(crate) fn text_of(topic: Topic) -> &'static [u8] {
    match topic {
        Topic::BadByte => source_texts::bad_byte_text(),
        Topic::BadNumber => source_texts::bad_number_text(),
        Topic::Unexpected => source_texts::unexpected_text(),
        Topic::TooDeep => source_texts::too_deep_text(),
        Topic::UnknownName => source_texts::unknown_name_text(),
        Topic::Duplicate => source_texts::duplicate_text(),
        Topic::Rate => source_texts::rate_text(),
        Topic::Type => source_texts::type_text(),
        Topic::NoOverload => source_texts::no_overload_text(),
        Topic::Ambiguous => source_texts::ambiguous_text(),
        Topic::BadControl => source_texts::bad_control_text(),
        Topic::NestedCall => source_texts::nested_call_text(),
        Topic::Limit => source_texts::limit_text(),
        Topic::NoEntry => run_texts::no_entry_text(),
        Topic::NoScript => run_texts::no_script_text(),
        Topic::BadLine => run_texts::bad_line_text(),
        Topic::Missing => run_texts::missing_text(),
        Topic::Range => run_texts::range_text(),
        Topic::TooLarge => run_texts::too_large_text(),
        Topic::DivideByZero => fault_texts::divide_by_zero_text(),
        Topic::Index => fault_texts::index_text(),
        Topic::LaneIndex => fault_texts::lane_index_text(),
        Topic::Assert => fault_texts::assert_text(),
        Topic::CallDepth => fault_texts::call_depth_text(),
        Topic::BadCommand => command_texts::bad_command_text(),
        Topic::NoSuchName => command_texts::no_such_name_text(),
        Topic::NoHistory => command_texts::no_history_text(),
        Topic::Ended => command_texts::ended_text(),
        Topic::Outermost => command_texts::outermost_text(),
        Topic::NoLine => command_texts::no_line_text(),
        Topic::OutOfRange => command_texts::out_of_range_text(),
        Topic::Constant => command_texts::constant_text(),
        Topic::NoSuchNumber => command_texts::no_such_number_text(),
        Topic::TableFull => command_texts::table_full_text(),
        Topic::Memory => command_texts::memory_text(),
    }
}
