//! The one cause for which a command is refused that names a variable, or a part of it.
use crate::page::Page;
use crate::refusals::{argument, put_refused, put_refused_part};
use debug_answers::Refusal;
use debug_traits::{AnswerWriter, FramedMachine, RecordedMachine, Shown};
use debug_words::{Marks, Radix, digits_number, next_word};
use gang_types::IntType;

/// The values of the language that are no variables.
const NO_VARIABLES: [&[u8]; 2] = [b"programIndex", b"programCount"];

/// A variable that a line names, and the index behind it.
#[derive(Clone, Copy)]
struct Named<'a> {
    name: &'a [u8],
    index: Option<u128>,
}

/// Why a line does not take a variable that is there, or a part of it.
#[derive(Clone, Copy)]
enum Cause {
    /// An array is named without an index.
    WholeArray,
    /// The index is past the end.
    PastEnd,
    /// A part is named of one value for all lanes.
    OneValue,
    /// The line takes variables of the file, and it is none.
    Local,
}

/// Writes why a command is refused, with the line and a mark under what it is refused for.
pub fn tell_refused_here<M: RecordedMachine, O: AnswerWriter + Drop>(
    refusal: Refusal,
    line: &[u8],
    machine: &M,
    page: &mut Page<O>,
) {
    if refusal == Refusal::OutOfRange && sets_history(line) {
        page.put(b"C8 OutOfRange: up to 65536 events are kept.\n");
        put_refused_part(line, page);
        return;
    }
    let named = named_in(line);
    let found = match named {
        Some(named) => machine.find(named.name),
        None => None,
    };
    tell_cause(refusal, named, found, line, page);
}

/// Writes why a value of the frame at a depth is not set or watched, with the line and a mark under what it is refused for.
pub fn tell_refused_at<M: FramedMachine, O: AnswerWriter + Drop>(
    refusal: Refusal,
    line: &[u8],
    depth: usize,
    machine: &M,
    page: &mut Page<O>,
) {
    let named = named_in(line);
    let found = match named {
        Some(named) => machine.find_at(depth, named.name),
        None => None,
    };
    tell_cause(refusal, named, found, line, page);
}

/// Writes why a command is refused, by what the name on its line stands for.
fn tell_cause<O: AnswerWriter + Drop>(
    refusal: Refusal,
    named: Option<Named<'_>>,
    found: Option<Shown>,
    line: &[u8],
    page: &mut Page<O>,
) {
    match (refusal, named, found) {
        (Refusal::OutOfRange, Some(named), Some(shown)) => {
            page.put(b"C8 OutOfRange: ");
            put_out_of_range(named, shown, page);
            put_refused_part(line, page);
        }
        (Refusal::NoSuchName, Some(named), Some(shown)) => {
            tell_no_part(named, shown, page);
            put_refused_part(line, page);
        }
        (Refusal::NoSuchName, Some(named), None) => {
            put_no_name(named, page);
            put_refused_part(line, page);
        }
        _ => put_refused(refusal, line, page),
    }
}

/// Writes why a command is refused that shows a variable of an outer frame, with the line and a mark under what it is refused for.
pub fn tell_refused<O: AnswerWriter + Drop>(refusal: Refusal, line: &[u8], page: &mut Page<O>) {
    match (refusal, named_in(line)) {
        (Refusal::NoSuchName, Some(named)) if named.index.is_none() => {
            put_no_name(named, page);
            put_refused_part(line, page);
        }
        _ => put_refused(refusal, line, page),
    }
}

/// Writes that there is no variable of a name.
fn put_no_name<O: AnswerWriter + Drop>(named: Named<'_>, page: &mut Page<O>) {
    if NO_VARIABLES.iter().any(|name| *name == named.name) {
        put_no_such(named, b" is no variable: `print ", page);
        page.put(named.name);
        page.put(b"` shows it, and it never changes.\n");
    } else {
        page.put(b"C2 NoSuchName: no variable in scope or of the file is called ");
        page.put_masked(named.name);
        page.put(b".\n");
    }
}

/// Writes that an index is past the end, or else which values a type has.
fn put_out_of_range<O: AnswerWriter + Drop>(named: Named<'_>, shown: Shown, page: &mut Page<O>) {
    match named.index {
        Some(index) if index >= shown.count as u128 => {
            page.put(named.name);
            page.put(b" has ");
            page.put_number(shown.count as i128);
            page.put(if shown.is_array {
                b" elements"
            } else {
                b" lanes"
            });
            page.put(b", and the first has the number 0.\n");
        }
        _ => {
            page.put(b"the values of ");
            page.put(named.name);
            page.put(b" are ");
            page.put(values_of(shown.value_type));
            page.put(b".\n");
        }
    }
}

/// Writes why a variable that is there has no such part, or is not taken.
fn tell_no_part<O: AnswerWriter + Drop>(named: Named<'_>, shown: Shown, page: &mut Page<O>) {
    match cause_of(named, shown) {
        Cause::WholeArray => {
            put_no_such(named, b" is an array: name one element, as `", page);
            page.put(named.name);
            page.put(b"[0]`.\n");
        }
        Cause::PastEnd => {
            page.put(b"C8 OutOfRange: ");
            put_out_of_range(named, shown, page);
        }
        Cause::OneValue => put_no_such(
            named,
            b" is one value for all lanes, and has no parts.\n",
            page,
        ),
        Cause::Local => put_no_such(
            named,
            b" is a local variable: this line takes variables of the file. `watch` takes those of functions too, by parts that are there.\n",
            page,
        ),
    }
}

/// Why a line does not take a variable that is there, or a part of it.
fn cause_of(named: Named<'_>, shown: Shown) -> Cause {
    match named.index {
        None if shown.is_array => Cause::WholeArray,
        Some(_) if !shown.is_array && shown.count == 1 => Cause::OneValue,
        Some(index) if index >= shown.count as u128 => Cause::PastEnd,
        None | Some(_) => Cause::Local,
    }
}

/// Writes that a name stands for nothing that a line takes, and why.
fn put_no_such<O: AnswerWriter + Drop>(named: Named<'_>, why: &[u8], page: &mut Page<O>) {
    page.put(b"C2 NoSuchName: ");
    page.put(named.name);
    page.put(why);
}

/// The values of a type.
fn values_of(value_type: IntType) -> &'static [u8] {
    match value_type {
        IntType::Bool => b"`false` and `true`",
        IntType::Int8 => b"-128 to 127",
        IntType::Int16 => b"-32768 to 32767",
        IntType::Int32 => b"-2147483648 to 2147483647",
        IntType::Int64 => b"-9223372036854775808 to 9223372036854775807",
        IntType::Uint8 => b"0 to 255",
        IntType::Uint16 => b"0 to 65535",
        IntType::Uint32 => b"0 to 4294967295",
        IntType::Uint64 => b"0 to 18446744073709551615",
    }
}

/// The variable that a line names behind its first word.
fn named_in(line: &[u8]) -> Option<Named<'_>> {
    let text = line.get(argument(line)?..)?;
    let (name, behind) = next_word(Marks::OfCommands, text)?;
    Some(Named {
        name,
        index: index_in(behind),
    })
}

/// The index that a text begins with.
fn index_in(text: &[u8]) -> Option<u128> {
    let (mark, behind) = next_word(Marks::OfCommands, text)?;
    if mark != b"[".as_slice() {
        return None;
    }
    let (index, _) = next_word(Marks::OfCommands, behind)?;
    digits_number(Radix::Decimal, index)
}

/// Whether a line sets how many events are kept.
fn sets_history(line: &[u8]) -> bool {
    match next_word(Marks::OfCommands, line) {
        Some((first, rest)) if first == b"set".as_slice() => match next_word(
            Marks::OfCommands,
            rest,
        ) {
            Some((second, _)) => second == b"record".as_slice(),
            None => false,
        },
        _ => false,
    }
}
