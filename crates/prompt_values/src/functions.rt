//! The functions of a program, as they are listed.
ghost use Rattle.std.specs.Prelude.{◌≡◌, flat_map};
ghost use Rattle.std.specs.List.{list_any};
ghost use Rattle.gang_model.specs.Debugger.Debugger.{Debugger, Setting};
ghost use Rattle.prompt_lines.specs.Heads as heads;
ghost use Rattle.prompt_texts.specs.Shown.{Puts};
ghost use Rattle.prompt_values.specs.Functions as spec;

use debug_traits::AnswerWriter;
use frame_expressions::ExpressionMachine;
use prompt_lines::{Head, function_head, has_part};
use prompt_texts::{Page, Source};
use typed_tree::Function;

/// Writes a line for each function of the program whose name has a part, in the order of the source: the number of its line, and its head
/// as the source has it on that line. Writes that there is no such function, where there is none.
pub fn show_functions<M: ExpressionMachine, O: AnswerWriter + Drop>(
    part: &[u8],
    source: Source<'_>,
    machine: &M,
    page: &mut Page<O>,
)
    ensures { (s : Setting) (d : Debugger) → M.stands machine.now s d
        → Puts (spec.functions_text part.now source.entry.text.now s.program) page.old.has_failed page.new.has_failed (O.written page.old.writer) (O.written page.new.writer) }
{
    let functions = machine.program().functions.as_slice();
    if has_any(part, functions) {
        put_functions(part, source.text, functions, page);
    } else {
        page.put(b"no function\n");
    }
}

/// Whether a part stands in the name of a function.
fn has_any(part: &[u8], functions: &[Function]) -> bool
    ensures { result ≡ list_any (λ f. heads.has_part part.now f.name.items) functions.now }
{
    functions
        .iter()
        .any(|function| has_part(part, function.name.as_slice()))
}

/// Writes a line for each function whose name has a part.
fn put_functions<O: AnswerWriter + Drop>(
    part: &[u8],
    source: &[u8],
    functions: &[Function],
    page: &mut Page<O>,
)
    ensures { Puts (flat_map (λ f. spec.function_line part.now source.now f.name.items) functions.now) page.old.has_failed page.new.has_failed (O.written page.old.writer) (O.written page.new.writer) }
{
    for place in 0..functions.len() {
        put_function(part, source, functions[place].name.as_slice(), page);
    }
}

/// Writes a line for the function of a name, where that has a part.
fn put_function<O: AnswerWriter + Drop>(part: &[u8], source: &[u8], name: &[u8], page: &mut Page<O>)
    ensures { Puts (spec.function_line part.now source.now name.now) page.old.has_failed page.new.has_failed (O.written page.old.writer) (O.written page.new.writer) }
{
    if has_part(part, name) {
        put_head(function_head(source, name), page);
    } else {
        page.put(b"");
    }
}

/// Writes a line: the number of a head's line, and the head.
fn put_head<O: AnswerWriter + Drop>(head: Option<Head<'_>>, page: &mut Page<O>)
    ensures { Puts (spec.head_line (heads.head_option head.entry)) page.old.has_failed page.new.has_failed (O.written page.old.writer) (O.written page.new.writer) }
{
    match head {
        Some(head) => {
            page.put_number(head.line as i128);
            page.put(b": ");
            page.put_masked(head.text);
            page.put(b"\n");
        }
        None => page.put(b""),
    }
}
