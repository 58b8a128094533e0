//! Expressions whose values an editor opens into their lanes.
ghost use Rattle.std.specs.Prelude.{◌≡◌, ◌<◌, Bool, IfOk, IfSome, OnErr, option_map};
ghost use Rattle.gang_model.specs.Debugger.Debugger.{Debugger, Setting};
ghost use Rattle.debug_session.specs.Sessions.{StandsFor, bare};
ghost use Rattle.opened_texts.specs.Texts.{texts_of};
ghost use Rattle.opened_texts.specs.Texts as kept;
ghost use Rattle.adapter_replies.specs.Children as children;
ghost use Rattle.adapter_requests.specs.declared.reply.StopReason.{StopReason};
ghost use Rattle.adapter_replies.specs.declared.threads.Threads.{Threads};
ghost use Rattle.adapter_server.specs.Events.{events_behind, reply_events};
ghost use Rattle.adapter_server.specs.Opening as spec;
ghost use Rattle.adapter_server.specs.Opening.{AreChildrenAt, HasPlace, MayOpen, NotesOpened};

use adapter_replies::{
    OpenedExpression, expression_index, expression_reference, expression_variables,
    opened_expression, with_reference,
};
use adapter_requests::{Page, Reply, Request};
use adapter_session::Answered;
use debug_session::Session;
use frame_expressions::ExpressionMachine;
use opened_texts::{OpenedText, OpenedTexts};
use std::alloc::{AllocError, Global};

/// What a request came to, with what opens of the reply: it has its place among the texts, and the reply the reference of this. All stays
/// as it was where nothing opens, where there is no room, and where memory is wanting to see what opens.
pub(crate) fn open_answer<M: ExpressionMachine>(
    alloc: Global,
    session: &Session<M>,
    request: &Request<'_>,
    texts: &mut OpenedTexts,
    answered: Answered,
) -> Answered
    ensures reply { (s : Setting) (d : Debugger) → StandsFor M.stands session.now s d
        → MayOpen s (bare d) request.now answered.reply (texts_of texts.old) result.reply (texts_of texts.new) }
    ensures verdict { result.verdict ≡ answered.verdict }
    ensures written { result.written ≡ answered.written }
    ensures events { (seen : Threads) (hears : Bool) (s : Setting) (d : Debugger) (last : StopReason)
        → events_behind seen hears s d request.now last result ≡ events_behind seen hears s d request.now last answered }
{
    let Answered {
        reply,
        verdict,
        written,
    } = answered;
    let reply = open_reply(alloc, session, request, texts, reply);
    Answered {
        reply,
        verdict,
        written,
    }
}

/// A reply, with the reference of the place of what opens of it.
fn open_reply<M: ExpressionMachine>(
    alloc: Global,
    session: &Session<M>,
    request: &Request<'_>,
    texts: &mut OpenedTexts,
    reply: Reply,
) -> Reply
    ensures reply { (s : Setting) (d : Debugger) → StandsFor M.stands session.now s d
        → MayOpen s (bare d) request.now reply (texts_of texts.old) result (texts_of texts.new) }
    ensures events { (seen : Threads) (hears : Bool) (s : Setting) (d : Debugger) (last : StopReason)
        → reply_events seen hears s d request.now last result ≡ reply_events seen hears s d request.now last reply }
{
    match note_opened(alloc, session, request, texts, &reply) {
        Ok(place) => with_place(reply, place),
        Err(_) => reply,
    }
}

/// The place of what opens of a reply among the texts, where it is noted.
fn note_opened<M: ExpressionMachine>(
    alloc: Global,
    session: &Session<M>,
    request: &Request<'_>,
    texts: &mut OpenedTexts,
    told: &Reply,
) -> Result<Option<usize>, AllocError>
    ensures noted { (s : Setting) (d : Debugger) → StandsFor M.stands session.now s d
        → IfOk result (λ place. NotesOpened s (bare d) request.now told.now (texts_of texts.old) place (texts_of texts.new)) }
    ensures memory { OnErr result (texts_of texts.new ≡ texts_of texts.old) }
    ensures within { IfOk result (λ place. IfSome place (λ index. index < 64)) }
{
    let opened = opened_expression(alloc, session.machine(), request, told)?;
    Ok(note(texts, opened))
}

/// The place of an expression among the texts, where it is noted, if there is one.
fn note(texts: &mut OpenedTexts, opened: Option<OpenedExpression<'_>>) -> Option<usize>
    ensures place { result ≡ spec.place_opened (option_map children.opened_view opened.entry) (texts_of texts.old) }
    ensures texts { texts_of texts.new ≡ spec.with_opened (option_map children.opened_view opened.entry) (texts_of texts.old) }
    ensures within { IfSome result (λ index. index < 64) }
{
    match opened {
        Some(expression) => texts.note(expression.depth, expression.text),
        None => None,
    }
}

/// A reply with the reference of a place, if there is one.
fn with_place(reply: Reply, place: Option<usize>) -> Reply
    requires { IfSome place (λ index. index < 64) }
    ensures { HasPlace place reply result }
{
    match place {
        Some(place) => with_reference(reply, expression_reference(place)),
        None => reply,
    }
}

/// What a request for the variables of a reference is told where this is that of a text: the lanes of its value, by the frame as it is
/// now. None of any other reference.
///
/// # Errors
///
/// Out of memory.
pub(crate) fn children_reply<M: ExpressionMachine>(
    alloc: Global,
    session: &Session<M>,
    texts: &OpenedTexts,
    reference: u64,
    is_hexadecimal: bool,
    page: Page,
) -> Result<Option<Reply>, AllocError>
    ensures { (s : Setting) (d : Debugger) → StandsFor M.stands session.now s d
        → IfOk result (AreChildrenAt s (bare d) (spec.text_at reference (texts_of texts.now)) is_hexadecimal page) }
{
    match text_at(texts, reference) {
        None => Ok(None),
        Some(opened) => {
            let reply = expression_variables(
                alloc,
                session.machine(),
                opened.depth,
                opened.text,
                is_hexadecimal,
                page,
            )?;
            Ok(Some(reply))
        }
    }
}

/// The text whose value a reference opens, if it has a place.
fn text_at(texts: &OpenedTexts, reference: u64) -> Option<OpenedText<'_>>
    ensures { option_map kept.opened_view result ≡ spec.text_at reference (texts_of texts.now) }
{
    match expression_index(reference) {
        Some(place) => texts.at(place),
        None => None,
    }
}
