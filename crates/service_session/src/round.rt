//! One round of a session: the next message is read, judged and answered, or the session ends.

ghost use Rattle.std.specs.Prelude.{◌≡◌, ◌||◌};
ghost use Rattle.wfs_ends.specs.Ends.{Gives};
ghost use Rattle.reply_documents.specs.ReplyText.{reply_text};
ghost use Rattle.reply_documents.specs.Refusals.{fixed_text};
ghost use Rattle.service_session.specs.Answers.{answer_text};
ghost use Rattle.service_session.specs.Rounds.{GivesAnswer, Replies, IsRefused, IsGivenUp, IsRound, round_of};

use crate::answered::Answered;
use crate::ending::SessionEnd;
use crate::gate::{Gate, GatePoint};
use crate::service::Service;
use feature_values::Schema;
use http_session::{Message, Next, Reader};
use reply_documents::{put_fixed, put_reply};
use std::alloc::Global;
use wfs_ends::{Buffer, Buffered, Clock, Link, Sink, WriteFault};
use wfs_model::Reply;

/// What a round came to.
#[derive(Debug, Drop)]
pub enum Round {
    /// The message was answered, and the session goes on.
    On,
    /// The session is over.
    Over(SessionEnd),
}

/// Reads the next message and answers it. After the last message that a session may have, the
/// session is over.
pub fn hold_round<S: Service, L: Link, C: Clock, G: Gate>(
    alloc: Global,
    is_last: bool,
    service: &mut S,
    link: &mut L,
    clock: &mut C,
    gate: &mut G,
    reader: &mut Reader,
    buffer: &mut Buffer,
) -> Round
    ensures { IsRound S.Service is_last reader.old (L.Source.source link.old) (C.moments clock.old)
        service.old result reader.new (L.Source.source link.new) (C.moments clock.new) service.new }
{
    match reader.next_message(alloc, link) {
        Next::Message(message) => after_answer(answer(
            alloc, &message, is_last, service, link, clock, gate, buffer,
        )),
        Next::End => Round::Over(SessionEnd::Ended),
        Next::Cut => Round::Over(SessionEnd::Cut),
        Next::BadHead => refuse(1, link, buffer),
        Next::TooLarge => refuse(2, link, buffer),
        Next::NoLength => refuse(3, link, buffer),
        Next::Coding => refuse(4, link, buffer),
        Next::ReadFault => Round::Over(SessionEnd::ReadFault),
        Next::WriteFault => Round::Over(SessionEnd::WriteFault),
        Next::OutOfMemory => give_up(link, buffer),
    }
}

// What an answer comes to.
fn after_answer(closed: Result<bool, WriteFault>) -> Round
    ensures { result ≡ round_of closed }
{
    match closed {
        Ok(false) => Round::On,
        Ok(true) => Round::Over(SessionEnd::Closed),
        Err(WriteFault) => Round::Over(SessionEnd::WriteFault),
    }
}

// Has a message judged, at the clock's next moment, and answers it. It says whether the answer closes the session.
fn answer<S: Service, O: Sink, C: Clock, G: Gate>(
    alloc: Global,
    message: &Message,
    is_last: bool,
    service: &mut S,
    sink: &mut O,
    clock: &mut C,
    gate: &mut G,
    buffer: &mut Buffer,
) -> Result<bool, WriteFault>
    ensures { Replies S.Service service.old message.now is_last (C.moments clock.old)
        (O.sink sink.old) result service.new (C.moments clock.new) (O.sink sink.new) }
{
    let moment = clock.now();
    let closes = is_closing(message, is_last);
    let answered = service.judge(alloc, message, is_last, moment, gate);
    gate.reach(GatePoint::BeforeAnswer);
    give_answer(&answered, service.schema(), closes, sink, buffer)
}

// Whether the session is closed by the answer to a message, as the message asks or as it is the last.
fn is_closing(message: &Message, is_last: bool) -> bool
    ensures { result ≡ (message.now.close || is_last) }
{
    message.close || is_last
}

// Gives an answer, and says whether it closes the session.
fn give_answer<O: Sink>(
    answered: &Answered,
    schema: &Schema,
    closes: bool,
    sink: &mut O,
    buffer: &mut Buffer,
) -> Result<bool, WriteFault>
    ensures { GivesAnswer result (O.sink sink.old) (answer_text answered.now schema.now closes)
        closes (O.sink sink.new) }
{
    put_answer(answered, schema, closes, sink, buffer)?;
    Ok(closes)
}

// Gives an answer.
fn put_answer<O: Sink>(
    answered: &Answered,
    schema: &Schema,
    closes: bool,
    sink: &mut O,
    buffer: &mut Buffer,
) -> Result<(), WriteFault>
    ensures { Gives result (O.sink sink.old) (answer_text answered.now schema.now closes)
        (O.sink sink.new) }
{
    match answered {
        Answered::Reply(reply) => put_buffered_reply(reply, schema, closes, sink, buffer),
        Answered::Full => put_buffered(26, closes, sink, buffer),
        Answered::StoreFault => put_buffered(25, closes, sink, buffer),
        Answered::OutOfMemory => put_buffered(27, closes, sink, buffer),
    }
}

// Gives a reply through the buffer.
fn put_buffered_reply<O: Sink>(
    reply: &Reply,
    schema: &Schema,
    close: bool,
    sink: &mut O,
    buffer: &mut Buffer,
) -> Result<(), WriteFault>
    ensures { Gives result (O.sink sink.old) (reply_text reply.now schema.now close)
        (O.sink sink.new) }
{
    buffer.clear();
    let mut buffered = Buffered { sink, buffer };
    let given = put_reply(reply, schema, close, &mut buffered);
    buffer.finish(sink, given)
}

// Gives a refusal of a row through the buffer.
fn put_buffered<O: Sink>(
    row: u8,
    close: bool,
    sink: &mut O,
    buffer: &mut Buffer,
) -> Result<(), WriteFault>
    ensures { Gives result (O.sink sink.old) (fixed_text row close) (O.sink sink.new) }
{
    buffer.clear();
    let mut buffered = Buffered { sink, buffer };
    let given = put_fixed(row, close, &mut buffered);
    buffer.finish(sink, given)
}

// Refuses what follows by a row, which ends the session.
fn refuse<O: Sink>(row: u8, sink: &mut O, buffer: &mut Buffer) -> Round
    ensures { IsRefused row (O.sink sink.old) result (O.sink sink.new) }
{
    match put_buffered(row, true, sink, buffer) {
        Ok(()) => Round::Over(SessionEnd::Unframed),
        Err(WriteFault) => Round::Over(SessionEnd::WriteFault),
    }
}

// Says that memory ran out while a message was read.
fn give_up<O: Sink>(sink: &mut O, buffer: &mut Buffer) -> Round
    ensures { IsGivenUp (O.sink sink.old) result (O.sink sink.new) }
{
    match put_buffered(27, true, sink, buffer) {
        Ok(()) => Round::Over(SessionEnd::NoMemory),
        Err(WriteFault) => Round::Over(SessionEnd::WriteFault),
    }
}
