// What a message is about, so that one that is still under way is found.

ghost use Rattle.std.specs.Prelude.{◌≡◌};
ghost use Rattle.waits.specs.Topics.{is_about, is_answer, is_any_node, is_ask_for, is_end_of, is_fetch_of, is_for_lent, is_hold_ack_of};
ghost use Rattle.waits.specs.Topics.{is_hold_of, is_node, is_push_of, is_reply_to, is_worker, seeks};

use ids::{AttemptId, NodeId, ObjectId, WorkerId};
use protocol_data::{Endpoint, Envelope, Message};

/// What a message is about.
#[derive(Clone, Copy)]
pub enum Topic {
    /// The ask of that number for the attempt.
    AskFor(AttemptId, u32),
    /// What is answered to it.
    ReplyTo(AttemptId, u32),
    /// That the attempt is to be run.
    PushOf(AttemptId),
    /// How the attempt stopped.
    EndOf(AttemptId),
    /// What the worker, which waits for the object, is told of it.
    AnswerTo(WorkerId, ObjectId),
    /// That the worker needs the node's copy of the object.
    FetchOf(WorkerId, NodeId, ObjectId),
    /// That the worker needs the object.
    SoughtBy(WorkerId, ObjectId),
    /// That the first object holds the second.
    HoldOf(ObjectId, ObjectId),
    /// That this was noted.
    HoldAckOf(ObjectId, ObjectId),
    /// That the worker was given to an attempt, or is to run it.
    ForLent(WorkerId),
}

fn is_worker(endpoint: &Endpoint, worker: WorkerId) -> bool
    ensures { result ≡ is_worker worker endpoint.now }
{
    match endpoint {
        Endpoint::TheWorker(other) => other.is(worker),
        Endpoint::TheNode(_) => false,
    }
}

fn is_node(endpoint: &Endpoint, node: NodeId) -> bool
    ensures { result ≡ is_node node endpoint.now }
{
    match endpoint {
        Endpoint::TheWorker(_) => false,
        Endpoint::TheNode(other) => other.is(node),
    }
}

fn is_any_node(endpoint: &Endpoint) -> bool
    ensures { result ≡ is_any_node endpoint.now }
{
    match endpoint {
        Endpoint::TheWorker(_) => false,
        Endpoint::TheNode(_) => true,
    }
}

fn is_ask_for(message: &Message, attempt: AttemptId, number: u32) -> bool
    ensures { result ≡ is_ask_for attempt number message.now }
{
    match message {
        Message::Ask(asked, t) => asked.is(attempt) && *t == number,
        _ => false,
    }
}

fn is_reply_to(message: &Message, attempt: AttemptId, number: u32) -> bool
    ensures { result ≡ is_reply_to attempt number message.now }
{
    match message {
        Message::Give(asked, t, _) => asked.is(attempt) && *t == number,
        Message::Elsewhere(asked, t, _) => asked.is(attempt) && *t == number,
        _ => false,
    }
}

fn is_push_of(message: &Message, attempt: AttemptId) -> bool
    ensures { result ≡ is_push_of attempt message.now }
{
    match message {
        Message::Push(pushed, _) => pushed.is(attempt),
        _ => false,
    }
}

fn is_end_of(message: &Message, attempt: AttemptId) -> bool
    ensures { result ≡ is_end_of attempt message.now }
{
    match message {
        Message::Finished(ended, _, _) => ended.is(attempt),
        Message::Failed(ended, _) => ended.is(attempt),
        _ => false,
    }
}

fn is_answer(envelope: &Envelope, worker: WorkerId, object: ObjectId) -> bool
    ensures { result ≡ is_answer worker object envelope.now.sender envelope.now.message }
{
    match &envelope.message {
        // To its owner an At says that there is one more copy.
        Message::At(told, _, _, _) => told.is(object) && !object.owner.is(worker),
        Message::Gone(told, _) => told.is(object),
        Message::CopyOf(told, _, _) => told.is(object),
        Message::Missing(told, _, _) => told.is(object) && is_any_node(&envelope.sender),
        _ => false,
    }
}

fn is_fetch_of(message: &Message, object: ObjectId) -> bool
    ensures { result ≡ is_fetch_of object message.now }
{
    match message {
        Message::Fetch(fetched, _) => fetched.is(object),
        _ => false,
    }
}

fn seeks(message: &Message, object: ObjectId) -> bool
    ensures { result ≡ seeks object message.now }
{
    match message {
        Message::Where(sought) => sought.is(object),
        Message::Missing(sought, _, _) => sought.is(object),
        _ => false,
    }
}

fn is_hold_of(message: &Message, holder: ObjectId, object: ObjectId) -> bool
    ensures { result ≡ is_hold_of holder object message.now }
{
    match message {
        Message::Hold(holding, held) => holding.is(holder) && held.is(object),
        _ => false,
    }
}

fn is_hold_ack_of(message: &Message, holder: ObjectId, object: ObjectId) -> bool
    ensures { result ≡ is_hold_ack_of holder object message.now }
{
    match message {
        Message::HoldAck(holding, held) => holding.is(holder) && held.is(object),
        _ => false,
    }
}

fn is_for_lent(envelope: &Envelope, worker: WorkerId) -> bool
    ensures { result ≡ is_for_lent worker envelope.now.receiver envelope.now.message }
{
    match &envelope.message {
        Message::Give(_, _, given) => given.is(worker),
        Message::Push(_, _) => is_worker(&envelope.receiver, worker),
        _ => false,
    }
}

/// Whether the message is about that.
pub fn is_about(topic: &Topic, envelope: &Envelope) -> bool
    ensures { result ≡ is_about topic.now envelope.now }
{
    match topic {
        Topic::AskFor(attempt, number) => is_ask_for(&envelope.message, *attempt, *number),
        Topic::ReplyTo(attempt, number) => is_reply_to(&envelope.message, *attempt, *number),
        Topic::PushOf(attempt) => is_push_of(&envelope.message, *attempt),
        Topic::EndOf(attempt) => is_end_of(&envelope.message, *attempt),
        Topic::AnswerTo(worker, object) => {
            is_worker(&envelope.receiver, *worker) && is_answer(envelope, *worker, *object)
        }
        Topic::FetchOf(worker, node, object) => {
            is_worker(&envelope.sender, *worker)
                && is_node(&envelope.receiver, *node)
                && is_fetch_of(&envelope.message, *object)
        }
        Topic::SoughtBy(worker, object) => {
            is_worker(&envelope.sender, *worker) && seeks(&envelope.message, *object)
        }
        Topic::HoldOf(holder, object) => is_hold_of(&envelope.message, *holder, *object),
        Topic::HoldAckOf(holder, object) => is_hold_ack_of(&envelope.message, *holder, *object),
        Topic::ForLent(worker) => is_for_lent(envelope, *worker),
    }
}
