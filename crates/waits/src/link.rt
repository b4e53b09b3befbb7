// What keeps an attempt from going on.

use ids::{AttemptId, NodeId, ObjectId, WorkerId};

/// What keeps an attempt from going on. One leads to the next; the last ones say which event would let it go on.
#[derive(Clone, Copy)]
pub enum Link {
    /// The worker is dead: no event lets its attempt go on.
    IsDead(WorkerId),
    /// The worker's attempt may go on, with a slot: the worker claims.
    CanGoOn(WorkerId),
    /// The job of that number is out of the worker: it is committed.
    HasJob(WorkerId, u64),
    /// No slot of the node is free for the worker, or for what it asked there.
    LacksSlot(WorkerId, NodeId),
    /// The worker was given to an attempt that comes to it no more, and has a slot: it is killed.
    KeepsSlot(WorkerId),
    /// The worker's attempt waits for the object.
    WaitsFor(WorkerId, AttemptId, ObjectId),
    /// The worker's attempt waits for the object, of which it asked the node for a copy.
    FetchesFor(WorkerId, AttemptId, ObjectId, NodeId),
    /// The worker's attempt has stopped, and its owner doesn't know.
    HasStopped(WorkerId, AttemptId),
    /// The worker tells nobody how its attempt stopped before it knows that the first object holds the second.
    HoldsBack(WorkerId, ObjectId, ObjectId),
    /// The ask of that number for the attempt stands at the node.
    AskedFor(AttemptId, u32, NodeId),
    /// The attempt was begun on the worker, which the node gave.
    RunsAt(AttemptId, WorkerId, NodeId),
    /// The message of that number was not delivered: it is.
    UnderWay(u64),
    /// The first worker doesn't know that the second is dead: it is told.
    Untold(WorkerId, WorkerId),
    /// The worker doesn't know that the node is dead: it is told.
    NodeUntold(WorkerId, NodeId),
    /// The object was released: no event by itself lets who waits for it go on.
    WasReleased(ObjectId),
    /// Nothing that the worker asked for is under way: it asks again.
    Resting(WorkerId),
}
