// The asks that wait for a slot.

ghost use Rattle.std.specs.Prelude.{◌≡◌, ◌≤◌, ◌-◌, ◌↔◌, ◌++◌, ◌∷◌, [], IfOk, IsTrue, List, OnErr, OnOk, drop, length, slice_get, take};
ghost use Rattle.protocol_data.specs.declared.node.AskKey.{AskKey};

use crate::node::AskKey;
use sequence::Seq;
use std::alloc::{AllocError, Global};
use std::marker::Model;

/// So many places at the front may be empty, or as many as there are behind them.
const MOST_GONE: usize = 64;

/// The rows behind the first so many move up to the front.
fn close_up(rows: &mut Seq<AskKey>, gone: usize)
    requires { gone ≤ length rows.old }
    ensures { rows.new ≡ drop gone rows.old }
{
    let left = rows.len() - gone;
    rows.items.rotate_left(gone);
    rows.items.truncate(left);
}

/// All rows are gone, and their places are free.
fn clear(rows: &mut Seq<AskKey>)
    ensures { rows.new ≡ [] }
{
    rows.items.truncate(0);
}

fn take_last(rows: &mut Seq<AskKey>)
    ensures { rows.new ≡ take (length rows.old - 1) rows.old }
{
    let _ = rows.items.pop();
}

/// Asks that wait, in order. Contracts see the list.
///
/// The first is taken out by counting it as gone: the others move up when more than half are gone, and more than a few, so that what it costs does not
/// grow with how many there are.
#[derive(Drop, Debug)]
pub struct Queue {
    rows: Seq<AskKey>,
    gone: usize,
}

impl Model for Queue {
    ghost use Rattle.std.specs.Prelude.{List, drop, length, ◌≤◌};
    ghost use Rattle.std.specs.Coded.{codes};
    ghost use Rattle.ids.specs.Codes.{id_code};
    ghost use Rattle.ids.specs.Codes.{attempt_code};
    ghost use Rattle.protocol_data.specs.declared.node.AskKey.{AskKey};

    ghost Value = { List AskKey };

    ghost coded = { Prim.hlevel (codes, id_code, attempt_code) };

    ghost view = { λ q. drop q.gone q.rows };

    ghost invariant = { λ q. q.gone ≤ length q.rows };
}

impl Queue {
    /// No ask waits.
    pub fn new(alloc: Global) -> Self
        ensures { result ≡ [] }
    {
        Queue {
            rows: Seq::new(alloc),
            gone: 0,
        }
    }

    /// Whether no ask waits: the places of asks that were taken out before don't count.
    pub fn is_empty(&self) -> bool
        ensures { IsTrue result ↔ (self.now ≡ []) }
    {
        self.as_slice().is_empty()
    }

    /// The ask that has waited longest; none where none waits.
    pub fn first(&self) -> Option<AskKey>
        ensures { result ≡ slice_get self.now 0 }
    {
        if self.gone == self.rows.len() {
            return None;
        }
        Some(*self.rows.get(self.gone))
    }

    /// The asks, in order.
    pub fn as_slice(&self) -> &[AskKey]
        ensures { result.now ≡ self.now }
    {
        &self.rows.items[self.gone..]
    }

    /// Adds an ask at the end. On an error the queue is as it was.
    pub fn push(&mut self, key: AskKey) -> Result<(), AllocError>
        ensures ok { OnOk result (self.new ≡ self.old ++ key ∷ []) }
        ensures err { OnErr result (self.new ≡ self.old) }
    {
        self.rows.push(key)
    }

    /// Takes out the first ask. It takes no memory.
    pub fn remove_first(&mut self)
        ensures { self.new ≡ drop 1 self.old }
    {
        if self.gone == self.rows.len() {
            return;
        }
        self.gone += 1;
        let count = self.rows.len();
        if self.gone == count {
            clear(&mut self.rows);
            self.gone = 0;
            return;
        }
        if self.gone <= MOST_GONE.max(count / 2) {
            return;
        }
        close_up(&mut self.rows, self.gone);
        self.gone = 0;
    }

    /// Takes the last ask out again.
    pub fn remove_last(&mut self)
        ensures { (xs : List AskKey) (x : AskKey) → self.old ≡ xs ++ x ∷ [] → self.new ≡ xs }
    {
        if self.gone == self.rows.len() {
            return;
        }
        take_last(&mut self.rows);
    }

    /// An equal queue. An error is want of memory.
    pub fn copy(&self, alloc: Global) -> Result<Queue, AllocError>
        ensures { IfOk result (λ q. q ≡ self.now) }
    {
        let rows = self.rows.copy(alloc)?;
        Ok(Queue {
            rows,
            gone: self.gone,
        })
    }
}
