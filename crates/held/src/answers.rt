// What an attempt was answered, which contracts see as outcomes.

ghost use Rattle.std.specs.Prelude.{◌≡◌, ◌∷◌, ◌++◌, [], IfOk, OnOk, OnErr, map};
ghost use Rattle.values.specs.Values.{content_of};

use crate::content::SharedContent;
use std::alloc::{AllocError, Global};
use std::marker::Model;
use std::sync::Arc;

/// Contents in order, which contracts see as the outcomes that they are. Copies share them.
#[derive(Drop)]
pub struct Answers {
    /// The contents, in one piece of memory that all copies share; none while there are none.
    contents: Option<Arc<Vec<values::Content>>>,
}

impl Model for Answers {
    ghost use Rattle.std.specs.Prelude.{List, map};
    ghost use Rattle.std.specs.Coded.{codes};
    ghost use Rattle.task_spec.specs.of_meaning.Values.{Outcome};
    ghost use Rattle.held.specs.Answered.{contents_of};
    ghost use Rattle.held.specs.Codes.{outcome_code};
    ghost use Rattle.values.specs.Values.{content_of};

    ghost Value = { List Outcome };

    ghost coded = { Prim.hlevel (codes, outcome_code) };

    ghost view = { λ a. map content_of (contents_of a.contents) };
}

impl Answers {
    /// None yet.
    pub fn new() -> Answers
        ensures { result ≡ [] }
    {
        Answers { contents: None }
    }

    /// The contents, in order.
    pub fn as_slice(&self) -> &[values::Content]
        ensures { self.now ≡ map content_of result.now }
    {
        match &self.contents {
            None => &[],
            Some(contents) => contents.as_slice(),
        }
    }

    /// Adds a copy of a content at the end; those before it are copied too where a copy shares them. After an error, which is want of
    /// memory, they are as they were.
    pub fn push(&mut self, alloc: Global, content: &SharedContent) -> Result<(), AllocError>
        ensures ok { OnOk result (self.new ≡ self.old ++ content.now ∷ []) }
        ensures err { OnErr result (self.new ≡ self.old) }
    {
        let content = content.inner.copy(alloc)?;
        if let Some(shared) = &mut self.contents {
            if let Some(contents) = Arc::get_mut(shared) {
                contents.push(content)?;
                return Ok(());
            }
        }
        let mut contents = values::copy_contents(self.as_slice(), alloc)?;
        contents.push(content)?;
        self.contents = Some(Arc::new(alloc, contents)?);
        Ok(())
    }

    /// Equal contents, which are shared. An error is want of memory.
    pub fn copy(&self) -> Result<Answers, AllocError>
        ensures { IfOk result (λ a. a ≡ self.now) }
    {
        match &self.contents {
            None => Ok(Answers { contents: None }),
            Some(contents) => Ok(Answers {
                contents: Some(Arc::try_clone(contents)?),
            }),
        }
    }
}
