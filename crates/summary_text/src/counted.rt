// The word for what is counted.

ghost use Rattle.std.specs.Prelude.{◌≡◌};
ghost use Rattle.summary_text.specs.Counted.{noun};

/// The word for one thing, or that for several, by how many there are.
#[tactic(auto, unfolding(crate::specs::Counted::noun))]
pub fn noun<'a>(count: usize, one: &'a str, several: &'a str) -> &'a str
    ensures { result.now ≡ noun count one.now several.now }
{
    if count == 1 { one } else { several }
}
