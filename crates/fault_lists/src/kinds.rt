// Which kinds of faults a text names.

ghost use Rattle.std.specs.Prelude.{◌≡◌, IfErr, IfOk, IfNone, IfSome, Contains};
ghost use Rattle.fault_lists.specs.Kinds.{Chooses, ChoosesNone, IsWith, no_faults, words_of};

use crate::choice::FaultChoice;

/// No kind.
const NOTHING: FaultChoice = FaultChoice {
    kill: false,
    told_kill: false,
    kill_node: false,
    lose: false,
    evict: false,
};

/// The choice with the faults of that name too, if there are such.
fn with_kind(choice: FaultChoice, name: &str) -> Option<FaultChoice>
    ensures some { IfSome result (IsWith name.now choice) }
    ensures none { IfNone result (ChoosesNone name.now) }
{
    let mut more = choice;
    match name {
        "kill" => more.kill = true,
        "notice" => more.told_kill = true,
        "kill-node" => more.kill_node = true,
        "lose" => more.lose = true,
        "evict" => more.evict = true,
        _ => return None,
    }
    Some(more)
}

/// The faults with the names that stand in the text, with commas between them; else the first that is the name of none.
pub fn choice_named(text: &str) -> Result<FaultChoice, &str>
    ensures named { IfOk result (Chooses (words_of text.now) no_faults) }
    ensures none { IfErr result (λ word. ChoosesNone word.now × Contains (words_of text.now) word.now) }
{
    let mut choice = NOTHING;
    let mut rest = text;
    while let Some((word, behind)) = rest.split_once(',') {
        match with_kind(choice, word) {
            Some(more) => choice = more,
            None => return Err(word),
        }
        rest = behind;
    }
    match with_kind(choice, rest) {
        Some(more) => Ok(more),
        None => Err(rest),
    }
}
