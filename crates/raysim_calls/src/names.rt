// Which object, worker or node a word names.

ghost use Rattle.std.specs.Prelude.{◌≡◌, ◌<◌, ◌^◌, ℕ, IfNone, IfSome, Some};
ghost use Rattle.std.specs.Fmt.{decimal};
ghost use Rattle.ids.specs.Texts.{node_text, worker_text};
ghost use Rattle.raysim_calls.specs.Names.{Names, NamesNone};

use ids::{NodeId, ObjectId, WorkerId, read_number};
use log_words::Contents;
use run_commands::Form;

/// The number that the text writes, if it is one of 32 bits.
fn number_in(text: &[u8]) -> Option<u32>
    ensures found { IfSome result (λ n. text.now ≡ decimal n) }
    ensures only { (n : ℕ) → n < 2 ^ 32 → text.now ≡ decimal n → result ≡ Some n }
{
    let Some(number) = read_number(text) else {
        return None;
    };
    if number > 4294967295 {
        return None;
    }
    Some(number as u32)
}

/// The number of the worker that the text names.
fn worker_named(text: &[u8]) -> Option<u32>
    ensures found { IfSome result (λ w. text.now ≡ worker_text w) }
    ensures only { (w : ℕ) → w < 2 ^ 32 → text.now ≡ worker_text w → result ≡ Some w }
{
    let [b'w', number @ ..] = text else {
        return None;
    };
    number_in(number)
}

/// The number of the node that the text names.
fn node_named(text: &[u8]) -> Option<u32>
    ensures found { IfSome result (λ n. text.now ≡ node_text n) }
    ensures only { (n : ℕ) → n < 2 ^ 32 → text.now ≡ node_text n → result ≡ Some n }
{
    let [b'n', number @ ..] = text else {
        return None;
    };
    number_in(number)
}

/// What is told of the object, the worker or the node that the text names; none where it names none.
pub fn named_form(contents: Contents, text: &[u8]) -> Option<Form>
    ensures found { IfSome result (Names text.now contents) }
    ensures none { IfNone result (NamesNone text.now) }
{
    if let Some(worker) = worker_named(text) {
        return Some(Form::WhyWorker(contents, WorkerId(worker)));
    }
    if let Some(node) = node_named(text) {
        return Some(Form::WhyNode(contents, NodeId(node)));
    }
    if let Some(object) = ObjectId::read(text) {
        return Some(Form::Why(contents, object));
    }
    None
}
